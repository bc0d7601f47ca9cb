//! What is kept of an edit or a choice that was accepted.
ghost use Rattle.std.specs.Prelude.{◌≡◌, IfOk};

use rl_names::{NoMemory, Text, Title};

/// What a history is made of.
#[derive(Drop)]
pub enum Entry {
    /// A user gave a page a text.
    Edit { by: Text, title: Title, text: Text },
    /// A user gave an option of their own a value.
    Choice { user: Text, key: Text, value: Text },
}

impl Entry {
    /// The same entry once more.
    pub fn copy(&self) -> Result<Entry, NoMemory>
        ensures { IfOk result (λ e. e ≡ self.now) }
    {
        match self {
            Entry::Edit { by, title, text } => Ok(Entry::Edit {
                by: by.copy()?,
                title: title.copy()?,
                text: text.copy()?,
            }),
            Entry::Choice { user, key, value } => Ok(Entry::Choice {
                user: user.copy()?,
                key: key.copy()?,
                value: value.copy()?,
            }),
        }
    }
}
