//! A step of both ends.
ghost use Rattle.std.specs.Prelude.{◌≡◌, IfOk};

use rl_names::{NoMemory, Seq, Text};
use std::alloc::Global;

/// Each moment of a clock is below this, in milliseconds.
pub const CLOCK_END: u64 = 1_000_000_000_000_000_000;

/// A step of a script: what happens to a wiki, to the page that a user views, or between them. Users are by the rule of user
/// names, as it spells them, and the empty text is nobody.
#[derive(Drop)]
pub enum Step {
    /// A user gives a page a text, over its revision `base`.
    Edit {
        by: Text,
        title: Text,
        base: u64,
        text: Text,
    },
    /// A user gives an option of their own a value.
    Choice {
        user: Text,
        key: Text,
        value: Text,
    },
    /// It is this moment, below `CLOCK_END`.
    Clock {
        now: u64,
    },
    /// A user opens a page, in a language and with a skin.
    View {
        user: Text,
        lang: Text,
        skin: Text,
        debug: bool,
        features: Seq<Text>,
    },
    /// The page asks for all of these modules or for none.
    Using {
        names: Seq<Text>,
    },
    /// The page asks for those of these modules that resolve.
    Load {
        names: Seq<Text>,
    },
    /// The page's next batch is asked for.
    Take,
    /// The wiki answers the ask of this number.
    Serve {
        ask: u32,
    },
    /// The answer of this number comes to the page.
    Deliver {
        wire: u32,
    },
    /// The ask of this number is lost.
    Lose {
        ask: u32,
    },
    /// The page is closed.
    Close,
    /// The page brings an answer of its own.
    Embed {
        text: Text,
    },
}

/// A list of texts once more.
fn copied(alloc: Global, texts: &Seq<Text>) -> Result<Seq<Text>, NoMemory>
    ensures { IfOk result (λ copy. copy ≡ texts.now) }
{
    let texts = texts.as_slice();
    let mut copies = Vec::with_capacity(alloc, texts.len())?;
    for text in texts {
        copies.push(text.copy()?)?;
    }
    Ok(Seq::of(copies))
}

impl Step {
    /// The same step once more.
    pub fn copy(&self, alloc: Global) -> Result<Step, NoMemory>
        ensures { IfOk result (λ step. step ≡ self.now) }
    {
        Ok(match self {
            Step::Edit {
                by,
                title,
                base,
                text,
            } => Step::Edit {
                by: by.copy()?,
                title: title.copy()?,
                base: *base,
                text: text.copy()?,
            },
            Step::Choice { user, key, value } => Step::Choice {
                user: user.copy()?,
                key: key.copy()?,
                value: value.copy()?,
            },
            Step::Clock { now } => Step::Clock { now: *now },
            Step::View {
                user,
                lang,
                skin,
                debug,
                features,
            } => Step::View {
                user: user.copy()?,
                lang: lang.copy()?,
                skin: skin.copy()?,
                debug: *debug,
                features: copied(alloc, features)?,
            },
            Step::Using { names } => Step::Using {
                names: copied(alloc, names)?,
            },
            Step::Load { names } => Step::Load {
                names: copied(alloc, names)?,
            },
            Step::Take => Step::Take,
            Step::Serve { ask } => Step::Serve { ask: *ask },
            Step::Deliver { wire } => Step::Deliver { wire: *wire },
            Step::Lose { ask } => Step::Lose { ask: *ask },
            Step::Close => Step::Close,
            Step::Embed { text } => Step::Embed { text: text.copy()? },
        })
    }
}
