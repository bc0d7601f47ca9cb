//! Who may edit which page.
ghost use Rattle.std.specs.Prelude.{◌≡◌};
ghost use Rattle.rl_pages.specs.Policy.{may_edit, is_among};

use crate::viewer::{Viewer, owner};
use rl_names::{Seq, Text, Title};

/// The rule of edits, with the names of those who may edit every page.
#[derive(Drop)]
pub struct Policy {
    pub admins: Seq<Text>,
}

impl Policy {
    /// Whether the viewer may edit the page of a title.
    pub fn may_edit(&self, viewer: &Viewer, title: &Title) -> bool
        ensures { result ≡ may_edit self.now.admins viewer.now title.now }
    {
        let Viewer::User(name) = viewer else {
            return false;
        };
        let title = title.as_bytes();
        if title.starts_with(b"MediaWiki:") {
            return is_among(self.admins.as_slice(), name.as_bytes());
        }
        match owner(title) {
            Some(user) => {
                user == name.as_bytes() || is_among(self.admins.as_slice(), name.as_bytes())
            }
            None => true,
        }
    }
}

fn is_among(names: &[Text], name: &[u8]) -> bool
    ensures { result ≡ is_among names.now name.now }
{
    names.iter().any(|other| other.as_bytes() == name)
}
