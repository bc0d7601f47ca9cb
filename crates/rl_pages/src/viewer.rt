//! Who looks at a wiki.
ghost use Rattle.std.specs.Prelude.{◌≡◌, ◌==◌, ◌<◌, length, position, option_map, IfOk, IfSome};
ghost use Rattle.rl_names.specs.Meant.{Reads};
ghost use Rattle.rl_pages.specs.Viewer.{viewer_of, IsViewer, is_user, is_seen_by, before_slash, owner_of, viewer_refusal};

use rl_names::{NoMemory, Text, UserName, UserNameError};
use std::alloc::Global;
use thiserror::Error;

/// Why bytes name no viewer.
#[derive(Clone, Copy, Debug, PartialEq, Eq, Error)]
pub enum ViewerError {
    /// The bytes are some, and break the rule of user names.
    #[error("not a user name")]
    BadUser,
    /// Memory ran out.
    #[error("out of memory")]
    NoMemory,
}

/// Who looks at a wiki.
#[derive(Drop)]
pub enum Viewer {
    /// Nobody.
    Anon,
    /// The user of this name, as the rule of user names spells it.
    User(Text),
}

impl Viewer {
    /// Reads the name of a viewer. No bytes at all are nobody's.
    pub fn read(alloc: Global, bytes: &[u8]) -> Result<Viewer, ViewerError>
        ensures value { Reads viewer_refusal result (viewer_of bytes.now) }

        // What was read is read again as itself.
        ensures viewer { IfOk result IsViewer }
    {
        if bytes.is_empty() {
            return Ok(Viewer::Anon);
        }
        match UserName::read(alloc, bytes) {
            Ok(name) => Ok(Viewer::User(Text::from_string(name.into_string()))),
            Err(UserNameError::BadUserName) => Err(ViewerError::BadUser),
            Err(UserNameError::NoMemory) => Err(ViewerError::NoMemory),
        }
    }

    /// Whether the viewer is the user of this name.
    pub fn is(&self, name: &[u8]) -> bool
        ensures { result ≡ is_user self.now name.now }
    {
        match self {
            Viewer::Anon => false,
            Viewer::User(user) => user.as_bytes() == name,
        }
    }

    /// Whether the viewer sees the page of this title: another user's pages are not seen.
    pub fn sees(&self, title: &[u8]) -> bool
        ensures { result ≡ is_seen_by self.now title.now }
    {
        match owner(title) {
            Some(name) => self.is(name),
            None => true,
        }
    }
}

/// The place of the first slash.
fn slash(text: &[u8]) -> Option<usize>
    ensures value { result ≡ position (λ b. b == 47) text.now }
    ensures within { IfSome result (λ at. at < length text.now) }
{
    text.iter().position(|b| *b == b'/')
}

/// What stands before the first slash, if there is one.
fn before_slash(text: &[u8]) -> Option<&[u8]>
    ensures { option_map (λ name. name.now) result ≡ before_slash text.now }
{
    match slash(text) {
        Some(at) => Some(&text[..at]),
        None => None,
    }
}

/// The user whose page a title names: what stands between `User:` and the first slash.
pub(crate) fn owner(title: &[u8]) -> Option<&[u8]>
    ensures { option_map (λ name. name.now) result ≡ owner_of title.now }
{
    if !title.starts_with(b"User:") {
        return None;
    }
    let (_, rest) = title.split_at(5);
    before_slash(rest)
}
