//! The names of users.
ghost use Rattle.std.specs.Prelude.{◌≡◌, ◌==◌};
ghost use Rattle.std.specs.List.{list_any};
ghost use Rattle.rl_names.specs.Title.{is_user_name};

use crate::title::{is_title, spaced};
use std::alloc::{AllocError, Global};
use std::marker::Model;
use std::str;
use thiserror::Error;

/// Why bytes are no user name.
#[derive(Clone, Copy, Debug, PartialEq, Eq, Error)]
pub enum UserNameError {
    #[error("not a user name")]
    BadUserName,
    #[error("out of memory")]
    NoMemory,
}

impl From<AllocError> for UserNameError {
    ghost use Rattle.std.specs.Prelude.{◌≡◌};
    ghost use Rattle.rl_names.specs.declared.user_name.UserNameError.TheVariants.{NoMemory};

    ghost from_gives = { λ _ e. e ≡ NoMemory };

    fn from(_error: AllocError) -> Self {
        UserNameError::NoMemory
    }
}

/// The name of a user: a title of at most 85 bytes without a slash. Nobody has none.
#[derive(Drop)]
pub struct UserName {
    text: String,
}

impl Model for UserName {
    ghost use Rattle.std.specs.Prelude.{◌≡◌, List, ℕ, Some, string_bytes};
    ghost use Rattle.rl_names.specs.Title.{user_name_of};

    ghost Value = { List ℕ };

    ghost view = { λ n. string_bytes n.text };

    // A user name is read again as itself.
    ghost invariant = { λ n. user_name_of (string_bytes n.text) ≡ Some (string_bytes n.text) };
}

impl UserName {
    ghost use Rattle.std.specs.Prelude.{IsTrue, Some, string_bytes};
    ghost use Rattle.rl_names.specs.Meant.{Reads};
    ghost use Rattle.rl_names.specs.Title.{user_name_of, no_user_name_told};

    /// Reads a user name, as a title is read. No bytes at all are no name: they stand for nobody, and a caller who
    /// takes nobody asks for that first.
    pub fn read(alloc: Global, bytes: &[u8]) -> Result<UserName, UserNameError>
        ensures { Reads no_user_name_told result (user_name_of bytes.now) }
    {
        let Ok(text) = str::from_utf8(bytes) else {
            return Err(UserNameError::BadUserName);
        };
        let text = spaced(alloc, text)?;
        if is_user_name(text.as_bytes()) {
            Ok(UserName { text })
        } else {
            Err(UserNameError::BadUserName)
        }
    }

    pub fn as_bytes(&self) -> &[u8]
        ensures value { result.now ≡ self.now }
        ensures name { IsTrue (is_user_name self.now) }

        // What was read is read again as itself.
        ensures again { user_name_of self.now ≡ Some self.now }
    {
        self.text.as_bytes()
    }

    /// The name as a text that may be kept by itself.
    pub fn into_string(self) -> String
        ensures value { string_bytes result ≡ self }
        ensures again { user_name_of self ≡ Some self }
    {
        let UserName { text } = self;
        text
    }
}

fn has_slash(bytes: &[u8]) -> bool
    ensures { result ≡ list_any (λ b. b == 47) bytes.now }
{
    bytes.iter().any(|b| *b == b'/')
}

/// Whether a text is a user name as it stands.
fn is_user_name(bytes: &[u8]) -> bool
    ensures { result ≡ is_user_name bytes.now }
{
    is_title(bytes) && bytes.len() <= 85 && !has_slash(bytes)
}

#[cfg(test)]
mod tests {
    use super::*;
    use crate::title::Title;

    /// The title that bytes spell, or nothing.
    fn title(rt: &HostRuntime, bytes: &[u8]) -> String {
        match Title::read(rt.alloc(), bytes) {
            Ok(title) => {
                let text = str::from_utf8(title.as_bytes()).unwrap_or("?");
                String::from_str(rt.alloc(), text).unwrap_or(String::new(rt.alloc()))
            }
            Err(_) => String::new(rt.alloc()),
        }
    }

    /// The user name that bytes spell, or nothing.
    fn user_name(rt: &HostRuntime, bytes: &[u8]) -> String {
        match UserName::read(rt.alloc(), bytes) {
            Ok(name) => name.into_string(),
            Err(_) => String::new(rt.alloc()),
        }
    }

    #[test]
    fn titles(rt: HostRuntime) {
        for (bytes, want) in [
            (&b"_Main__Page _"[..], "Main Page"),
            (b"  a   b ", "a b"),
            (b"a_ _b", "a b"),
            (b"MediaWiki:Common.js", "MediaWiki:Common.js"),
            (
                "User:Zo\u{e9}/common.css".as_bytes(),
                "User:Zo\u{e9}/common.css",
            ),
            (b"", ""),
            (b" __ ", ""),
            (b"a#b", ""),
            (b"a<b", ""),
            (b"a>b", ""),
            (b"a[b", ""),
            (b"a]b", ""),
            (b"a{b", ""),
            (b"a}b", ""),
            (b"a|b", ""),
            (b"a\tb", ""),
            (b"a\x1Fb", ""),
            (b"a\x7Fb", ""),
            (b"a\xFFb", ""),
        ] {
            assert_eq!(rt; title(&rt, bytes).as_str(), want);
        }
    }

    #[test]
    fn user_names(rt: HostRuntime) {
        for (bytes, want) in [
            (&b"Ann"[..], "Ann"),
            (b" Ann_Lee ", "Ann Lee"),
            (b"", ""),
            (b"_", ""),
            (b"Ann/Lee", ""),
            (b"Ann|Lee", ""),
        ] {
            assert_eq!(rt; user_name(&rt, bytes).as_str(), want);
        }
    }

    #[test]
    fn lengths(rt: HostRuntime) {
        let mut long = [b'a'; 257];
        assert_eq!(rt; title(&rt, &long[..255]).len(), 255);
        assert_eq!(rt; title(&rt, &long[..256]).len(), 0);
        assert_eq!(rt; user_name(&rt, &long[..85]).len(), 85);
        assert_eq!(rt; user_name(&rt, &long[..86]).len(), 0);
        // The limit is on what is left without the outer space.
        long[0] = b'_';
        assert_eq!(rt; title(&rt, &long[..256]).len(), 255);
        assert_eq!(rt; title(&rt, &long[..257]).len(), 0);
        assert_eq!(rt; user_name(&rt, &long[..86]).len(), 85);
    }
}
