//! The titles of pages. No letter changes its case.
ghost use Rattle.std.specs.Prelude.{◌≡◌, IfOk, OnOk, fold, string_bytes};
ghost use Rattle.std.specs.List.{list_all, slice_split};
ghost use Rattle.rl_names.specs.Spacing.{with_word};
ghost use Rattle.rl_names.specs.Title.{is_space, is_title, is_title_byte, spaced as spaced_of};

use crate::packing::pieces;
use crate::text::NoMemory;
use std::alloc::{AllocError, Global};
use std::marker::Model;
use std::str;
use thiserror::Error;

/// Why bytes are no title.
#[derive(Clone, Copy, Debug, PartialEq, Eq, Error)]
pub enum TitleError {
    #[error("not a title")]
    BadTitle,
    #[error("out of memory")]
    NoMemory,
}

impl From<AllocError> for TitleError {
    ghost use Rattle.std.specs.Prelude.{◌≡◌};
    ghost use Rattle.rl_names.specs.declared.title.TitleError.TheVariants.{NoMemory};

    ghost from_gives = { λ _ e. e ≡ NoMemory };

    fn from(_error: AllocError) -> Self {
        TitleError::NoMemory
    }
}

/// The title of a page: 1 to 255 bytes of UTF-8, words with one space between, no control character and none of
/// `# < > [ ] { } |`.
#[derive(Drop)]
pub struct Title {
    text: String,
}

impl Model for Title {
    ghost use Rattle.std.specs.Prelude.{◌≡◌, List, ℕ, Some, string_bytes};
    ghost use Rattle.rl_names.specs.Title.{title_of};

    ghost Value = { List ℕ };

    ghost view = { λ t. string_bytes t.text };

    // A title is read again as itself.
    ghost invariant = { λ t. title_of (string_bytes t.text) ≡ Some (string_bytes t.text) };
}

impl Title {
    ghost use Rattle.std.specs.Prelude.{IsTrue, Some};
    ghost use Rattle.rl_names.specs.Meant.{Reads};
    ghost use Rattle.rl_names.specs.Title.{title_of, no_title_told};

    /// Reads a title. An underscore is a space, runs of spaces become one, and those at both ends are dropped.
    pub fn read(alloc: Global, bytes: &[u8]) -> Result<Title, TitleError>
        ensures { Reads no_title_told result (title_of bytes.now) }
    {
        let Ok(text) = str::from_utf8(bytes) else {
            return Err(TitleError::BadTitle);
        };
        let text = spaced(alloc, text)?;
        if is_title(text.as_bytes()) {
            Ok(Title { text })
        } else {
            Err(TitleError::BadTitle)
        }
    }

    pub fn as_bytes(&self) -> &[u8]
        ensures value { result.now ≡ self.now }
        ensures title { IsTrue (is_title self.now) }

        // What was read is read again as itself.
        ensures again { title_of self.now ≡ Some self.now }
    {
        self.text.as_bytes()
    }

    pub fn as_str(&self) -> &str
        ensures { result.now ≡ self.now }
    {
        self.text.as_str()
    }

    /// The same title once more.
    pub fn copy(&self) -> Result<Title, NoMemory>
        ensures { IfOk result (λ t. t ≡ self.now) }
    {
        let text = self.text.clone()?;
        Ok(Title { text })
    }
}

/// Adds a word behind a text.
fn push_word(out: &mut String, word: &str) -> Result<(), AllocError>
    ensures { OnOk result (string_bytes out.new ≡ with_word (string_bytes out.old) word.now) }
{
    if word.is_empty() {
        return Ok(());
    }
    if !out.is_empty() {
        out.push_str(" ")?;
    }
    out.push_str(word)?;
    Ok(())
}

/// Adds the words of a text without underscores.
fn push_words(alloc: Global, out: &mut String, text: &str) -> Result<(), AllocError>
    ensures { OnOk result (string_bytes out.new ≡ fold with_word (string_bytes out.old) (slice_split is_space text.now)) }
{
    let words = pieces(alloc, text, ' ')?;
    'words: for word in &words {
        push_word(out, word)?;
    }
    Ok(())
}

/// The words of a text, with one space between.
pub(crate) fn spaced(alloc: Global, text: &str) -> Result<String, AllocError>
    ensures { IfOk result (λ s. string_bytes s ≡ spaced_of text.now) }
{
    let mut out = String::new(alloc);
    let parts = pieces(alloc, text, '_')?;
    'parts: for part in &parts {
        push_words(alloc, &mut out, part)?;
    }
    Ok(out)
}

/// Whether a byte may stand in a title.
fn may_stand(byte: u8) -> bool
    ensures { result ≡ is_title_byte byte }
{
    byte >= b' '
        && byte != 0x7F
        && !matches!(byte, b'#' | b'<' | b'>' | b'[' | b']' | b'{' | b'}' | b'|')
}

fn all_may_stand(bytes: &[u8]) -> bool
    ensures { result ≡ list_all is_title_byte bytes.now }
{
    bytes.iter().all(|b| may_stand(*b))
}

/// Whether a text is a title as it stands.
pub(crate) fn is_title(bytes: &[u8]) -> bool
    ensures { result ≡ is_title bytes.now }
{
    !bytes.is_empty() && bytes.len() <= 255 && all_may_stand(bytes)
}
