//! How a line is cut into words. A space is the byte 32 alone.
ghost use Rattle.std.specs.Prelude.{◌≡◌, ◌<◌, IfOk, map, option_map};
ghost use Rattle.std.specs.List.{before_first, list_all, position, slice_split};
ghost use Rattle.std.specs.Str.Lines.{strip_carriage_return};
ghost use Rattle.rl_gadgets.specs.Cut.{is, behind_all, before_all, cut_at, from_first, trimmed, words};
ghost use Rattle.rl_gadgets.specs.Line.{bracketed, ends_name, pages_in};

use rl_names::NoMemory;
use std::alloc::{AllocError, Global};

/// What stands behind all such characters at the front.
pub(crate) fn behind_all(text: &str, mark: char) -> &str
    requires { mark < 128 }
    ensures { result.now ≡ behind_all mark text.now }
{
    text.trim_start_matches(mark)
}

/// What stands before all such characters at the end.
fn before_all(text: &str, mark: char) -> &str
    requires { mark < 128 }
    ensures { result.now ≡ before_all mark text.now }
{
    text.trim_end_matches(mark)
}

/// A text without the spaces at both ends.
pub(crate) fn trimmed(text: &str) -> &str
    ensures { result.now ≡ trimmed text.now }
{
    before_all(behind_all(text, ' '), ' ')
}

/// The pieces between such characters.
pub(crate) fn pieces(alloc: Global, text: &str, mark: char) -> Result<Vec<&str>, AllocError>
    requires { mark < 128 }
    ensures { IfOk result (λ v. map (λ x. x.now) v.items ≡ slice_split (is mark) text.now) }
{
    text.split(mark).collect(alloc)
}

/// The pieces between such characters, each without the spaces at its ends.
pub(crate) fn words(alloc: Global, text: &str, mark: char) -> Result<Vec<&str>, NoMemory>
    requires { mark < 128 }
    ensures { IfOk result (λ v. map (λ x. x.now) v.items ≡ words mark text.now) }
{
    let pieces = pieces(alloc, text, mark)?;
    let mut words = Vec::with_capacity(alloc, pieces.len())?;
    'pieces: for piece in &pieces {
        words.push(trimmed(piece))?;
    }
    Ok(words)
}

/// What stands before the first such character and behind it, where one stands there.
pub(crate) fn cut_at(text: &str, mark: char) -> Option<(&str, &str)>
    requires { mark < 128 }
    ensures { option_map (λ parts. (parts.0.now, parts.1.now)) result ≡ cut_at mark text.now }
{
    text.split_once(mark)
}

/// A line without one carriage return at its end.
pub(crate) fn without_return(line: &str) -> &str
    ensures { result.now ≡ strip_carriage_return line.now }
{
    line.strip_suffix('\r').unwrap_or(line)
}

/// The place of the first byte that ends a name.
fn name_end(bytes: &[u8]) -> Option<usize>
    ensures { result ≡ position ends_name bytes.now }
{
    bytes.iter().position(|b| *b == b'[' || *b == b'|')
}

/// A text cut before the first byte that ends a name; all of it is the name where there is none.
pub(crate) fn name_and_rest(text: &str) -> (&str, &str)
    ensures name { result.0.now ≡ before_first ends_name text.now }
    ensures rest { result.1.now ≡ from_first ends_name text.now }
{
    match name_end(text.as_bytes()) {
        Some(at) => text.split_at(at),
        None => (text, ""),
    }
}

/// What stands between the brackets that a text begins with, and what stands behind them.
pub(crate) fn bracketed(text: &str) -> Option<(&str, &str)>
    ensures { option_map (λ parts. (parts.0.now, parts.1.now)) result ≡ bracketed text.now }
{
    match text.strip_prefix('[') {
        Some(rest) => cut_at(rest, ']'),
        None => Some(("", text)),
    }
}

/// What stands before the first bar.
pub(crate) fn before_bar(text: &str) -> &str
    ensures { result.now ≡ before_first (is 124) text.now }
{
    match text.split_once('|') {
        Some((before, _)) => before,
        None => text,
    }
}

/// The pages of a line, each behind a bar.
pub(crate) fn pages_in(alloc: Global, text: &str) -> Result<Vec<&str>, NoMemory>
    ensures { IfOk result (λ v. map (λ x. x.now) v.items ≡ pages_in text.now) }
{
    match text.split_once('|') {
        Some((_, pages)) => words(alloc, pages, '|'),
        None => Ok(Vec::new(alloc)),
    }
}

/// Whether only spaces stand in a text.
pub(crate) fn is_blank(text: &str) -> bool
    ensures { result ≡ list_all (is 32) text.now }
{
    text.bytes().all(|b| b == b' ')
}
