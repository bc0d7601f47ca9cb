//! The words of a definitions file: the names of modules, users and skins.
ghost use Rattle.std.specs.Prelude.{◌≡◌, IfOk};
ghost use Rattle.std.specs.List.{list_all, filter_map};
ghost use Rattle.rl_names.specs.Title.{user_name_of};
ghost use Rattle.rl_defs.specs.Words as spec;

use rl_names::{Name, NoMemory, Seq, Text, UserName, UserNameError};
use std::alloc::Global;

/// Whether a file may give this name to a module.
pub(crate) fn is_definable(name: &str) -> bool
    ensures { result ≡ spec.is_definable name.now }
{
    Name::is(name.as_bytes()) && !(name == "startup" || is_built_in(name) || is_gadget(name))
}

/// Whether this is a module that every wiki has.
pub(crate) fn is_built_in(name: &str) -> bool
    ensures { result ≡ spec.is_built_in name.now }
{
    matches!(
        name,
        "site" | "site.styles" | "user" | "user.styles" | "user.options"
    )
}

/// Whether this is a name that gadgets have.
pub(crate) fn is_gadget(name: &str) -> bool
    ensures { result ≡ spec.is_gadget name.now }
{
    name.starts_with("ext.gadget.")
}

/// The name of the user that a text spells, as it is kept.
pub(crate) fn user_name(alloc: Global, text: &str) -> Result<Option<Text>, NoMemory>
    ensures { IfOk result (λ name. name ≡ user_name_of text.now) }
{
    match UserName::read(alloc, text.as_bytes()) {
        Ok(name) => Ok(Some(Text::from_string(name.into_string()))),
        Err(UserNameError::BadUserName) => Ok(None),
        Err(UserNameError::NoMemory) => Err(NoMemory),
    }
}

/// The names of the users that these texts spell. A text that spells none is passed over.
pub(crate) fn user_names(alloc: Global, texts: &[Text]) -> Result<Seq<Text>, NoMemory>
    ensures { IfOk result (λ names. names ≡ filter_map user_name_of texts.now) }
{
    let mut names = Vec::with_capacity(alloc, texts.len())?;
    'texts: for text in texts {
        if let Some(name) = user_name(alloc, text.as_str())? {
            names.push(name)?;
        }
    }
    Ok(Seq::of(names))
}

/// Whether a skin may have this name.
pub(crate) fn is_skin(name: &str) -> bool
    ensures { result ≡ spec.is_skin name.now }
{
    (1..=40).contains(&name.len())
        && are_word_bytes(name.as_bytes())
        && !matches!(name, "default" | "fallback")
}

fn are_word_bytes(bytes: &[u8]) -> bool
    ensures { result ≡ list_all spec.is_word_byte bytes.now }
{
    bytes.iter().all(|b| is_word_byte(*b))
}

/// A small letter, a digit or a dash.
fn is_word_byte(byte: u8) -> bool
    ensures { result ≡ spec.is_word_byte byte }
{
    byte.is_ascii_lowercase() || byte.is_ascii_digit() || byte == b'-'
}
