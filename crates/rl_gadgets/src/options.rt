//! The options of a line, and the lists that they give.
ghost use Rattle.std.specs.Prelude.{◌≡◌, IfOk, if◌then◌else◌, map, option_map, Some, None};
ghost use Rattle.std.specs.List.{list_all};
ghost use Rattle.rl_names.specs.Name.{is_name};
ghost use Rattle.rl_gadgets.specs.Line.{are_dependencies, has_option, last_value, listed, value_under};

use crate::cut::{cut_at, words};
use rl_names::{MAX_DEPENDENCIES, Name, NoMemory, Text};
use std::alloc::Global;

/// Whether an option stands among others, spelt just so.
pub(crate) fn has_option(options: &[&str], word: &str) -> bool
    ensures { result ≡ has_option word.now (map (λ x. x.now) options.now) }
{
    'options: for option in options {
        if *option == word {
            return true;
        }
    }
    false
}

/// The value of an option `key=value`, where that is its key.
fn value_under<'a>(option: &'a str, key: &str) -> Option<&'a str>
    ensures { option_map (λ value. value.now) result ≡ value_under key.now option.now }
{
    match cut_at(option, '=') {
        Some((before, behind)) if before == key => Some(behind),
        Some(_) | None => None,
    }
}

/// The value of the last option with this key.
fn last_value<'a>(options: &[&'a str], key: &str) -> Option<&'a str>
    ensures { option_map (λ value. value.now) result ≡ last_value key.now (map (λ x. x.now) options.now) }
{
    let mut last = None;
    'options: for option in options {
        last = value_under(option, key).or(last);
    }
    last
}

/// The words between the commas of the last option with this key.
pub(crate) fn listed<'a>(
    alloc: Global,
    options: &[&'a str],
    key: &str,
) -> Result<Vec<&'a str>, NoMemory>
    ensures { IfOk result (λ v. map (λ x. x.now) v.items ≡ listed key.now (map (λ x. x.now) options.now)) }
{
    match last_value(options, key) {
        Some(value) => words(alloc, value, ','),
        None => Ok(Vec::new(alloc)),
    }
}

/// The texts of words.
pub(crate) fn texts(alloc: Global, words: &[&str]) -> Result<Vec<Text>, NoMemory>
    ensures { IfOk result (λ v. v.items ≡ map (λ x. x.now) words.now) }
{
    let mut texts = Vec::with_capacity(alloc, words.len())?;
    'words: for word in words {
        texts.push(Text::of(alloc, word)?)?;
    }
    Ok(texts)
}

/// The names of words, if each is one.
fn names(alloc: Global, words: &[&str]) -> Result<Option<Vec<Name>>, NoMemory>
    ensures { IfOk result (λ names. option_map (λ v. v.items) names
        ≡ (if list_all is_name (map (λ x. x.now) words.now) then Some (map (λ x. x.now) words.now) else None)) }
{
    let mut names = Vec::with_capacity(alloc, words.len())?;
    'words: for word in words {
        if !Name::is(word.as_bytes()) {
            return Ok(None);
        }
        names.push(Name::of(alloc, word)?)?;
    }
    Ok(Some(names))
}

/// The dependencies of a line, if each is a name and they are not too many.
pub(crate) fn dependencies(alloc: Global, words: &[&str]) -> Result<Option<Vec<Name>>, NoMemory>
    ensures { IfOk result (λ names. option_map (λ v. v.items) names
        ≡ (if are_dependencies (map (λ x. x.now) words.now) then Some (map (λ x. x.now) words.now) else None)) }
{
    if words.len() as u64 > MAX_DEPENDENCIES {
        return Ok(None);
    }
    names(alloc, words)
}
