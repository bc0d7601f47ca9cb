//! The lines of answers, added to a text.
ghost use Rattle.std.specs.Prelude.{◌≡◌, ◌++◌, ◌∷◌, [], ℕ, List, IfOk, OnOk, string_bytes};
ghost use Rattle.rl_names.specs.Name.{key_text};
ghost use Rattle.rl_names.specs.declared.part.Message.{Message};
ghost use Rattle.rl_wire.specs.Message.{AreAscending};
ghost use Rattle.rl_wire.specs.Payload.{payload_text};
ghost use Rattle.rl_wire.specs.Line.{line, implement_text, state_text, AreTexts};

use crate::values::{add_module, add_text, add_word};
use rl_names::{Message, NoMemory, Version};
use std::alloc::Global;

/// The key of a module, as a text of its own.
fn key_of(alloc: Global, name: &str, version: &str) -> Result<String, NoMemory>
    ensures { IfOk result (λ t. string_bytes t ≡ key_text name.now version.now) }
{
    let mut key = String::from_str(alloc, name)?;
    key.push_str("@")?;
    key.push_str(version)?;
    Ok(key)
}

/// Adds the line of an implementation, without its end.
pub(crate) fn add_implementation(
    alloc: Global,
    out: &mut String,
    name: &str,
    version: &str,
    script: &str,
    styles: &str,
    messages: &[Message],
) -> Result<(), NoMemory>
    ensures text { OnOk result (string_bytes out.new ≡ string_bytes out.old
        ++ implement_text name.now version.now script.now styles.now messages.now) }
    ensures texts { OnOk result (AreTexts messages.now) }
{
    let key = key_of(alloc, name, version)?;
    out.push_str("mw.loader.implement(")?;
    add_module(alloc, out, key.as_str(), script, styles, messages)?;
    out.push_str(");")?;
    Ok(())
}

/// Adds the line of a state, without its end.
pub(crate) fn add_state(
    alloc: Global,
    out: &mut String,
    name: &str,
    word: &str,
) -> Result<(), NoMemory>
    ensures { OnOk result (string_bytes out.new ≡ string_bytes out.old ++ state_text name.now word.now) }
{
    out.push_str("mw.loader.state(")?;
    add_word(alloc, out, name, word)?;
    out.push_str(");")?;
    Ok(())
}

/// Adds the line that brings a module. After want of memory nothing is said of the text.
pub fn push_implementation(
    alloc: Global,
    out: &mut String,
    name: &str,
    version: Version,
    script: &str,
    styles: &str,
    messages: &[Message],
) -> Result<(), NoMemory>
    requires { AreAscending messages.now }
    ensures { OnOk result (string_bytes out.new ≡ string_bytes out.old
        ++ line (implement_text name.now version script.now styles.now messages.now)) }
{
    add_implementation(alloc, out, name, version.as_str(), script, styles, messages)?;
    out.push_str("\n")?;
    Ok(())
}

/// What stands between the brackets of an array.
fn inside(array: &str) -> &str
    ensures { (inner : List ℕ) → array.now ≡ 91 ∷ (inner ++ 93 ∷ []) → result.now ≡ inner }
{
    let rest = array.strip_prefix('[').unwrap_or(array);
    rest.strip_suffix(']').unwrap_or(rest)
}

/// Adds the line that brings a module, given the text that its version is the hash of, as `payload_text` makes it. So a
/// script is written as JSON once for both. After want of memory nothing is said of the text.
pub fn push_payload(
    alloc: Global,
    out: &mut String,
    name: &str,
    version: Version,
    payload: &str,
) -> Result<(), NoMemory>
    ensures { OnOk result ((script styles : List ℕ) (messages : List Message) → payload.now ≡ payload_text script styles messages
        → string_bytes out.new ≡ string_bytes out.old ++ line (implement_text name.now version script styles messages)) }
{
    let key = key_of(alloc, name, version.as_str())?;
    out.push_str("mw.loader.implement(")?;
    add_text(alloc, out, key.as_str())?;
    out.push_str(",")?;
    out.push_str(inside(payload))?;
    out.push_str(");\n")?;
    Ok(())
}

/// Adds the line that gives a name the state of this word. After want of memory nothing is said of
/// the text.
pub fn push_state(alloc: Global, out: &mut String, name: &str, word: &str) -> Result<(), NoMemory>
    ensures { OnOk result (string_bytes out.new ≡ string_bytes out.old
        ++ line (state_text name.now word.now)) }
{
    add_state(alloc, out, name, word)?;
    out.push_str("\n")?;
    Ok(())
}
