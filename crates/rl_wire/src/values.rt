//! JSON values behind what a text holds.
ghost use Rattle.std.specs.Prelude.{◌≡◌, [], ◌∷◌, ◌++◌, OnOk, string_bytes};
ghost use Rattle.std.specs.Str.{IsUtf8};
ghost use Rattle.json.specs.Print.{print};
ghost use Rattle.serde_json.specs.Data.{string};
ghost use Rattle.rl_wire.specs.Message.{messages_value};
ghost use Rattle.rl_wire.specs.Payload.{styles_value, payload_values};
ghost use Rattle.rl_wire.specs.Line.{arguments_text, state_arguments, AreTexts};
ghost use Rattle.rl_wire.specs.Tokens.{value_tokens, values_tokens, Adds};

use json::Writer;
use rl_names::{Message, NoMemory};
use std::alloc::Global;
use std::mem;

/// A writer behind what the text holds, which is empty from then on.
pub(crate) fn take_out(alloc: Global, out: &mut String) -> Writer
    ensures before { result.before ≡ string_bytes out.old }
    ensures tokens { result.tokens ≡ [] }
    ensures utf8 { IsUtf8 result.before }
{
    let held = mem::replace(out, String::new(alloc));
    Writer::new(held.into_bytes())
}

/// What was written, as a text.
pub(crate) fn text_of(json: Writer) -> String
    requires { IsUtf8 json.before }
    ensures { string_bytes result ≡ json.before ++ print json.tokens }
{
    // SAFETY: what stood before is UTF-8, and so is what the writer wrote.
    unsafe { String::from_utf8_unchecked(json.into_inner()) }
}

/// Writes the messages as an object.
fn write_messages(json: &mut Writer, messages: &[Message]) -> Result<(), NoMemory>
    ensures adds { Adds result json.old json.new (value_tokens (messages_value messages.now)) }
    ensures texts { OnOk result (AreTexts messages.now) }
{
    json.begin_object()?;
    'messages: for message in messages {
        json.key(message.key.as_str())?;
        json.string(message.text.as_str())?;
    }
    json.end_object()?;
    Ok(())
}

/// Writes the styles as an object, which is empty where there are none.
fn write_styles(json: &mut Writer, styles: &str) -> Result<(), NoMemory>
    ensures { Adds result json.old json.new (value_tokens (styles_value styles.now)) }
{
    json.begin_object()?;
    if !styles.is_empty() {
        json.key("css")?;
        json.begin_array()?;
        json.string(styles)?;
        json.end_array()?;
    }
    json.end_object()?;
    Ok(())
}

/// Writes what a module brings.
pub(crate) fn write_payload(
    json: &mut Writer,
    script: &str,
    styles: &str,
    messages: &[Message],
) -> Result<(), NoMemory>
    ensures adds { Adds result json.old json.new
        (values_tokens (payload_values script.now styles.now messages.now)) }
    ensures texts { OnOk result (AreTexts messages.now) }
{
    json.string(script)?;
    write_styles(json, styles)?;
    write_messages(json, messages)
}

/// Adds a text as a JSON string.
pub(crate) fn add_text(alloc: Global, out: &mut String, text: &str) -> Result<(), NoMemory>
    ensures { OnOk result (string_bytes out.new ≡ string_bytes out.old ++ arguments_text (string text.now ∷ [])) }
{
    let mut json = take_out(alloc, out);
    json.string(text)?;
    *out = text_of(json);
    Ok(())
}

/// Adds the key of a module and what the module brings, with commas between them.
pub(crate) fn add_module(
    alloc: Global,
    out: &mut String,
    key: &str,
    script: &str,
    styles: &str,
    messages: &[Message],
) -> Result<(), NoMemory>
    ensures text { OnOk result (string_bytes out.new ≡ string_bytes out.old
        ++ arguments_text (string key.now ∷ payload_values script.now styles.now messages.now)) }
    ensures texts { OnOk result (AreTexts messages.now) }
{
    let mut json = take_out(alloc, out);
    json.string(key)?;
    write_payload(&mut json, script, styles, messages)?;
    *out = text_of(json);
    Ok(())
}

/// Adds an object that says this word of a name.
pub(crate) fn add_word(
    alloc: Global,
    out: &mut String,
    name: &str,
    word: &str,
) -> Result<(), NoMemory>
    ensures { OnOk result (string_bytes out.new ≡ string_bytes out.old
        ++ arguments_text (state_arguments name.now word.now)) }
{
    let mut json = take_out(alloc, out);
    json.begin_object()?;
    json.key(name)?;
    json.string(word)?;
    json.end_object()?;
    *out = text_of(json);
    Ok(())
}
