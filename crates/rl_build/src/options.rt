//! The options of a viewer, as a JSON object.
ghost use Rattle.std.specs.Prelude.{◌≡◌, ◌++◌, IfOk, OnOk, string_bytes};
ghost use Rattle.serde_json.specs.Written.{compact_text};
ghost use Rattle.rl_wire.specs.Message.{messages_value};
ghost use Rattle.rl_wire.specs.Tokens.{value_tokens, Adds};
ghost use Rattle.rl_pages.specs.Seen.{options_in, shown};

use json::Writer;
use rl_names::{Message, NoMemory};
use rl_pages::{Pages, Viewer};
use std::alloc::Global;

/// The options of a viewer; nobody has none.
fn options_of(alloc: Global, pages: &Pages, viewer: &Viewer) -> Result<Vec<Message>, NoMemory>
    ensures { IfOk result (λ options. options.items ≡ options_in (shown pages.now.entries viewer.now)) }
{
    match viewer {
        Viewer::User(name) => pages.choices_of(name.as_bytes()),
        Viewer::Anon => Ok(Vec::new(alloc)),
    }
}

/// Writes options as an object.
fn write_options(json: &mut Writer, options: &[Message]) -> Result<(), NoMemory>
    ensures { Adds result json.old json.new (value_tokens (messages_value options.now)) }
{
    json.begin_object()?;
    'options: for option in options {
        json.key(option.key.as_str())?;
        json.string(option.text.as_str())?;
    }
    json.end_object()?;
    Ok(())
}

/// These options as a JSON object.
fn object_of(alloc: Global, options: &[Message]) -> Result<String, NoMemory>
    ensures { IfOk result (λ t. string_bytes t ≡ compact_text (messages_value options.now)) }
{
    let mut json = Writer::new(Vec::new(alloc));
    write_options(&mut json, options)?;
    let Ok(text) = String::from_utf8(json.into_inner()) else {
        unreachable!()
    };
    Ok(text)
}

/// The options of a viewer as a JSON object.
pub(crate) fn options_object(
    alloc: Global,
    pages: &Pages,
    viewer: &Viewer,
) -> Result<String, NoMemory>
    ensures { IfOk result (λ t. string_bytes t ≡ compact_text (messages_value (options_in (shown pages.now.entries viewer.now)))) }
{
    let options = options_of(alloc, pages, viewer)?;
    object_of(alloc, &options)
}
