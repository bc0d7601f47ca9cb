//! The text that a module's version is the hash of.
ghost use Rattle.std.specs.Prelude.{◌≡◌, IfOk, Some};
ghost use Rattle.serde_json.specs.Read.{read};
ghost use Rattle.rl_wire.specs.Message.{AreAscending};
ghost use Rattle.rl_wire.specs.Payload.{payload_text as payload_text_of, payload_values, array_of};

use crate::values::{text_of, write_payload};
use json::Writer;
use rl_names::{Message, NoMemory, Text};
use std::alloc::Global;

/// What a module brings as one JSON array: its script, its styles and its messages.
pub fn payload_text(
    alloc: Global,
    script: &str,
    styles: &str,
    messages: &[Message],
) -> Result<Text, NoMemory>
    requires { AreAscending messages.now }
    ensures text { IfOk result (λ t. t ≡ payload_text_of script.now styles.now messages.now) }

    // So two modules with one such text bring the same.
    ensures reads_back { IfOk result (λ t. read t
        ≡ Some (array_of (payload_values script.now styles.now messages.now))) }
{
    let mut json = Writer::new(Vec::with_capacity(alloc, script.len())?);
    json.begin_array()?;
    write_payload(&mut json, script, styles, messages)?;
    json.end_array()?;
    Ok(Text::from_string(text_of(json)))
}
