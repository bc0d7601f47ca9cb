//! The text of a store.
ghost use Rattle.std.specs.Prelude.{◌≡◌, [], IfOk};
ghost use Rattle.json.specs.Print.{print};
ghost use Rattle.serde_json.specs.Data.{object};
ghost use Rattle.rl_wire.specs.Tokens.{value_tokens, Adds};
ghost use Rattle.rl_store.specs.Stock.{items_of, stock_text, AreOrdered};

use json::Writer;
use rl_book_spec::Stored;
use rl_names::{NoMemory, Text};
use rl_wire::write_part;
use std::alloc::Global;

/// Writes the lines of parts under their key texts, as an object.
fn write_items(alloc: Global, json: &mut Writer, pairs: &[Stored]) -> Result<(), NoMemory>
    requires { AreOrdered pairs.now }
    ensures { Adds result json.old json.new (value_tokens (object (items_of pairs.now))) }
{
    json.begin_object()?;
    'pairs: for stored in pairs {
        let key = stored.key.write()?;
        let line = write_part(alloc, &stored.part)?;
        json.key(key.as_str())?;
        json.string(line.as_str())?;
    }
    json.end_object()?;
    Ok(())
}

/// What was written from nothing, as a text.
fn text_of(json: Writer) -> Text
    requires { json.before ≡ [] }
    ensures { result ≡ print json.tokens }
{
    // SAFETY: what the writer wrote is UTF-8.
    Text::from_string(unsafe { String::from_utf8_unchecked(json.into_inner()) })
}

/// The text of a store.
pub(crate) fn write(
    alloc: Global,
    as_of: u64,
    pairs: &[Stored],
    vary: &str,
) -> Result<Text, NoMemory>
    requires { AreOrdered pairs.now }
    ensures { IfOk result (λ text. text ≡ stock_text (record { vary = vary.now; as_of = as_of; pairs = pairs.now })) }
{
    let mut json = Writer::new(Vec::new(alloc));
    json.begin_object()?;
    json.key("asOf")?;
    json.u64(as_of)?;
    json.key("items")?;
    write_items(alloc, &mut json, pairs)?;
    json.key("vary")?;
    json.string(vary)?;
    json.end_object()?;
    Ok(text_of(json))
}
