//! What the values of a TOML table are read as. Their texts move out of them.
ghost use Rattle.std.specs.Prelude.{◌≡◌, ◌≤◌, IfErr, IfOk, IfSome, None, Some};
ghost use Rattle.toml.specs.Data.{as_str};
ghost use Rattle.toml.specs.View.{view, table_view};
ghost use Rattle.rl_defs.specs.Reading as spec;
ghost use Rattle.rl_defs.specs.Refusal.{refusal_told, NotToml};

use crate::error::CatalogError;
use rl_names::{NoMemory, Seq, Text};
use std::alloc::Global;
use toml::{Table, Value};

/// The TOML document that the bytes are.
pub(crate) fn document(alloc: Global, bytes: &[u8]) -> Result<Table, CatalogError>
    ensures ok { IfOk result (λ table. spec.document bytes.now ≡ Some (table_view table)) }
    ensures refused { IfErr result (λ e. IfSome (refusal_told e) (λ refusal.
        (refusal ≡ NotToml) × (spec.document bytes.now ≡ None))) }
{
    match toml::table_from_slice(alloc, bytes) {
        Ok(table) => Ok(table),
        Err(error) if error.is_memory() => Err(CatalogError::NoMemory),
        Err(_) => Err(CatalogError::NotToml),
    }
}

/// The whole number that a value is, in a range.
pub(crate) fn number_of(value: &Value, least: u32, most: u32) -> Option<u32>
    ensures value { result ≡ spec.number_of least most (view value.now) }
    ensures range { IfSome result (λ n. (least ≤ n) × (n ≤ most)) }
{
    let Value::Integer(n) = value else {
        return None;
    };
    let n = u32::try_from(*n).ok()?;
    (least <= n && n <= most).then_some(n)
}

/// The text that a value is.
pub(crate) fn text_of(value: Value) -> Option<Text>
    ensures { result ≡ as_str (view value) }
{
    match value {
        Value::String(string) => Some(Text::from_string(string)),
        _ => None,
    }
}

/// Whether a text may be a feature: 1 to 100 bytes.
fn is_feature(text: &str) -> bool
    ensures { result ≡ spec.is_feature text.now }
{
    (1..=100).contains(&text.len())
}

/// The feature that a value is.
pub(crate) fn feature_of(value: Value) -> Option<Text>
    ensures { result ≡ spec.feature_of (view value) }
{
    let text = text_of(value)?;
    is_feature(text.as_str()).then_some(text)
}

/// The texts of a list of texts. None where a value is no such list.
pub(crate) fn texts_of(alloc: Global, value: Value) -> Result<Option<Seq<Text>>, NoMemory>
    ensures { IfOk result (λ texts. texts ≡ spec.texts_of (view value)) }
{
    let Value::Array(array) = value else {
        return Ok(None);
    };
    let mut texts = Vec::with_capacity(alloc, array.len())?;
    'items: for item in array {
        let Some(text) = text_of(item) else {
            return Ok(None);
        };
        texts.push(text)?;
    }
    Ok(Some(Seq::of(texts)))
}
