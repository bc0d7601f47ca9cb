//! Reading the second line of a startup text.
ghost use Rattle.std.specs.Prelude.{◌≡◌, IfOk, IfSome, drop, map, option_map, unwrap_or, [], IsTrue};
ghost use Rattle.std.specs.List.{filter_map};
ghost use Rattle.std.specs.Vec.Iter.{into_iter_items};
ghost use Rattle.serde_json.specs.Find.{as_array, as_str};
ghost use Rattle.serde_json.specs.View.{view};
ghost use Rattle.rl_wire.specs.Arguments.{listed};
ghost use Rattle.rl_wire.specs.Startup.{is_writable, AreWritable};
ghost use Rattle.rl_wire.specs.StartupReading.{number_in, name_in, version_in, dep_in, deps_in, group_in, next_field, if_writable, row_of, row_in, if_rows};
ghost use Rattle.rl_wire.specs.StartupReading.{rows_in};

use crate::read::{argument_in, text_in};
use crate::rows::add_rows;
use crate::startup::is_writable;
use rl_names::{Dep, Group, Name, NoMemory, Row, Seq, Text, Version};
use serde_json::Value;
use std::alloc::Global;
use std::vec::IntoIter;

/// The values of an array.
fn array_in(value: Value) -> Option<Vec<Value>>
    ensures { option_map (λ v. map view v.items) result ≡ option_map listed (as_array (view value)) }
{
    match value {
        Value::Array(values) => Some(values),
        Value::Null | Value::Bool(_) | Value::Number(_) | Value::String(_) | Value::Object(_) => {
            None
        }
    }
}

/// A number below 2^32.
fn number_in(value: &Value) -> Option<u32>
    ensures { result ≡ number_in (view value.now) }
{
    u32::try_from(value.as_u64()?).ok()
}

/// A dependency: the number of a row, or a name.
fn dep_in(value: Value) -> Option<Dep>
    ensures { result ≡ dep_in (view value) }
{
    match number_in(&value) {
        Some(row) => Some(Dep::At(row)),
        None => match text_in(value) {
            Some(name) => Some(Dep::Named(name)),
            None => None,
        },
    }
}

/// The dependencies of an array.
fn deps_in(alloc: Global, value: Value) -> Result<Vec<Dep>, NoMemory>
    ensures { IfOk result (λ v. v.items ≡ deps_in (view value)) }
{
    let mut deps = Vec::new(alloc);
    let Some(values) = array_in(value) else {
        return Ok(deps);
    };
    'values: for value in values {
        if let Some(dep) = dep_in(value) {
            deps.push(dep)?;
        }
    }
    Ok(deps)
}

/// The name that a string is.
fn name_in(value: Value) -> Option<Name>
    ensures { result ≡ name_in (view value) }
{
    let text = text_in(value)?;
    if Name::is(text.as_bytes()) {
        Some(Name::from_text(text))
    } else {
        None
    }
}

/// The version that a string is.
fn version_in(value: &Value) -> Option<Version>
    ensures { result ≡ version_in (view value.now) }
{
    Version::read(value.as_str()?.as_bytes())
}

/// The group of a number; where none stands, it is the plain one.
fn group_in(value: &Value) -> Group
    ensures { result ≡ group_in (view value.now) }
{
    match number_in(value) {
        None => Group::Plain,
        Some(0) => Group::User,
        Some(1) => Group::Private,
        Some(number) => Group::Other(number),
    }
}

/// The field that stands first; one that is left out is blank.
fn next_field(fields: &mut IntoIter<Value>) -> Value
    ensures value { view result ≡ next_field (map view (into_iter_items fields.old)) }
    ensures rest { map view (into_iter_items fields.new) ≡ drop 1 (map view (into_iter_items fields.old)) }
{
    match fields.next() {
        Some(value) => value,
        None => Value::Null,
    }
}

/// The text that a string is; of any other value, the empty text.
fn source_in(alloc: Global, value: Value) -> Text
    ensures { result ≡ unwrap_or (as_str (view value)) [] }
{
    match text_in(value) {
        Some(text) => text,
        None => Text::from_string(String::new(alloc)),
    }
}

/// The row, where it may be written.
fn if_writable(row: Row) -> Option<Row>
    ensures value { result ≡ if_writable row }
    ensures writable { IfSome result (λ r. IsTrue (is_writable r)) }
{
    if is_writable(&row) { Some(row) } else { None }
}

/// The row of these fields.
fn row_of(alloc: Global, fields: Vec<Value>) -> Result<Option<Row>, NoMemory>
    ensures value { IfOk result (λ row. row ≡ row_of (map view fields.items)) }
    ensures writable { IfOk result (λ row. IfSome row (λ r. IsTrue (is_writable r))) }
{
    let mut fields = fields.into_iter();
    let Some(name) = name_in(next_field(&mut fields)) else {
        return Ok(None);
    };
    let version = version_in(&next_field(&mut fields));
    let deps = deps_in(alloc, next_field(&mut fields))?;
    let group = group_in(&next_field(&mut fields));
    let source = source_in(alloc, next_field(&mut fields));
    let skip = text_in(next_field(&mut fields));
    Ok(if_writable(Row {
        name,
        version,
        deps: Seq::of(deps),
        group,
        source,
        skip,
    }))
}

/// The row of an array.
fn row_in(alloc: Global, value: Value) -> Result<Option<Row>, NoMemory>
    ensures value { IfOk result (λ row. row ≡ row_in (view value)) }
    ensures writable { IfOk result (λ row. IfSome row (λ r. IsTrue (is_writable r))) }
{
    match array_in(value) {
        Some(fields) => row_of(alloc, fields),
        None => Ok(None),
    }
}

/// The rows among values.
fn rows_among(alloc: Global, values: Vec<Value>) -> Result<Vec<Row>, NoMemory>
    ensures value { IfOk result (λ v. v.items ≡ filter_map row_in (map view values.items)) }
    ensures writable { IfOk result (λ v. AreWritable v.items) }
{
    let mut rows = Vec::with_capacity(alloc, values.len())?;
    'values: for value in values {
        if let Some(row) = row_in(alloc, value)? {
            rows.push(row)?;
        }
    }
    Ok(rows)
}

/// The rows, where the bytes are their line, without its end.
fn if_rows(alloc: Global, line: &[u8], rows: Vec<Row>) -> Result<Option<Vec<Row>>, NoMemory>
    ensures value { IfOk result (λ found. option_map (λ v. v.items) found ≡ if_rows line.now rows.items) }
    ensures found { IfOk result (λ found. IfSome found (λ v. v.items ≡ rows.items)) }
{
    let mut text = String::new(alloc);
    text.reserve(line.len())?;
    add_rows(alloc, &mut text, &rows)?;
    if text.as_bytes() == line {
        Ok(Some(rows))
    } else {
        Ok(None)
    }
}

/// The rows whose line the bytes are, without its end.
pub(crate) fn rows_in(alloc: Global, line: &[u8]) -> Result<Option<Vec<Row>>, NoMemory>
    ensures value { IfOk result (λ rows. option_map (λ v. v.items) rows ≡ rows_in line.now) }
    ensures writable { IfOk result (λ rows. IfSome rows (λ v. AreWritable v.items)) }
{
    let Some(argument) = argument_in(alloc, line, 19)? else {
        return Ok(None);
    };
    let Some(values) = array_in(argument) else {
        return Ok(None);
    };
    let rows = rows_among(alloc, values)?;
    if_rows(alloc, line, rows)
}
