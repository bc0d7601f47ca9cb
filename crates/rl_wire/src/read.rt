//! Reading answers: each line is read as the part whose line it is.
ghost use Rattle.std.specs.Prelude.{◌≡◌, ◌≢◌, ◌+◌, ◌≤◌, ◌<◌, [], ◌∷◌, ◌++◌, ℕ, map, length, take, drop, position, OnOk};
ghost use Rattle.std.specs.Prelude.{IfNone, IfOk, IfErr, IfSome, option_map, option_and_then, Some, None, Ok, Err, if◌then◌else◌};
ghost use Rattle.std.specs.List.{starts_with};
ghost use Rattle.serde_json.specs.Data.{object};
ghost use Rattle.serde_json.specs.View.{view, members_view};
ghost use Rattle.serde_json.specs.Find.{as_str, as_object};
ghost use Rattle.rl_wire.specs.Line.{part_text, wire_text, IsPart, IsInOrder, AreInOrder};
ghost use Rattle.rl_wire.specs.Message.{AreAscending};
ghost use Rattle.rl_names.specs.Meant.{ButForMemory};
ghost use Rattle.rl_wire.specs.Arguments.{list_in, arguments_in, first, is_line_end, line_told, TellsLine};
ghost use Rattle.rl_wire.specs.Reading.{key_in, styles_in, messages_among, implementation_by, implementation_in, kind_named, state_by, state_in, candidate};
ghost use Rattle.rl_wire.specs.Reading.{part_in, answer_of, LinesSayParts, AnswersSayParts};

use crate::error::WireError;
use crate::part::{Part, add_part};
use rl_names::{Key, KeyError, Message, NoMemory, Seq, StateKind, Text};
use serde_json::{Map, Value};
use std::alloc::Global;

const IMPLEMENT: &[u8; 20] = b"mw.loader.implement(";

/// The members of the JSON array that a text is.
fn list_in(alloc: Global, text: &[u8]) -> Result<Option<Vec<Value>>, NoMemory>
    ensures { IfOk result (λ list. option_map (λ v. map view v.items) list ≡ list_in text.now) }
{
    let value = match Value::from_slice(alloc, text) {
        Ok(value) => value,
        Err(error) if error.is_memory() => return Err(NoMemory),
        Err(_) => return Ok(None),
    };
    match value {
        Value::Array(values) => Ok(Some(values)),
        Value::Null | Value::Bool(_) | Value::Number(_) | Value::String(_) | Value::Object(_) => {
            Ok(None)
        }
    }
}

/// A text between brackets.
fn bracketed(alloc: Global, text: &[u8]) -> Result<Vec<u8>, NoMemory>
    ensures { IfOk result (λ v. v.items ≡ 91 ∷ (text.now ++ 93 ∷ [])) }
{
    let mut json = Vec::with_capacity(alloc, text.len().saturating_add(2))?;
    json.push(b'[')?;
    json.extend_from_slice(text)?;
    json.push(b']')?;
    Ok(json)
}

/// The arguments of a call, which stand behind so many bytes.
fn arguments_in(alloc: Global, line: &[u8], front: usize) -> Result<Option<Vec<Value>>, NoMemory>
    requires { front ≤ 20 }
    ensures { IfOk result (λ list. option_map (λ v. map view v.items) list ≡ arguments_in front line.now) }
{
    if line.len() < front + 2 {
        return Ok(None);
    }
    let json = bracketed(alloc, &line[front..line.len() - 2])?;
    list_in(alloc, &json)
}

/// The first argument of a call, which stands behind so many bytes.
pub(crate) fn argument_in(
    alloc: Global,
    line: &[u8],
    front: usize,
) -> Result<Option<Value>, NoMemory>
    requires { front ≤ 20 }
    ensures { IfOk result (λ value. option_map view value ≡ option_and_then first (arguments_in front line.now)) }
{
    match arguments_in(alloc, line, front)? {
        Some(arguments) => Ok(arguments.into_iter().next()),
        None => Ok(None),
    }
}

/// The text that a string is.
pub(crate) fn text_in(value: Value) -> Option<Text>
    ensures { result ≡ as_str (view value) }
{
    match value {
        Value::String(text) => Some(Text::from_string(text)),
        Value::Null | Value::Bool(_) | Value::Number(_) | Value::Array(_) | Value::Object(_) => {
            None
        }
    }
}

/// The key that a string spells.
fn key_in(alloc: Global, value: &Value) -> Result<Option<Key>, NoMemory>
    ensures { IfOk result (λ key. key ≡ key_in (view value.now)) }
{
    let Some(text) = value.as_str() else {
        return Ok(None);
    };
    match Key::split(alloc, text.as_bytes()) {
        Ok(key) => Ok(Some(key)),
        Err(KeyError::NoVersion) => Ok(None),
        Err(KeyError::BadVersion) => Ok(None),
        Err(KeyError::BadName) => Ok(None),
        Err(KeyError::NoMemory) => Err(NoMemory),
    }
}

/// The text under `css`.
fn styles_in(alloc: Global, value: &Value) -> Result<Option<Text>, NoMemory>
    ensures { IfOk result (λ text. text ≡ styles_in (view value.now)) }
{
    let Some(list) = value.get("css") else {
        return Ok(Some(Text::of(alloc, "")?));
    };
    let Some(first) = list.get(0usize) else {
        return Ok(None);
    };
    match first.as_str() {
        Some(text) => Ok(Some(Text::of(alloc, text)?)),
        None => Ok(None),
    }
}

/// The texts of an object, under their keys.
fn messages_in(alloc: Global, members: Map<String, Value>) -> Result<Vec<Message>, NoMemory>
    ensures value { IfOk result (λ v. v.items ≡ messages_among (members_view members.entries)) }
    ensures ascending { IfOk result (λ v. AreAscending v.items) }
{
    let mut messages = Vec::with_capacity(alloc, members.len())?;
    'members: for (key, value) in members {
        if let Some(text) = text_in(value) {
            messages.push(Message {
                key: Text::from_string(key),
                text,
            })?;
        }
    }
    Ok(messages)
}

/// The object that a value is.
pub(crate) fn object_in(value: Value) -> Option<Map<String, Value>>
    ensures { option_map (λ m. members_view m.entries) result ≡ as_object (view value) }
{
    match value {
        Value::Object(members) => Some(members),
        Value::Null | Value::Bool(_) | Value::Number(_) | Value::String(_) | Value::Array(_) => {
            None
        }
    }
}

/// The module of these arguments.
fn implementation_by(
    alloc: Global,
    key: &Value,
    script: Value,
    styles: &Value,
    messages: Value,
) -> Result<Option<Part>, NoMemory>
    ensures value { IfOk result (λ part. part ≡ implementation_by (view key.now) (view script) (view styles.now) (view messages)) }
    ensures in_order { IfOk result (λ part. IfSome part IsInOrder) }
{
    let Some(Key { name, version }) = key_in(alloc, key)? else {
        return Ok(None);
    };
    let Some(script) = text_in(script) else {
        return Ok(None);
    };
    let Some(styles) = styles_in(alloc, styles)? else {
        return Ok(None);
    };
    let Some(members) = object_in(messages) else {
        return Ok(None);
    };
    let messages = messages_in(alloc, members)?;
    Ok(Some(Part::Impl {
        name,
        version,
        script,
        styles,
        messages: Seq::of(messages),
    }))
}

fn implementation_in(alloc: Global, arguments: Vec<Value>) -> Result<Option<Part>, NoMemory>
    ensures value { IfOk result (λ part. part ≡ implementation_in (map view arguments.items)) }
    ensures in_order { IfOk result (λ part. IfSome part IsInOrder) }
{
    let mut arguments = arguments.into_iter();
    let (Some(key), Some(script), Some(styles), Some(messages), None) = (
        arguments.next(),
        arguments.next(),
        arguments.next(),
        arguments.next(),
        arguments.next(),
    ) else {
        return Ok(None);
    };
    implementation_by(alloc, &key, script, &styles, messages)
}

fn kind_named(word: &str) -> Option<StateKind>
    ensures { result ≡ kind_named word.now }
{
    if word == "missing" {
        Some(StateKind::Missing)
    } else if word == "error" {
        Some(StateKind::Error)
    } else {
        None
    }
}

/// The state that the first member of an object gives.
fn state_by(mut members: Map<String, Value>) -> Option<Part>
    ensures { result ≡ state_by (members_view members.entries) }
{
    let (name, value) = members.pop_first()?;
    let kind = kind_named(value.as_str()?)?;
    Some(Part::State {
        name: Text::from_string(name),
        kind,
    })
}

fn state_in(arguments: Vec<Value>) -> Option<Part>
    ensures value { result ≡ state_in (map view arguments.items) }
    ensures in_order { IfSome result IsInOrder }
{
    let mut arguments = arguments.into_iter();
    let (Some(state), None) = (arguments.next(), arguments.next()) else {
        return None;
    };
    state_by(object_in(state)?)
}

/// The part that a line may be the line of.
fn candidate(alloc: Global, line: &[u8]) -> Result<Option<Part>, NoMemory>
    ensures value { IfOk result (λ part. part ≡ candidate line.now) }
    ensures in_order { IfOk result (λ part. IfSome part IsInOrder) }
{
    if line.starts_with(IMPLEMENT) {
        match arguments_in(alloc, line, 20)? {
            Some(arguments) => implementation_in(alloc, arguments),
            None => Ok(None),
        }
    } else {
        match arguments_in(alloc, line, 16)? {
            Some(arguments) => Ok(state_in(arguments)),
            None => Ok(None),
        }
    }
}

/// The part whose line the bytes are, without its end; none exactly where they are no part's line.
pub fn read_part(alloc: Global, line: &[u8]) -> Result<Option<Part>, NoMemory>
    ensures value { IfOk result (λ part. part ≡ part_in line.now) }

    // What is read is a part, and the bytes are its line.
    ensures part { IfOk result (λ part. IfSome part IsPart) }
    ensures in_order { IfOk result (λ part. IfSome part IsInOrder) }
    ensures written { IfOk result (λ part. IfSome part (λ p. part_text p ≡ line.now)) }

    // Where nothing is read, the bytes are the line of no part.
    ensures none { IfOk result (λ part. IfNone part ((p : Part) → IsPart p → part_text p ≢ line.now)) }
{
    let Some(part) = candidate(alloc, line)? else {
        return Ok(None);
    };
    let mut text = String::new(alloc);
    text.reserve(line.len())?;
    add_part(alloc, &mut text, &part)?;
    if text.as_bytes() == line {
        Ok(Some(part))
    } else {
        Ok(None)
    }
}

/// The line of each part says that part, and no other text says it. An answer says its parts, no
/// other text says them, and of any other text the first bad line is told. So each text has one value.
pub fn reading_laws()
    ensures lines { LinesSayParts }
    ensures answers { AnswersSayParts }
{}

/// The place of the first line end.
fn line_end(bytes: &[u8]) -> Option<usize>
    ensures value { result ≡ position is_line_end bytes.now }
    ensures within { IfSome result (λ at. at < length bytes.now) }
{
    bytes.iter().position(|b| *b == b'\n')
}

/// The first line, without its end, and what stands behind it.
pub(crate) fn cut_line(bytes: &[u8]) -> Option<(&[u8], &[u8])>
    ensures none { IfNone result (position is_line_end bytes.now ≡ None) }
    ensures some { IfSome result (λ p. (at : ℕ) × (position is_line_end bytes.now ≡ Some at)
        × (p.0.now ≡ take at bytes.now) × (p.1.now ≡ drop (at + 1) bytes.now)) }
    ensures shorter { IfSome result (λ p. length p.1.now < length bytes.now) }
{
    match line_end(bytes) {
        Some(at) => {
            let (line, rest) = bytes.split_at(at);
            Some((line, &rest[1..]))
        }
        None => None,
    }
}

fn push(parts: &mut Vec<Part>, part: Part) -> Result<(), NoMemory>
    ensures { OnOk result (parts.new.items ≡ parts.old.items ++ part ∷ []) }
{
    parts.push(part)?;
    Ok(())
}

/// The parts of an answer, or the first line that is no part's line with its end.
pub fn read_answer(alloc: Global, bytes: &[u8]) -> Result<Vec<Part>, WireError>
    ensures answer { ButForMemory line_told (λ v. answer_of bytes.now ≡ Ok v.items) (TellsLine (answer_of bytes.now)) result }

    // The bytes are the text of what is read, whose messages are in order.
    ensures written { IfOk result (λ v. wire_text v.items ≡ bytes.now) }
    ensures in_order { IfOk result (λ v. AreInOrder v.items) }
{
    let mut parts = Vec::new(alloc);
    let mut rest = bytes;
    let mut number: u32 = 0;
    'lines: while !rest.is_empty() {
        number = number.saturating_add(1);
        let Some((line, more)) = cut_line(rest) else {
            return Err(WireError::BadLine { line: number });
        };
        let Some(part) = read_part(alloc, line)? else {
            return Err(WireError::BadLine { line: number });
        };
        push(&mut parts, part)?;
        rest = more;
    }
    Ok(parts)
}
