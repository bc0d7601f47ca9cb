//! One line of a script.
ghost use Rattle.std.specs.Prelude.{◌≡◌, IfOk, map, option_and_then, option_map, slice_get, [], Some};
ghost use Rattle.std.specs.Option.{option_map_or};
ghost use Rattle.serde_json.specs.View.{items_view, view};
ghost use Rattle.serde_json.specs.Find.{as_array, as_str};
ghost use Rattle.rl_names.specs.Name.{is_name};
ghost use Rattle.rl_names.specs.declared.row.Dep.TheVariants.{Named};
ghost use Rattle.rl_script_spec.specs.Grammar.{deps_in, features_line, group_in, group_numbered, impl_line, key_in, kind_named};
ghost use Rattle.rl_script_spec.specs.Grammar.{line_of, load_line, members_line, only_texts, or_null, row_line, skip_in, source_in, state_line};
ghost use Rattle.rl_script_spec.specs.Grammar.{text_if, texts_in, texts_of, using_line, version_in, word_line};

use rl_names::{Dep, Group, Key, KeyError, Name, NoMemory, Row, Seq, StateKind, Text, Version};
use rl_script_spec::{Line, Step};
use serde_json::Value;
use std::alloc::Global;

/// The text that a string is.
pub fn text_in(value: Value) -> Option<Text>
    ensures { result ≡ as_str (view value) }
{
    match value {
        Value::String(text) => Some(Text::from_string(text)),
        Value::Null | Value::Bool(_) | Value::Number(_) | Value::Array(_) | Value::Object(_) => {
            None
        }
    }
}

/// The texts of values that are all strings.
fn texts_of(alloc: Global, values: Vec<Value>) -> Result<Option<Vec<Text>>, NoMemory>
    ensures { IfOk result (λ texts. option_map (λ v. v.items) texts ≡ texts_of (map view values.items)) }
{
    let mut texts = Vec::with_capacity(alloc, values.len())?;
    for value in values {
        let Some(text) = text_in(value) else {
            return Ok(None);
        };
        texts.push(text)?;
    }
    Ok(Some(texts))
}

/// The texts of a list of strings.
pub fn texts_in(alloc: Global, value: Value) -> Result<Option<Vec<Text>>, NoMemory>
    ensures { IfOk result (λ texts. option_map (λ v. v.items) texts ≡ texts_in (view value)) }
{
    match value {
        Value::Array(values) => texts_of(alloc, values),
        Value::Null | Value::Bool(_) | Value::Number(_) | Value::String(_) | Value::Object(_) => {
            Ok(None)
        }
    }
}

// ---- rows

/// The member at a place, where there are so many.
fn member_at(members: &[Value], at: usize) -> Option<&Value>
    ensures { option_map (λ v. view v.now) result ≡ slice_get (map view members.now) at }
{
    members.get(at)
}

/// The name that a string is.
fn name_in(alloc: Global, member: Option<&Value>) -> Result<Option<Name>, NoMemory>
    ensures { IfOk result (λ name. name ≡ option_and_then (text_if is_name) (option_map (λ v. view v.now) member.entry)) }
{
    let Some(value) = member else {
        return Ok(None);
    };
    match value.as_str() {
        Some(text) if Name::is(text.as_bytes()) => Ok(Some(Name::of(alloc, text)?)),
        _ => Ok(None),
    }
}

/// The group of a number below 2^32.
fn group_numbered(number: u64) -> Option<Group>
    ensures { result ≡ group_numbered number }
{
    match number {
        0 => Some(Group::User),
        1 => Some(Group::Private),
        2..=0xFFFF_FFFF => Some(Group::Other(number as u32)),
        _ => None,
    }
}

/// The group that a member says: none where it is `null` or left out.
fn group_in(member: Option<&Value>) -> Option<Group>
    ensures { result ≡ group_in (or_null (option_map (λ v. view v.now) member.entry)) }
{
    match member {
        None | Some(Value::Null) => Some(Group::Plain),
        Some(Value::Number(number)) => group_numbered(number.as_u64()?),
        Some(Value::Bool(_) | Value::String(_) | Value::Array(_) | Value::Object(_)) => None,
    }
}

/// The version that a member says in a group: none, by `null`, in the private group alone.
fn version_in(group: Group, member: Option<&Value>) -> Option<Option<Version>>
    ensures { result ≡ option_and_then (version_in group) (option_map (λ v. view v.now) member.entry) }
{
    let value = member?;
    match group {
        Group::Private => value.as_null().map(|_| None),
        Group::Plain | Group::User | Group::Other(_) => {
            let text = value.as_str()?;
            Version::read(text.as_bytes()).map(Some)
        }
    }
}

/// The dependencies of strings, which are names.
fn deps_of(alloc: Global, values: &[Value]) -> Result<Option<Vec<Dep>>, NoMemory>
    ensures { IfOk result (λ deps. option_map (λ v. v.items) deps ≡ option_map (map Named) (texts_of (map view values.now))) }
{
    let mut deps = Vec::with_capacity(alloc, values.len())?;
    for value in values {
        let Some(name) = value.as_str() else {
            return Ok(None);
        };
        deps.push(Dep::Named(Text::of(alloc, name)?))?;
    }
    Ok(Some(deps))
}

/// The dependencies that a list of strings names: none where it is left out.
fn deps_in(alloc: Global, member: Option<&Value>) -> Result<Option<Vec<Dep>>, NoMemory>
    ensures { IfOk result (λ deps. option_map (λ v. v.items) deps ≡ option_map_or deps_in (option_map (λ v. view v.now) member.entry) (Some [])) }
{
    let Some(value) = member else {
        return Ok(Some(Vec::new(alloc)));
    };
    let Some(values) = value.as_array() else {
        return Ok(None);
    };
    deps_of(alloc, values.as_slice())
}
/// The source that a member says: the empty text where it is `null` or left out.
fn source_in(alloc: Global, member: Option<&Value>) -> Result<Option<Text>, NoMemory>
    ensures { IfOk result (λ source. source ≡ source_in (or_null (option_map (λ v. view v.now) member.entry))) }
{
    match member {
        None | Some(Value::Null) => Ok(Some(Text::of(alloc, "")?)),
        Some(Value::String(text)) => Ok(Some(Text::of(alloc, text.as_str())?)),
        Some(Value::Bool(_) | Value::Number(_) | Value::Array(_) | Value::Object(_)) => Ok(None),
    }
}

/// The skip that a member says: none where it is `null` or left out.
fn skip_in(alloc: Global, member: Option<&Value>) -> Result<Option<Option<Text>>, NoMemory>
    ensures { IfOk result (λ skip. skip ≡ skip_in (or_null (option_map (λ v. view v.now) member.entry))) }
{
    match member {
        None | Some(Value::Null) => Ok(Some(None)),
        Some(Value::String(text)) => Ok(Some(Some(Text::of(alloc, text.as_str())?))),
        Some(Value::Bool(_) | Value::Number(_) | Value::Array(_) | Value::Object(_)) => Ok(None),
    }
}

/// What the word `row` says with these members: a name, a version, and dependencies, a group, a source and a skip, of
/// which trailing ones may be left out.
fn row_line(alloc: Global, members: &[Value]) -> Result<Option<Line>, NoMemory>
    ensures { IfOk result (λ line. line ≡ row_line (map view members.now)) }
{
    if members.len() > 6 {
        return Ok(None);
    }
    let Some(name) = name_in(alloc, member_at(members, 0))? else {
        return Ok(None);
    };
    let Some(group) = group_in(member_at(members, 3)) else {
        return Ok(None);
    };
    let Some(version) = version_in(group, member_at(members, 1)) else {
        return Ok(None);
    };
    let Some(deps) = deps_in(alloc, member_at(members, 2))? else {
        return Ok(None);
    };
    let Some(source) = source_in(alloc, member_at(members, 4))? else {
        return Ok(None);
    };
    let Some(skip) = skip_in(alloc, member_at(members, 5))? else {
        return Ok(None);
    };
    let deps = Seq::of(deps);
    Ok(Some(Line::Registers(Row {
        name,
        version,
        deps,
        group,
        source,
        skip,
    })))
}

// ---- features and steps

/// The texts of a list of strings that stands alone.
pub fn only_texts(alloc: Global, members: Vec<Value>) -> Result<Option<Vec<Text>>, NoMemory>
    ensures { IfOk result (λ texts. option_map (λ v. v.items) texts ≡ only_texts (map view members.items)) }
{
    let mut members = members.into_iter();
    let (Some(names), None) = (members.next(), members.next()) else {
        return Ok(None);
    };
    texts_in(alloc, names)
}

/// What the word `features` says with these members.
fn features_line(alloc: Global, members: Vec<Value>) -> Result<Option<Line>, NoMemory>
    ensures { IfOk result (λ line. line ≡ features_line (map view members.items)) }
{
    let texts = only_texts(alloc, members)?;
    Ok(texts.map(|texts| Line::HasFeatures(Seq::of(texts))))
}

/// What the word `using` says with these members.
fn using_line(alloc: Global, members: Vec<Value>) -> Result<Option<Line>, NoMemory>
    ensures { IfOk result (λ line. line ≡ using_line (map view members.items)) }
{
    let names = only_texts(alloc, members)?.map(Seq::of);
    Ok(names.map(|names| Line::Does(Step::Using { names })))
}

/// What the word `load` says with these members.
fn load_line(alloc: Global, members: Vec<Value>) -> Result<Option<Line>, NoMemory>
    ensures { IfOk result (λ line. line ≡ load_line (map view members.items)) }
{
    let names = only_texts(alloc, members)?.map(Seq::of);
    Ok(names.map(|names| Line::Does(Step::Load { names })))
}

/// The key that a string spells.
fn key_in(alloc: Global, value: &Value) -> Result<Option<Key>, NoMemory>
    ensures { IfOk result (λ key. key ≡ key_in (view value.now)) }
{
    let Some(text) = value.as_str() else {
        return Ok(None);
    };
    match Key::split(alloc, text.as_bytes()) {
        Ok(key) => Ok(Some(key)),
        Err(KeyError::NoVersion) => Ok(None),
        Err(KeyError::BadVersion) => Ok(None),
        Err(KeyError::BadName) => Ok(None),
        Err(KeyError::NoMemory) => Err(NoMemory),
    }
}

/// What the word `impl` says with these members.
fn impl_line(alloc: Global, members: Vec<Value>) -> Result<Option<Line>, NoMemory>
    ensures { IfOk result (λ line. line ≡ impl_line (map view members.items)) }
{
    let mut members = members.into_iter();
    let (Some(key), Some(script), None) = (members.next(), members.next(), members.next()) else {
        return Ok(None);
    };
    let Some(key) = key_in(alloc, &key)? else {
        return Ok(None);
    };
    Ok(text_in(script).map(|script| Line::Does(Step::Impl { key, script })))
}

/// The kind of a word.
fn kind_named(word: &str) -> Option<StateKind>
    ensures { result ≡ kind_named word.now }
{
    if word == "missing" {
        Some(StateKind::Missing)
    } else if word == "error" {
        Some(StateKind::Error)
    } else {
        None
    }
}

/// What the word `state` says with these members.
fn state_line(alloc: Global, members: &[Value]) -> Result<Option<Line>, NoMemory>
    ensures { IfOk result (λ line. line ≡ state_line (map view members.now)) }
{
    if members.len() > 2 {
        return Ok(None);
    }
    let Some(name) = member_at(members, 0).and_then(Value::as_str) else {
        return Ok(None);
    };
    let Some(word) = member_at(members, 1).and_then(Value::as_str) else {
        return Ok(None);
    };
    let Some(kind) = kind_named(word) else {
        return Ok(None);
    };
    let name = Text::of(alloc, name)?;
    Ok(Some(Line::Does(Step::State { name, kind })))
}

/// What a word says with the other members of its line.
fn word_line(alloc: Global, word: &str, members: Vec<Value>) -> Result<Option<Line>, NoMemory>
    ensures { IfOk result (λ line. line ≡ word_line word.now (map view members.items)) }
{
    if word == "row" {
        row_line(alloc, members.as_slice())
    } else if word == "features" {
        features_line(alloc, members)
    } else if word == "using" {
        using_line(alloc, members)
    } else if word == "load" {
        load_line(alloc, members)
    } else if word == "impl" {
        impl_line(alloc, members)
    } else if word == "state" {
        state_line(alloc, members.as_slice())
    } else {
        Ok(None)
    }
}

/// What a line says by its word.
fn members_line(alloc: Global, mut members: Vec<Value>) -> Result<Option<Line>, NoMemory>
    ensures { IfOk result (λ line. line ≡ members_line (map view members.items)) }
{
    if members.is_empty() {
        return Ok(None);
    }
    let word = members.remove(0);
    match word.as_str() {
        Some(word) => word_line(alloc, word, members),
        None => Ok(None),
    }
}

/// The members of an array.
pub fn members_in(value: Value) -> Option<Vec<Value>>
    ensures { option_map (λ v. items_view v.items) result ≡ as_array (view value) }
{
    match value {
        Value::Array(members) => Some(members),
        Value::Null | Value::Bool(_) | Value::Number(_) | Value::String(_) | Value::Object(_) => {
            None
        }
    }
}

/// What a line says that is not ignored.
pub fn read_line(alloc: Global, text: &str) -> Result<Line, NoMemory>
    ensures { IfOk result (λ line. line ≡ line_of text.now) }
{
    let value = match Value::from_str(alloc, text) {
        Ok(value) => value,
        Err(error) if error.is_memory() => return Err(NoMemory),
        Err(error) => return Ok(Line::Faulty),
    };
    let Some(members) = members_in(value) else {
        return Ok(Line::Faulty);
    };
    let line = members_line(alloc, members)?;
    Ok(line.unwrap_or(Line::Faulty))
}
