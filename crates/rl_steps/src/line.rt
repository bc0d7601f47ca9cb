//! One line of a script of steps.
ghost use Rattle.std.specs.Prelude.{◌≡◌, IfOk, map, option_and_then, option_map};
ghost use Rattle.serde_json.specs.View.{view};
ghost use Rattle.rl_steps.specs.Grammar.{user_of, user_in, whole_in, number_in, moment_in, edit_step, choice_step, clock_step, view_step};
ghost use Rattle.rl_steps.specs.Grammar.{using_step, load_step, bare_step, only_number, serve_step, deliver_step, lose_step, embed_step};
ghost use Rattle.rl_steps.specs.Grammar.{wiki_step, answer_step, word_step, members_step, step_of};

use crate::step::{CLOCK_END, Step};
use rl_names::{NoMemory, Seq, Text, UserName, UserNameError};
use rl_script::{members_in, only_texts, text_in, texts_in};
use serde_json::Value;
use std::alloc::Global;

// ---- members

/// The user that a text names: nobody where it is empty.
fn user_of(alloc: Global, text: Text) -> Result<Option<Text>, NoMemory>
    ensures { IfOk result (λ user. user ≡ user_of text) }
{
    if text.is_empty() {
        return Ok(Some(text));
    }
    match UserName::read(alloc, text.as_bytes()) {
        Ok(name) => Ok(Some(Text::from_string(name.into_string()))),
        Err(UserNameError::BadUserName) => Ok(None),
        Err(UserNameError::NoMemory) => Err(NoMemory),
    }
}

/// The user that a string names.
fn user_in(alloc: Global, member: Value) -> Result<Option<Text>, NoMemory>
    ensures { IfOk result (λ user. user ≡ user_in (view member)) }
{
    match text_in(member) {
        Some(text) => user_of(alloc, text),
        None => Ok(None),
    }
}

/// The whole number that a member is.
fn whole_in(member: &Value) -> Option<u64>
    ensures { result ≡ whole_in (view member.now) }
{
    member.as_u64()
}

/// The number of an ask or of an answer.
fn number_in(member: &Value) -> Option<u32>
    ensures { result ≡ number_in (view member.now) }
{
    match whole_in(member)? {
        number @ 0..=0xFFFF_FFFF => Some(number as u32),
        _ => None,
    }
}

/// The moment that a number is.
fn moment_in(member: &Value) -> Option<u64>
    ensures { result ≡ moment_in (view member.now) }
{
    let number = whole_in(member)?;
    if number < CLOCK_END {
        Some(number)
    } else {
        None
    }
}

// ---- steps by their words

/// What the word `edit` says with these members.
fn edit_step(alloc: Global, members: Vec<Value>) -> Result<Option<Step>, NoMemory>
    ensures { IfOk result (λ step. step ≡ edit_step (map view members.items)) }
{
    let mut members = members.into_iter();
    let (Some(by), Some(title), Some(base), Some(text), None) = (
        members.next(),
        members.next(),
        members.next(),
        members.next(),
        members.next(),
    ) else {
        return Ok(None);
    };
    let Some(by) = user_in(alloc, by)? else {
        return Ok(None);
    };
    let (Some(title), Some(base), Some(text)) = (text_in(title), whole_in(&base), text_in(text))
    else {
        return Ok(None);
    };
    Ok(Some(Step::Edit {
        by,
        title,
        base,
        text,
    }))
}

/// What the word `option` says with these members.
fn choice_step(alloc: Global, members: Vec<Value>) -> Result<Option<Step>, NoMemory>
    ensures { IfOk result (λ step. step ≡ choice_step (map view members.items)) }
{
    let mut members = members.into_iter();
    let (Some(user), Some(key)) = (members.next(), members.next()) else {
        return Ok(None);
    };
    let (Some(value), None) = (members.next(), members.next()) else {
        return Ok(None);
    };
    let Some(user) = user_in(alloc, user)? else {
        return Ok(None);
    };
    let (Some(key), Some(value)) = (text_in(key), text_in(value)) else {
        return Ok(None);
    };
    Ok(Some(Step::Choice { user, key, value }))
}

/// What the word `clock` says with these members.
fn clock_step(members: &[Value]) -> Option<Step>
    ensures { result ≡ clock_step (map view members.now) }
{
    match members {
        [now] => moment_in(now).map(|now| Step::Clock { now }),
        _ => None,
    }
}

/// What the word `view` says with these members.
fn view_step(alloc: Global, members: Vec<Value>) -> Result<Option<Step>, NoMemory>
    ensures { IfOk result (λ step. step ≡ view_step (map view members.items)) }
{
    let mut members = members.into_iter();
    let (Some(user), Some(lang)) = (members.next(), members.next()) else {
        return Ok(None);
    };
    let (Some(skin), Some(debug)) = (members.next(), members.next()) else {
        return Ok(None);
    };
    let (Some(features), None) = (members.next(), members.next()) else {
        return Ok(None);
    };
    let Some(user) = user_in(alloc, user)? else {
        return Ok(None);
    };
    let (Some(lang), Some(skin), Some(debug)) = (text_in(lang), text_in(skin), debug.as_bool())
    else {
        return Ok(None);
    };
    let Some(features) = texts_in(alloc, features)? else {
        return Ok(None);
    };
    let features = Seq::of(features);
    Ok(Some(Step::View {
        user,
        lang,
        skin,
        debug,
        features,
    }))
}

/// What the word `using` says with these members.
fn using_step(alloc: Global, members: Vec<Value>) -> Result<Option<Step>, NoMemory>
    ensures { IfOk result (λ step. step ≡ using_step (map view members.items)) }
{
    let names = only_texts(alloc, members)?.map(Seq::of);
    Ok(names.map(|names| Step::Using { names }))
}

/// What the word `load` says with these members.
fn load_step(alloc: Global, members: Vec<Value>) -> Result<Option<Step>, NoMemory>
    ensures { IfOk result (λ step. step ≡ load_step (map view members.items)) }
{
    let names = only_texts(alloc, members)?.map(Seq::of);
    Ok(names.map(|names| Step::Load { names }))
}

/// A step that is its word alone.
fn bare_step(step: Step, members: &[Value]) -> Option<Step>
    ensures { result ≡ bare_step step (map view members.now) }
{
    if members.is_empty() { Some(step) } else { None }
}

/// The number that stands alone.
fn only_number(members: &[Value]) -> Option<u32>
    ensures { result ≡ only_number (map view members.now) }
{
    match members {
        [number] => number_in(number),
        _ => None,
    }
}

/// What the word `embed` says with these members.
fn embed_step(members: Vec<Value>) -> Option<Step>
    ensures { result ≡ embed_step (map view members.items) }
{
    let mut members = members.into_iter();
    let (Some(text), None) = (members.next(), members.next()) else {
        return None;
    };
    text_in(text).map(|text| Step::Embed { text })
}

// ---- lines

/// What a word of the wiki says with the other members of its line.
fn wiki_step(alloc: Global, word: &str, members: Vec<Value>) -> Result<Option<Step>, NoMemory>
    ensures { IfOk result (λ step. step ≡ wiki_step word.now (map view members.items)) }
{
    if word == "edit" {
        edit_step(alloc, members)
    } else if word == "option" {
        choice_step(alloc, members)
    } else if word == "clock" {
        Ok(clock_step(members.as_slice()))
    } else {
        Ok(None)
    }
}

/// What a word of asks and answers, or of the wiki, says with the other members of its line.
fn answer_step(alloc: Global, word: &str, members: Vec<Value>) -> Result<Option<Step>, NoMemory>
    ensures { IfOk result (λ step. step ≡ answer_step word.now (map view members.items)) }
{
    if word == "take" {
        Ok(bare_step(Step::Take, members.as_slice()))
    } else if word == "serve" {
        Ok(only_number(members.as_slice()).map(|ask| Step::Serve { ask }))
    } else if word == "deliver" {
        Ok(only_number(members.as_slice()).map(|wire| Step::Deliver { wire }))
    } else if word == "lose" {
        Ok(only_number(members.as_slice()).map(|ask| Step::Lose { ask }))
    } else {
        wiki_step(alloc, word, members)
    }
}

/// What a word says with the other members of its line.
fn word_step(alloc: Global, word: &str, members: Vec<Value>) -> Result<Option<Step>, NoMemory>
    ensures { IfOk result (λ step. step ≡ word_step word.now (map view members.items)) }
{
    if word == "view" {
        view_step(alloc, members)
    } else if word == "using" {
        using_step(alloc, members)
    } else if word == "load" {
        load_step(alloc, members)
    } else if word == "embed" {
        Ok(embed_step(members))
    } else if word == "close" {
        Ok(bare_step(Step::Close, members.as_slice()))
    } else {
        answer_step(alloc, word, members)
    }
}

/// What a line says by its word.
fn members_step(alloc: Global, mut members: Vec<Value>) -> Result<Option<Step>, NoMemory>
    ensures { IfOk result (λ step. step ≡ members_step (map view members.items)) }
{
    if members.is_empty() {
        return Ok(None);
    }
    let word = members.remove(0);
    match word.as_str() {
        Some(word) => word_step(alloc, word, members),
        None => Ok(None),
    }
}

/// The step that a line says which is not ignored, or none where it is not of the grammar.
pub(crate) fn read_step(alloc: Global, text: &str) -> Result<Option<Step>, NoMemory>
    ensures { IfOk result (λ step. step ≡ step_of text.now) }
{
    let value = match Value::from_str(alloc, text) {
        Ok(value) => value,
        Err(error) if error.is_memory() => return Err(NoMemory),
        Err(error) => return Ok(None),
    };
    match members_in(value) {
        Some(members) => members_step(alloc, members),
        None => Ok(None),
    }
}
