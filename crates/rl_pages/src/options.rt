//! The options of a user, as their choices give them.
ghost use Rattle.std.specs.Prelude.{◌≡◌, [], fold, map, IfOk, OnOk};
ghost use Rattle.rl_pages.specs.History.{options_after, put_option};
ghost use Rattle.rl_names.specs.declared.part.Message.{Message};

use crate::entry::Entry;
use rl_names::{Message, NoMemory, Text};
use std::alloc::Global;
use std::collections::BTreeMap;

/// The options of a user by their choices in order: the last value of each key, keys in byte order.
pub(crate) fn options(
    alloc: Global,
    choices: &[&Entry],
    user: &[u8],
) -> Result<Vec<Message>, NoMemory>
    ensures { IfOk result (λ options. options.items ≡ fold (options_after user.now) [] (map (λ e. e.now) choices.now)) }
{
    let mut values = BTreeMap::new(alloc);
    'choices: for entry in choices {
        put_choice(&mut values, user, entry)?;
    }
    messages(alloc, &values)
}

/// Puts a value under its key.
fn put<'a>(
    values: &mut BTreeMap<&'a str, &'a str>,
    key: &'a str,
    value: &'a str,
) -> Result<(), NoMemory>
    ensures { OnOk result (map (λ option. record { key = option.0.now; text = option.1.now }) values.new.entries
        ≡ put_option key.now value.now (map (λ option. record { key = option.0.now; text = option.1.now }) values.old.entries)) }
{
    values.insert(key, value)?;
    Ok(())
}

/// Puts the value of a choice of this user under its key.
fn put_choice<'a>(
    values: &mut BTreeMap<&'a str, &'a str>,
    user: &[u8],
    entry: &'a Entry,
) -> Result<(), NoMemory>
    ensures { OnOk result (map (λ option. record { key = option.0.now; text = option.1.now }) values.new.entries
        ≡ options_after user.now (map (λ option. record { key = option.0.now; text = option.1.now }) values.old.entries) entry.now) }
{
    match entry {
        Entry::Choice {
            user: chooser,
            key,
            value,
        } if chooser.as_bytes() == user => put(values, key.as_str(), value.as_str()),
        Entry::Choice { .. } | Entry::Edit { .. } => Ok(()),
    }
}

/// A copy of each value under its key.
fn messages(alloc: Global, values: &BTreeMap<&str, &str>) -> Result<Vec<Message>, NoMemory>
    ensures { IfOk result (λ messages. messages.items ≡ map (λ option. record { key = option.0.now; text = option.1.now }) values.now.entries) }
{
    let mut messages = Vec::with_capacity(alloc, values.len())?;
    'values: for (key, value) in values {
        messages.push(Message {
            key: Text::of(alloc, key)?,
            text: Text::of(alloc, value)?,
        })?;
    }
    Ok(messages)
}
