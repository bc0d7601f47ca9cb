//! Copies of what is kept.
ghost use Rattle.std.specs.Prelude.{◌≡◌, IfOk};

use rl_book_spec::Stored;
use rl_names::{Key, Message, NoMemory, Seq};
use rl_wire::Part;
use std::alloc::Global;

fn copy_key(key: &Key) -> Result<Key, NoMemory>
    ensures { IfOk result (λ copy. copy ≡ key.now) }
{
    let name = key.name.copy()?;
    Ok(Key {
        name,
        version: key.version,
    })
}

fn copy_message(message: &Message) -> Result<Message, NoMemory>
    ensures { IfOk result (λ copy. copy ≡ message.now) }
{
    let key = message.key.copy()?;
    let text = message.text.copy()?;
    Ok(Message { key, text })
}

fn copy_messages(alloc: Global, messages: &[Message]) -> Result<Seq<Message>, NoMemory>
    ensures { IfOk result (λ copies. copies ≡ messages.now) }
{
    let mut copies = Vec::with_capacity(alloc, messages.len())?;
    for message in messages {
        copies.push(copy_message(message)?)?;
    }
    Ok(Seq::of(copies))
}

fn copy_part(alloc: Global, part: &Part) -> Result<Part, NoMemory>
    ensures { IfOk result (λ copy. copy ≡ part.now) }
{
    match part {
        Part::Impl {
            name,
            version,
            script,
            styles,
            messages,
        } => {
            let name = name.copy()?;
            let script = script.copy()?;
            let styles = styles.copy()?;
            let messages = copy_messages(alloc, messages.as_slice())?;
            Ok(Part::Impl {
                name,
                version: *version,
                script,
                styles,
                messages,
            })
        }
        Part::State { name, kind } => {
            let name = name.copy()?;
            Ok(Part::State { name, kind: *kind })
        }
    }
}

/// A copy of a pair, with its wire number.
pub(crate) fn copy_stored(alloc: Global, stored: &Stored) -> Result<Stored, NoMemory>
    ensures { IfOk result (λ copy. copy ≡ stored.now) }
{
    let key = copy_key(&stored.key)?;
    let part = copy_part(alloc, &stored.part)?;
    Ok(Stored {
        key,
        part,
        wire: stored.wire,
    })
}

/// Copies of pairs, in their order.
pub(crate) fn copy_pairs(alloc: Global, pairs: &[Stored]) -> Result<Vec<Stored>, NoMemory>
    ensures { IfOk result (λ copies. copies.items ≡ pairs.now) }
{
    let mut copies = Vec::with_capacity(alloc, pairs.len())?;
    for stored in pairs {
        copies.push(copy_stored(alloc, stored)?)?;
    }
    Ok(copies)
}
