//! What a call needs before it is noted.
ghost use Rattle.std.specs.Prelude.{◌≡◌, ◌+◌, ◌<◌, ◌≤◌, ◌^◌, IfOk, OnOk, length, vec_capacity};

use rl_batch::Requests;
use rl_book_spec::Call;
use rl_names::{NoMemory, Text};
use std::alloc::Global;

/// Calls have numbers of 32 bits, and two more must fit.
const MAX_CALLS: usize = 0xFFFF_FFFD;

/// Copies of texts.
pub(crate) fn copies(alloc: Global, texts: &[Text]) -> Result<Vec<Text>, NoMemory>
    ensures { IfOk result (λ copies. copies.items ≡ texts.now) }
{
    let mut copies = Vec::new(alloc);
    for text in texts {
        copies.push(text.copy()?)?;
    }
    Ok(copies)
}

/// Makes room to note one call more, beside a loss of each ask.
pub(crate) fn make_room(calls: &mut Vec<Call>, requests: &Requests) -> Result<(), NoMemory>
    ensures items { calls.new.items ≡ calls.old.items }
    ensures more { vec_capacity calls.old ≤ vec_capacity calls.new }
    ensures few { OnOk result (length calls.new.items + length requests.now.asks + 2 < 2 ^ 32) }
    ensures room { OnOk result (length calls.new.items + length requests.now.asks + 2 ≤ vec_capacity calls.new) }
{
    let asks = requests.ask_count() as usize;
    if calls.len() > MAX_CALLS || asks > MAX_CALLS - calls.len() {
        return Err(NoMemory);
    }
    calls.reserve(asks + 2)?;
    Ok(())
}
