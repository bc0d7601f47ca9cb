//! What rows were answered with, and what executes for them.
ghost use Rattle.std.specs.Prelude.{◌≡◌, IfOk, None, replicate};

use rl_book_spec::Mark;
use rl_names::NoMemory;
use rl_wire::Part;
use std::alloc::Global;

/// The part that a row took of an answer, and where the answer came from.
#[derive(Drop)]
pub struct Delivered {
    pub part: Part,
    pub mark: Mark,
}

/// For each of so many rows that it took none.
pub(crate) fn none_delivered(alloc: Global, count: u32) -> Result<Vec<Option<Delivered>>, NoMemory>
    ensures { IfOk result (λ delivered. delivered.items ≡ replicate count None) }
{
    let mut delivered = Vec::with_capacity(alloc, count as usize)?;
    for _row in 0..count {
        delivered.push(None)?;
    }
    Ok(delivered)
}
