//! Rows cut into batches, each of which one query asks for.
#![tactic(auto)]

ghost use Rattle.std.specs.Prelude.{◌≡◌, ◌<◌, IfOk, map};
ghost use Rattle.rl_book_spec.specs.Batches.{batch_of, batches_of};
ghost use Rattle.rl_batch.specs.Given.{numbered_rows, AskFor, IsBase, MayBeAsked};
ghost use Rattle.rl_batch.specs.Split.{cuts, goes, seen, AreOf};

mod filling;
mod order;
pub mod requests;
#[cfg(test)]
mod tests;
mod writing;

use filling::fill;
use order::sorted;
pub use requests::Requests;
pub use rl_book_spec::Batch;
use rl_names::{NoMemory, Query, Row};
use rl_registry::Registry;
use std::alloc::Global;
use writing::{base_in, written};

/// The batches that ask for rows in this order.
fn cut(
    alloc: Global,
    registry: &Registry,
    base: &Query,
    rows: &[(u32, &Row)],
    limit: u32,
) -> Result<Vec<Batch>, NoMemory>
    requires rows { AreOf registry.now (map seen rows.now) }
    requires base { IsBase base.now }
    ensures { IfOk result (λ batches. batches.items ≡ map (batch_of base.now) (cuts (goes base.now limit) (map seen rows.now))) }
{
    let mut batches = Vec::new(alloc);
    let mut at = 0;
    'batches: while at < rows.len() {
        let rest = &rows[at..];
        let first = rows[at].1;
        let base = base_in(alloc, base, first.group)?;
        let count = fill(alloc, &base, rest, limit)?;
        batches.push(written(alloc, registry, base, &rest[..count])?)?;
        at += count;
    }
    Ok(batches)
}

/// The batches that ask for these rows, in the order in which they are asked for.
pub fn batches(
    alloc: Global,
    registry: &Registry,
    base: &Query,
    rows: &[u32],
    limit: u32,
) -> Result<Vec<Batch>, NoMemory>
    requires rows { MayBeAsked registry.now rows.now }
    requires base { IsBase base.now }
    ensures batches { IfOk result (λ batches. batches.items ≡ batches_of base.now limit (numbered_rows registry.now rows.now)) }

    // Each row is asked for once, and a query is longer than the limit only where it asks for one row.
    ensures asks { IfOk result (λ batches. AskFor rows.now limit batches.items) }
{
    let rows = sorted(alloc, registry, rows)?;
    cut(alloc, registry, base, rows.as_slice(), limit)
}
