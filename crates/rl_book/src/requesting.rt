//! Requests: rows that are touched, and batches that ask for those that nothing came for.
ghost use Rattle.std.specs.Prelude.{◌≡◌, ◌≢◌, ◌<◌, All, AllPairs, IfOk, None, OnErr, OnOk, length};
ghost use Rattle.rl_view_spec.specs.Closure.{resolves};
ghost use Rattle.rl_view_spec.specs.Requests.{accepted_each};
ghost use Rattle.rl_batch.specs.Given.{IsBase};
ghost use Rattle.rl_book.specs.Asking.{Asks, Loads, Touched, Untouched};
ghost use Rattle.rl_book.specs.Requesting.{left_of};

use crate::held::Held;
use crate::touching::{is_left, touch_rows};
use rl_batch::{Requests, batches};
use rl_book_spec::Plan;
use rl_names::{NoMemory, Text};
use rl_registry::{Registry, ResolveError};
use rl_states::Table;
use std::alloc::Global;
use std::slice;

/// Those of the rows that are to be asked for.
fn left_of(alloc: Global, table: &Table, held: &Held, rows: &[u32]) -> Result<Vec<u32>, NoMemory>
    requires within { All (λ row. row < length table.now.registered.rows) rows.now }
    ensures { IfOk result (λ left. left.items ≡ left_of held.now.gifts table.now rows.now) }
{
    let mut left = Vec::new(alloc);
    for row in rows {
        if is_left(table, held, *row) {
            left.push(*row)?;
        }
    }
    Ok(left)
}

/// Touches rows, gives them what they are given at once, and asks for those that are left. It wants memory only before
/// anything changes.
fn request_rows(
    alloc: Global,
    table: &mut Table,
    requests: &mut Requests,
    plan: &Plan,
    held: &Held,
    rows: &[u32],
) -> Result<(), NoMemory>
    requires base { IsBase plan.now.base }
    requires within { All (λ row. row < length table.old.registered.rows) rows.now }
    requires once { AllPairs (λ a b. a ≢ b) rows.now }
    requires idle { table.old.executing ≡ None }
    ensures ok { OnOk result (Touched plan.now held.now.gifts rows.now table.old table.new requests.old requests.new) }
    ensures err { OnErr result (Untouched table.old table.new requests.old requests.new) }
{
    let left = left_of(alloc, table, held, rows)?;
    let new = batches(
        alloc,
        table.registry(),
        &plan.base,
        left.as_slice(),
        plan.limit,
    )?;
    requests.add(new)?;
    touch_rows(table, held, rows);
    Ok(())
}

/// Requests names together: touches the rows of their closures, gives these what they are given at once, and asks for those
/// that are left. Of a request that is refused, and at want of memory, nothing changes.
pub(crate) fn request(
    alloc: Global,
    table: &mut Table,
    requests: &mut Requests,
    plan: &Plan,
    held: &Held,
    names: &[Text],
) -> Result<(), ResolveError>
    requires base { IsBase plan.now.base }
    requires idle { table.old.executing ≡ None }
    ensures asks { Asks result plan.now held.now.gifts names.now table.old table.new requests.old requests.new }
    ensures err { OnErr result (Untouched table.old table.new requests.old requests.new) }
{
    let rows = table.registry().resolve_all(names)?;
    request_rows(alloc, table, requests, plan, held, rows.as_slice())?;
    Ok(())
}

/// Whether a name resolves.
fn does_resolve(registry: &Registry, name: &Text) -> Result<bool, NoMemory>
    ensures { IfOk result (λ answer. answer ≡ resolves registry.now name.now) }
{
    match registry.resolve_all(slice::from_ref(name)) {
        Ok(_) => Ok(true),
        Err(ResolveError::Unknown { .. }) => Ok(false),
        Err(ResolveError::Cycle { .. }) => Ok(false),
        Err(ResolveError::NoMemory) => Err(NoMemory),
    }
}

/// Those of the names that resolve.
pub(crate) fn accepted(
    alloc: Global,
    registry: &Registry,
    names: &[Text],
) -> Result<Vec<Text>, NoMemory>
    ensures { IfOk result (λ accepted. accepted.items ≡ accepted_each registry.now names.now) }
{
    let mut accepted = Vec::new(alloc);
    for name in names {
        if does_resolve(registry, name)? {
            accepted.push(name.copy()?)?;
        }
    }
    Ok(accepted)
}

/// Requests each of the names that resolves, and tells of how many places the name was dropped. At want of memory nothing
/// changes.
pub(crate) fn load(
    alloc: Global,
    table: &mut Table,
    requests: &mut Requests,
    plan: &Plan,
    held: &Held,
    names: &[Text],
) -> Result<u32, NoMemory>
    requires base { IsBase plan.now.base }
    requires idle { table.old.executing ≡ None }
    ensures ok { IfOk result (λ dropped. Loads plan.now held.now.gifts names.now dropped table.old table.new requests.old requests.new) }
    ensures err { OnErr result (Untouched table.old table.new requests.old requests.new) }
{
    let asked = accepted(alloc, table.registry(), names)?;
    let dropped = names.len().saturating_sub(asked.len());
    if dropped > 0xFFFF_FFFF {
        return Err(NoMemory);
    }
    match request(alloc, table, requests, plan, held, asked.as_slice()) {
        Ok(()) => Ok(dropped as u32),
        Err(ResolveError::Unknown { .. }) => unreachable!(),
        Err(ResolveError::Cycle { .. }) => unreachable!(),
        Err(ResolveError::NoMemory) => Err(NoMemory),
    }
}
