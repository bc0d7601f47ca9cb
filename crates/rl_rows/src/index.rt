//! An index of rows: their numbers, in the order of their names.
ghost use Rattle.std.specs.Prelude.{◌≡◌, ◌<◌, ◌≤◌, IfOk, IfSome, bytes_eq, length, option_map, position};
ghost use Rattle.rl_view_spec.specs.Breach.{repeated};
ghost use Rattle.rl_view_spec.specs.Closure.{lesser, least};
ghost use Rattle.rl_rows.specs.Index.{name_in, AreDistinct, IsIndex};

use rl_names::{MAX_ROWS, NoMemory, Row};
use std::alloc::Global;

/// The name of the row of a number, and no bytes past the last row.
fn name_in(rows: &[Row], row: u32) -> &[u8]
    ensures { result.now ≡ name_in rows.now row }
{
    match rows.get(row as usize) {
        Some(row) => row.name.as_bytes(),
        None => &[],
    }
}

/// The lesser of a name and the least one so far.
pub fn lesser<'a>(name: &'a str, found: Option<&'a str>) -> &'a str
    ensures { result.now ≡ lesser name.now (option_map (λ other. other.now) found.entry) }
{
    match found {
        Some(other) if other < name => other,
        _ => name,
    }
}

/// The index of the rows.
pub fn index_of(alloc: Global, rows: &[Row]) -> Result<Vec<u32>, NoMemory>
    requires { length rows.now ≤ MAX_ROWS }
    ensures { IfOk result (λ order. IsIndex rows.now order.items) }
{
    let mut order = Vec::with_capacity(alloc, rows.len())?;
    for row in 0..rows.len() as u32 {
        order.push(row)?;
    }
    order.sort_unstable_by(|a, b| name_in(rows, *a).cmp(name_in(rows, *b)));
    Ok(order)
}

/// The number of the row of a name.
pub fn find(rows: &[Row], order: &[u32], name: &[u8]) -> Option<u32>
    requires index { IsIndex rows.now order.now }
    requires distinct { AreDistinct rows.now }
    ensures value { result ≡ position (λ row. bytes_eq row.name name.now) rows.now }
    ensures within { IfSome result (λ row. row < length rows.now) }
{
    match order.binary_search_by(|row| name_in(rows, *row).cmp(name)) {
        Ok(at) => Some(order[at]),
        Err(_) => None,
    }
}

/// The least name that stands twice.
pub fn least_repeated<'a>(rows: &'a [Row], order: &[u32]) -> Option<&'a str>
    requires { IsIndex rows.now order.now }
    ensures { option_map (λ name. name.now) result ≡ least (repeated rows.now) }
{
    for at in 1..order.len() {
        if name_in(rows, order[at - 1]) == name_in(rows, order[at]) {
            return Some(rows[order[at] as usize].name.as_str());
        }
    }
    None
}
