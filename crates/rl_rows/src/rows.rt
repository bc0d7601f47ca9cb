//! What is asked of rows alone.
ghost use Rattle.std.specs.Prelude.{◌≡◌, ◌<◌, ◌≤◌, IfOk, IfSome, option_map, bytes_eq, length, [], map, slice_get};
ghost use Rattle.std.specs.List.{filter_map, list_any};
ghost use Rattle.rl_view_spec.specs.Breach.{bad_index, bad_indexes, wide_row};
ghost use Rattle.rl_view_spec.specs.Closure.{has_feature, dep_name};
ghost use Rattle.rl_view_spec.specs.Numbers.{number_of_dep, needed};
ghost use Rattle.rl_rows.specs.Index.{AreDistinct, IsIndex};
ghost use Rattle.rl_rows.specs.Edges.{skips_of};

use crate::index::find;
use rl_names::{Dep, MAX_DEPENDENCIES, MAX_ROWS, NoMemory, Row, Text};
use std::alloc::Global;

/// Whether a text is among the texts.
fn has_text(texts: &[Text], text: &[u8]) -> bool
    ensures { result ≡ list_any (λ other. bytes_eq text.now other) texts.now }
{
    texts.iter().any(|other| text == other.as_bytes())
}

/// Whether a skip is among the features.
pub fn is_skipped(features: &[Text], skip: &Option<Text>) -> bool
    ensures { result ≡ has_feature (record { rows = []; features = features.now }) skip.now }
{
    match skip {
        None => false,
        Some(skip) => has_text(features, skip.as_bytes()),
    }
}

/// The first row with too many dependencies.
pub fn first_wide(rows: &[Row]) -> Option<&Row>
    ensures { option_map (λ row. row.now) result ≡ wide_row rows.now }
{
    rows.iter()
        .find(|row| row.deps.as_slice().len() as u64 > MAX_DEPENDENCIES)
}

/// The number of a dependency, where none of so many rows has it.
fn bad_index(count: usize, dep: &Dep) -> Option<u32>
    ensures { result ≡ bad_index count dep.now }
{
    match dep {
        Dep::At(index) if *index as usize >= count => Some(*index),
        Dep::At(_) | Dep::Named(_) => None,
    }
}

/// The first number of a dependency that none of so many rows has.
fn first_bad(count: usize, deps: &[Dep]) -> Option<u32>
    ensures { result ≡ slice_get (filter_map (bad_index count) deps.now) 0 }
{
    for dep in deps {
        if let Some(index) = bad_index(count, dep) {
            return Some(index);
        }
    }
    None
}

/// The first dependency by a number that no row has: the number of the row, and that number.
pub fn first_bad_index(rows: &[Row]) -> Option<(u32, u32)>
    requires { length rows.now ≤ MAX_ROWS }
    ensures { result ≡ slice_get (bad_indexes rows.now) 0 }
{
    for (at, row) in rows.iter().enumerate() {
        if let Some(index) = first_bad(rows.len(), row.deps.as_slice()) {
            return Some((at as u32, index));
        }
    }
    None
}

/// The name of a dependency.
pub fn dep_name<'a>(rows: &'a [Row], dep: &'a Dep) -> Option<&'a str>
    ensures { option_map (λ name. name.now) result ≡ dep_name (record { rows = rows.now; features = [] }) dep.now }
{
    match dep {
        Dep::Named(name) => Some(name.as_str()),
        Dep::At(at) => match rows.get(*at as usize) {
            Some(row) => Some(row.name.as_str()),
            None => None,
        },
    }
}

/// The number of the row of a dependency.
fn edge_of(rows: &[Row], order: &[u32], dep: &Dep) -> Option<u32>
    requires index { IsIndex rows.now order.now }
    requires distinct { AreDistinct rows.now }
    ensures value { result ≡ number_of_dep (record { rows = rows.now; features = [] }) dep.now }
    ensures within { IfSome result (λ at. at < length rows.now) }
{
    match dep {
        Dep::At(at) if (*at as usize) < rows.len() => Some(*at),
        Dep::At(_) => None,
        Dep::Named(name) => find(rows, order, name.as_bytes()),
    }
}

/// The numbers of the rows that a row depends on.
fn edges_of(
    alloc: Global,
    rows: &[Row],
    order: &[u32],
    features: &[Text],
    row: &Row,
) -> Result<Vec<u32>, NoMemory>
    requires index { IsIndex rows.now order.now }
    requires distinct { AreDistinct rows.now }
    ensures { IfOk result (λ edges. edges.items ≡ needed (record { rows = rows.now; features = features.now }) row.now) }
{
    let mut edges = Vec::new(alloc);
    if is_skipped(features, &row.skip) {
        return Ok(edges);
    }
    for dep in row.deps.as_slice() {
        if let Some(at) = edge_of(rows, order, dep) {
            edges.push(at)?;
        }
    }
    Ok(edges)
}

/// The numbers of the rows that each row depends on.
pub fn all_edges(
    alloc: Global,
    rows: &[Row],
    order: &[u32],
    features: &[Text],
) -> Result<Vec<Vec<u32>>, NoMemory>
    requires index { IsIndex rows.now order.now }
    requires distinct { AreDistinct rows.now }
    ensures { IfOk result (λ all. map (λ edges. edges.items) all.items ≡ map (needed (record { rows = rows.now; features = features.now })) rows.now) }
{
    let mut all = Vec::with_capacity(alloc, rows.len())?;
    for row in rows {
        all.push(edges_of(alloc, rows, order, features, row)?)?;
    }
    Ok(all)
}

/// Which rows a feature skips.
pub fn skips_of(alloc: Global, rows: &[Row], features: &[Text]) -> Result<Vec<bool>, NoMemory>
    ensures { IfOk result (λ skips. skips.items ≡ skips_of (record { rows = rows.now; features = features.now })) }
{
    let mut skips = Vec::with_capacity(alloc, rows.len())?;
    for row in rows {
        skips.push(is_skipped(features, &row.skip))?;
    }
    Ok(skips)
}
