//! What leads to a cycle, or to a number that lacks something.
ghost use Rattle.std.specs.Prelude.{◌<◌, ◌≤◌, ◌↔◌, IfOk, IsTrue, length};
ghost use Rattle.rl_graph.specs.Graph.{edge_lists, IsWithin};
ghost use Rattle.rl_compact.specs.Laws.{MarksSayUnresolved};
ghost use Rattle.rl_compact.specs.Unresolved.{IsLooped, IsBad, AreBad, MarkUnresolved};

use rl_graph::{is_marked, reach, reversed};
use rl_names::{MAX_ROWS, NoMemory};
use std::alloc::Global;

/// Where the edges are those of rows without features, the marks that `mark_unresolved` makes say which rows do not resolve.
pub fn unresolved_laws()
    ensures { MarksSayUnresolved }
{}

/// Whether a number leads back to itself.
fn leads_back(alloc: Global, edges: &[Vec<u32>], number: u32) -> Result<bool, NoMemory>
    requires within { IsWithin (edge_lists edges.now) }
    requires low { number < length edges.now }
    ensures { IfOk result (λ back. IsTrue back ↔ IsLooped (edge_lists edges.now) number) }
{
    let marks = reach(alloc, edges, edges[number as usize].as_slice())?;
    Ok(is_marked(marks.as_slice(), number))
}

/// Whether a number lacks something, or leads back to itself.
fn is_bad(alloc: Global, edges: &[Vec<u32>], lacks: &[bool], number: u32) -> Result<bool, NoMemory>
    requires within { IsWithin (edge_lists edges.now) }
    requires low { number < length edges.now }
    ensures { IfOk result (λ bad. IsTrue bad ↔ IsBad (edge_lists edges.now) lacks.now number) }
{
    if is_marked(lacks, number) {
        return Ok(true);
    }
    leads_back(alloc, edges, number)
}

/// The numbers that lack something, and those that lead back to themselves.
fn bad_numbers(alloc: Global, edges: &[Vec<u32>], lacks: &[bool]) -> Result<Vec<u32>, NoMemory>
    requires few { length edges.now ≤ MAX_ROWS }
    requires within { IsWithin (edge_lists edges.now) }
    ensures { IfOk result (λ bad. AreBad (edge_lists edges.now) lacks.now (length edges.now) bad.items) }
{
    let mut bad = Vec::new(alloc);
    for at in 0..edges.len() {
        let number = at as u32;
        if is_bad(alloc, edges, lacks, number)? {
            bad.push(number)?;
        }
    }
    Ok(bad)
}

/// Marks each number that leads to one that lacks something, or to one that leads back to itself.
pub fn mark_unresolved(
    alloc: Global,
    edges: &[Vec<u32>],
    lacks: &[bool],
) -> Result<Vec<bool>, NoMemory>
    requires few { length edges.now ≤ MAX_ROWS }
    requires within { IsWithin (edge_lists edges.now) }
    ensures { IfOk result (λ marks. MarkUnresolved (edge_lists edges.now) lacks.now marks.items) }
{
    let bad = bad_numbers(alloc, edges, lacks)?;
    let back = reversed(alloc, edges)?;
    reach(alloc, back.as_slice(), bad.as_slice())
}
