//! Compaction of the rows of a registry.
ghost use Rattle.std.specs.Prelude.{◌≡◌, ◌<◌, ◌≤◌, length, All, IfOk, map};
ghost use Rattle.std.specs.List.{filter_map};
ghost use Rattle.rl_graph.specs.Graph.{edge_lists, IsWithin};
ghost use Rattle.rl_view_spec.specs.Numbers.{needed};
ghost use Rattle.rl_rows.specs.Index.{AreDistinct};
ghost use Rattle.rl_rows.specs.Edges.{HasDepsWithin};
ghost use Rattle.rl_compact.specs.Compact.{plain, compacted};
ghost use Rattle.rl_compact.specs.Known.{Known};
ghost use Rattle.rl_compact.specs.Laws.{lacks};
ghost use Rattle.rl_compact.specs.Unmarked.{IsLeft};

use crate::brought::{keep_unmarked, mark_brought};
use crate::unresolved::mark_unresolved;
use rl_names::{MAX_ROWS, NoMemory, Row, Seq, Text};
use rl_rows::{all_edges, index_of};
use std::alloc::Global;

/// The skips of rows.
fn skips_of(alloc: Global, rows: &[Row]) -> Result<Vec<Text>, NoMemory>
    ensures { IfOk result (λ skips. skips.items ≡ filter_map (λ row. row.skip) rows.now) }
{
    let mut skips = Vec::new(alloc);
    for row in rows {
        if let Some(skip) = &row.skip {
            skips.push(skip.copy()?)?;
        }
    }
    Ok(skips)
}

/// Which rows lack a row that they depend on.
fn lacks_of(alloc: Global, rows: &[Row], edges: &[Vec<u32>]) -> Result<Vec<bool>, NoMemory>
    requires { edge_lists edges.now ≡ map (needed (plain rows.now)) rows.now }
    ensures { IfOk result (λ lacking. lacking.items ≡ map (lacks rows.now) rows.now) }
{
    let mut lacking = Vec::with_capacity(alloc, rows.len())?;
    for at in 0..rows.len() {
        lacking.push(edges[at].len() != rows[at].deps.as_slice().len())?;
    }
    Ok(lacking)
}

/// The row without the dependencies that others of it bring.
fn compact_one(alloc: Global, row: Row, numbers: &[u32], bare: &[Vec<u32>]) -> Result<Row, NoMemory>
    requires long { length numbers.now ≡ length row.deps }
    requires within { IsWithin (edge_lists bare.now) }
    requires low { All (λ number. number < length bare.now) numbers.now }
    ensures { IfOk result (λ new. IsLeft row numbers.now (edge_lists bare.now) new) }
{
    let marks = mark_brought(alloc, bare, numbers)?;
    let deps = keep_unmarked(alloc, row.deps.into_vec(), numbers, marks.as_slice())?;
    Ok(Row {
        name: row.name,
        version: row.version,
        deps: Seq::of(deps),
        group: row.group,
        source: row.source,
        skip: row.skip,
    })
}

/// What is looked up of rows before they are compacted.
#[derive(Drop)]
struct Looked {
    /// The numbers that each row depends on, without features and under every one.
    edges: Vec<Vec<u32>>,
    bare: Vec<Vec<u32>>,

    /// Which rows stay as they are.
    stays: Vec<bool>,
}

/// Looks up what each row depends on, and which rows stay.
fn look_up(alloc: Global, rows: &[Row]) -> Result<Looked, NoMemory>
    requires few { length rows.now ≤ MAX_ROWS }
    requires distinct { AreDistinct rows.now }
    requires within { HasDepsWithin (plain rows.now) }
    ensures { IfOk result (λ looked. Known rows.now (edge_lists looked.edges.items) (edge_lists looked.bare.items) looked.stays.items) }
{
    let order = index_of(alloc, rows)?;
    let edges = all_edges(alloc, rows, order.as_slice(), &[])?;
    let skips = skips_of(alloc, rows)?;
    let bare = all_edges(alloc, rows, order.as_slice(), skips.as_slice())?;
    let lacking = lacks_of(alloc, rows, edges.as_slice())?;
    let stays = mark_unresolved(alloc, edges.as_slice(), lacking.as_slice())?;
    Ok(Looked { edges, bare, stays })
}

/// Leaves each dependency out of a row that another dependency of that row brings.
pub fn compact(alloc: Global, rows: Vec<Row>) -> Result<Vec<Row>, NoMemory>
    requires few { length rows.items ≤ MAX_ROWS }
    requires distinct { AreDistinct rows.items }
    requires within { HasDepsWithin (plain rows.items) }
    ensures { IfOk result (λ left. left.items ≡ compacted rows.items) }
{
    let looked = look_up(alloc, rows.as_slice())?;
    let mut left = Vec::with_capacity(alloc, rows.len())?;
    let mut at = 0usize;
    for row in rows {
        if looked.stays[at] {
            left.push(row)?;
        } else {
            left.push(compact_one(
                alloc,
                row,
                looked.edges[at].as_slice(),
                looked.bare.as_slice(),
            )?)?;
        }
        at += 1;
    }
    Ok(left)
}
