//! What the dependencies of a row bring.
ghost use Rattle.std.specs.Prelude.{◌≡◌, ◌<◌, length, All, IfOk, flat_map};
ghost use Rattle.rl_compact.specs.Unmarked.{unmarked};
ghost use Rattle.rl_graph.specs.Graph.{edge_lists, next_in, IsWithin, MarksReached};
ghost use Rattle.rl_compact.specs.Laws.{LeftIsUnmarked, MarksSayBrought};

use rl_graph::{is_marked, reach};
use rl_names::{Dep, NoMemory};
use std::alloc::Global;

/// Where the edges are those of rows without a skip, the marks that `mark_brought` makes say which dependencies are brought.
pub fn brought_laws()
    ensures brought { MarksSayBrought }
    ensures left { LeftIsUnmarked }
{}

/// Marks what chains of two or more numbers lead to, from one of these dependencies.
pub fn mark_brought(alloc: Global, edges: &[Vec<u32>], deps: &[u32]) -> Result<Vec<bool>, NoMemory>
    requires within { IsWithin (edge_lists edges.now) }
    requires low { All (λ dep. dep < length edges.now) deps.now }
    ensures { IfOk result (λ marks. MarksReached (edge_lists edges.now) (flat_map (next_in (edge_lists edges.now)) deps.now) marks.items) }
{
    let mut starts = Vec::new(alloc);
    for dep in deps {
        starts.extend_from_slice(edges[*dep as usize].as_slice())?;
    }
    reach(alloc, edges, starts.as_slice())
}

/// The dependencies whose numbers are not marked.
pub fn keep_unmarked(
    alloc: Global,
    deps: Vec<Dep>,
    numbers: &[u32],
    marks: &[bool],
) -> Result<Vec<Dep>, NoMemory>
    requires { length numbers.now ≡ length deps.items }
    ensures { IfOk result (λ kept. kept.items ≡ unmarked deps.items numbers.now marks.now) }
{
    let mut kept = Vec::new(alloc);
    let mut at = 0usize;
    for dep in deps {
        if !is_marked(marks, numbers[at]) {
            kept.push(dep)?;
        }
        at += 1;
    }
    Ok(kept)
}
