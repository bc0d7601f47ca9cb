//! What is noted of a row.
ghost use Rattle.std.specs.Prelude.{◌≡◌, IfOk, map};
ghost use Rattle.rl_states.specs.Counted.{clean_cell};

use crate::standing::Standing;
use rl_names::NoMemory;
use std::alloc::Global;

/// Whether a row cannot become ready; and while its failure is to be passed on, the next row of those.
#[derive(Clone, Copy)]
pub struct Mark {
    pub spoiled: bool,
    pub next: Option<u32>,
}

/// All that is noted of a row.
#[derive(Clone, Copy)]
pub struct Cell {
    pub standing: Standing,
    pub mark: Mark,
}

/// The cells of rows that have come so far, and of which none is spoiled.
pub fn clean_cells(alloc: Global, standings: &[Standing]) -> Result<Vec<Cell>, NoMemory>
    ensures { IfOk result (λ cells. cells.items ≡ map clean_cell standings.now) }
{
    let mut cells = Vec::with_capacity(alloc, standings.len())?;
    for standing in standings {
        cells.push(Cell {
            standing: *standing,
            mark: Mark {
                spoiled: false,
                next: None,
            },
        })?;
    }
    Ok(cells)
}
