//! How far a row has come.
ghost use Rattle.std.specs.Prelude.{◌≡◌, ◌||◌, ◌==◌, not, IfOk, count_by};
ghost use Rattle.rl_states.specs.Standings.{begun, for_rows, fresh, is_done_in, may_run};

use rl_names::NoMemory;
use rl_registry::Registry;
use rl_view_spec::Outcome;
use std::alloc::Global;

/// How far a row has come.
#[derive(Clone, Copy)]
pub struct Standing {
    pub touched: bool,
    pub outcome: Option<Outcome>,
    pub ran: bool,
    /// It is skipped, or ran and did not throw.
    pub done: bool,
    /// How many of its dependencies are not done. The row itself is left out, and another counts as often as it is
    /// named.
    pub waits: usize,
}

/// Whether the row may run.
pub fn may_run(standing: &Standing) -> bool
    ensures { result ≡ may_run standing.now }
{
    standing.touched
        && standing.outcome == Some(Outcome::Impl)
        && !standing.ran
        && !standing.done
        && standing.waits == 0
}

/// Rows to which nothing happened.
pub fn open_standings(alloc: Global, registry: &Registry) -> Result<Vec<Standing>, NoMemory>
    ensures { IfOk result (λ standings. standings.items ≡ for_rows registry.now (fresh registry.now)) }
{
    let mut standings = begin(alloc, registry)?;
    count_waits(standings.as_mut_slice(), registry);
    Ok(standings)
}

/// Rows to which nothing happened, and for which nothing was counted.
fn begin(alloc: Global, registry: &Registry) -> Result<Vec<Standing>, NoMemory>
    ensures { IfOk result (λ standings. standings.items ≡ for_rows registry.now (begun registry.now)) }
{
    let mut standings = Vec::with_capacity(alloc, registry.count() as usize)?;
    for row in 0..registry.count() {
        standings.push(Standing {
            touched: false,
            outcome: None,
            ran: false,
            done: registry.skipped(row),
            waits: 0,
        })?;
    }
    Ok(standings)
}

/// Counts for each row what it waits for.
fn count_waits(standings: &mut [Standing], registry: &Registry)
    requires { standings.old ≡ for_rows registry.now (begun registry.now) }
    ensures { standings.new ≡ for_rows registry.now (fresh registry.now) }
{
    for row in 0..registry.count() {
        let waits = count_undone(standings, registry.needs(row), row);
        standings[row as usize].waits = waits;
    }
}

/// How many of these are not done, a row left out.
fn count_undone(standings: &[Standing], needs: &[u32], row: u32) -> usize
    ensures { result ≡ count_by (λ other. not (other == row || is_done_in standings.now other)) needs.now }
{
    needs
        .iter()
        .filter(|other| !(**other == row || is_done(standings, **other)))
        .count()
}

fn is_done(standings: &[Standing], row: u32) -> bool
    ensures { result ≡ is_done_in standings.now row }
{
    match standings.get(row as usize) {
        Some(standing) => standing.done,
        None => false,
    }
}
