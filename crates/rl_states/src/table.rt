//! The table of a view: how far its rows have come.
ghost use Rattle.std.specs.Prelude.{◌≡◌};
ghost use Rattle.rl_states.specs.Standings.{phase_by};
ghost use Rattle.rl_view_spec.specs.Progress.{is_lost};

use crate::cells::{Cells, release, touch_all};
use crate::counted::Steps;
use crate::standing::Standing;
use rl_names::{NoMemory, Version};
use rl_registry::Registry;
use rl_view_spec::{Outcome, Phase};
use std::alloc::Global;
use std::marker::Model;
use std::sync::ledger::Ledger;

/// How far the rows of a registry have come: which were requested, what they were answered with, and which ran.
#[derive(Drop)]
pub struct Table {
    registry: Registry,

    /// All that is counted.
    cells: Cells,

    /// The rows that ran, in order, and for each whether it threw.
    log: Vec<u32>,
    threw: Vec<bool>,

    executing: Option<u32>,
}

impl Model for Table {
    ghost use Rattle.rl_view_spec.specs.Progress.{Progress};

    ghost Value = { Progress };

    ghost use Rattle.rl_states.specs.Kept.{progress_in, IsKept};

    ghost view = { progress_in };

    ghost invariant = { IsKept };
}

impl Table {
    ghost use Rattle.std.specs.Prelude.{◌≡◌, ◌≢◌, ◌+◌, ◌*◌, ◌<◌, ◌≤◌, length, map, All, IfOk, IfSome, IsTrue, IsFalse, is_some};
    ghost use Rattle.rl_view_spec.specs.Progress.{is_touched_at, is_skipped_at, outcome_at, has_run, next_row, phase_of};
    ghost use Rattle.rl_registry.specs.Rows.{with_version};
    ghost use Rattle.rl_states.specs.Credit.{credit, entries};
    ghost use Rattle.rl_states.specs.Changes.{fresh_progress, after_touch, after_outcome, after_ran};

    /// The table of a registry of which nothing was requested. It takes the room for all that comes.
    pub fn open(alloc: Global, registry: Registry) -> Result<Table, NoMemory>
        ensures value { IfOk result (λ table. table ≡ fresh_progress registry) }
        ensures credit { IfOk result (λ table. credit table ≡ 64 * length registry.rows + 8 * entries registry) }
    {
        let count = registry.count();
        let cells = Cells::open(alloc, &registry)?;
        let log = Vec::with_capacity(alloc, count as usize)?;
        let threw = Vec::with_capacity(alloc, count as usize)?;
        Ok(Table {
            registry,
            cells,
            log,
            threw,
            executing: None,
        })
    }

    /// The registry, with the versions that rows have by now.
    pub fn registry(&self) -> &Registry
        ensures { result.now ≡ self.now.registered }
    {
        &self.registry
    }

    /// Gives a row this version.
    pub fn registry_mut(&mut self, row: u32, version: Version)
        requires { row < length self.old.registered.rows }
        ensures value { self.new ≡ record self.old { registered = with_version self.old.registered row version } }
        ensures credit { credit self.new ≡ credit self.old }
    {
        self.registry.set_version(row, version);
    }

    /// Notes that rows were requested.
    pub fn touch<L: Ledger>(&mut self, rows: &[u32], steps: &mut Steps<L>)
        requires { All (λ row. row < length self.old.registered.rows) rows.now }
        ensures value { self.new ≡ after_touch rows.now self.old }
        ensures cost { steps.new + credit self.new ≤ steps.old + credit self.old + 8 * length rows.now + 8 }
    {
        touch_all(&mut self.cells, rows, steps);
    }

    /// Whether a row was requested.
    pub fn touched(&self, row: u32) -> bool
        ensures { result ≡ is_touched_at self.now row }
    {
        match self.cells.peek(row) {
            Some(standing) => standing.touched,
            None => false,
        }
    }

    /// Notes what a row was answered with.
    pub fn outcome<L: Ledger>(&mut self, row: u32, outcome: Outcome, steps: &mut Steps<L>)
        requires touched { IsTrue (is_touched_at self.old row) }
        requires kept { IsFalse (is_skipped_at self.old.registered row) }
        requires first { outcome_at self.old row ≡ None }
        requires idle { self.old.executing ≡ None }
        ensures value { self.new ≡ after_outcome row outcome self.old }
        ensures cost { steps.new + credit self.new ≤ steps.old + credit self.old + 8 }
    {
        let old = self.cells.at(row, steps);
        let mut standing = old;
        standing.outcome = Some(outcome);
        self.cells.set(row, &old, standing, steps);
        if is_lost(outcome) {
            self.cells.spoil(row, steps);
        }
    }

    /// Whether a row was answered.
    pub fn has_outcome(&self, row: u32) -> bool
        ensures { result ≡ is_some (outcome_at self.now row) }
    {
        match self.cells.peek(row) {
            Some(standing) => standing.outcome.is_some(),
            None => false,
        }
    }

    /// The row that would run next: of those that may, the least. None exactly where none may.
    pub fn first_run<L: Ledger>(&self, steps: &mut Steps<L>) -> Option<u32>
        ensures value { result ≡ next_row self.now }
        ensures cost { steps.new ≤ steps.old + 160 }
    {
        match self.cells.first(steps) {
            Some(row) => Some(row as u32),
            None => None,
        }
    }

    /// The row that runs next: of those that may, the least. It is executing from then on. None exactly where none may.
    pub fn next_run<L: Ledger>(&mut self, steps: &mut Steps<L>) -> Option<u32>
        requires { self.old.executing ≡ None }
        ensures row { result ≡ next_row self.old }
        ensures after { self.new ≡ record self.old { executing = result } }
        ensures fewer { IfSome result (λ row. length self.old.ran < length self.old.registered.rows) }
        ensures cost { steps.new ≤ steps.old + 160 }
    {
        let row = self.first_run(steps);
        self.executing = row;
        row
    }

    /// Notes that the executing row ran, and whether an observer threw.
    pub fn ran<L: Ledger>(&mut self, row: u32, threw: bool, steps: &mut Steps<L>)
        requires { self.old.executing ≡ Some row }
        ensures value { self.new ≡ after_ran row threw self.old }
        ensures cost { steps.new + credit self.new ≤ steps.old + credit self.old + 8 }
    {
        self.log.push(row).unwrap();
        self.threw.push(threw).unwrap();
        self.executing = None;
        let old = self.cells.at(row, steps);
        let mut standing = old;
        standing.ran = true;
        standing.done = !threw;
        self.cells.set(row, &old, standing, steps);
        if threw {
            self.cells.spoil(row, steps);
        } else {
            release(&mut self.cells, row, steps);
        }
    }

    /// Whether a row ran.
    pub fn has_run(&self, row: u32) -> bool
        ensures { result ≡ has_run self.now row }
    {
        match self.cells.peek(row) {
            Some(standing) => standing.ran,
            None => false,
        }
    }

    /// The state of a row. It is meant for when no row may run.
    pub fn state(&self, row: u32) -> Phase
        requires { row < length self.now.registered.rows }
        ensures executing { self.now.executing ≡ Some row → result ≡ Phase.Executing }
        ensures resting { self.now.executing ≢ Some row → result ≡ phase_of self.now row }
    {
        if self.executing == Some(row) {
            return Phase::Executing;
        }
        match self.cells.peek(row) {
            Some(standing) => resting_phase(&standing, self.cells.is_spoiled(row)),
            None => Phase::Registered,
        }
    }

    /// The rows that ran, in order.
    pub fn log(&self) -> &[u32]
        ensures { result.now ≡ map (λ run. run.0) self.now.ran }
    {
        self.log.as_slice()
    }
}

/// Whether an outcome leads to no run.
fn is_lost(outcome: Outcome) -> bool
    ensures { result ≡ is_lost (Some outcome) }
{
    match outcome {
        Outcome::Impl => false,
        Outcome::Missing | Outcome::Error | Outcome::GivenUp => true,
    }
}

/// The state of a row that is not executing.
fn resting_phase(standing: &Standing, spoiled: bool) -> Phase
    ensures { result ≡ phase_by standing.now spoiled }
{
    if !standing.touched {
        Phase::Registered
    } else if standing.done {
        Phase::Ready
    } else if standing.outcome == Some(Outcome::Missing) {
        Phase::Missing
    } else if spoiled {
        Phase::Error
    } else if standing.outcome == Some(Outcome::Impl) {
        Phase::Loaded
    } else {
        Phase::Loading
    }
}
