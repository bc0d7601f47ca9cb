//! The cells of the rows, as the table sees them: how far each row came, which rows need it, and which are spoiled.
ghost use Rattle.std.specs.Prelude.{◌≡◌, ℕ, ◌+◌, ◌*◌, ◌<◌, ◌≤◌, if◌then◌else◌, length, position, All, Some, count_by, nat_eq};
ghost use Rattle.std.specs.Prelude.{slice_get};
ghost use Rattle.rl_graph.specs.Graph.{next_in};
ghost use Rattle.rl_states.specs.Cells.{IsNoneBefore, runnable_in};
ghost use Rattle.rl_states.specs.Standings.{by_place, may_run, touch_at, release_at};
ghost use Rattle.rl_states.specs.declared.standing.Standing.{Standing};

use crate::counted::{BLOCK, Counted, Steps};
use crate::spoiled::spread;
use crate::standing::{Standing, may_run};
use rl_names::{MAX_ROWS, NoMemory};
use rl_registry::Registry;
use std::alloc::Global;
use std::marker::Model;
use std::sync::ledger::Ledger;

/// What is counted of the rows, where each block has the number of its rows that may run.
#[derive(Drop)]
pub struct Cells {
    held: Counted,
}

impl Model for Cells {
    ghost use Rattle.rl_states.specs.Cells.{Seen, seen_in, AreCounted};

    ghost Value = { Seen };

    ghost view = { λ c. seen_in c.held };

    ghost invariant = { λ c. AreCounted c.held.standings c.held.runnable };
}

impl Cells {
    ghost use Rattle.std.specs.Prelude.{◌≡◌, ◌+◌, ◌<◌, ◌≤◌, ◌∷◌, [], false, length, replicate, position, IfOk, Some};
    ghost use Rattle.std.specs.Prelude.{slice_get, slice_set};
    ghost use Rattle.rl_graph.specs.Graph.{marked, IsWithin};
    ghost use Rattle.rl_graph.specs.Marks.{IsClosed, Spreads};
    ghost use Rattle.rl_states.specs.Spoiled.{left, weight};
    ghost use Rattle.rl_states.specs.Standings.{for_rows, fresh, may_run};
    ghost use Rattle.rl_states.specs.Users.{AreUsers};

    /// Rows to which nothing happened.
    pub fn open(alloc: Global, registry: &Registry) -> Result<Cells, NoMemory>
        ensures standings { IfOk result (λ cells. cells.standings ≡ for_rows registry.now (fresh registry.now)) }
        ensures users { IfOk result (λ cells. AreUsers registry.now cells.users) }
        ensures spoiled { IfOk result (λ cells. cells.spoiled ≡ replicate (length registry.now.rows) false) }
    {
        let held = Counted::open(alloc, registry)?;
        Ok(Cells { held })
    }

    /// How far a row has come, where there is such a row. It counts nothing.
    pub fn peek(&self, row: u32) -> Option<Standing>
        ensures { result ≡ slice_get self.now.standings row }
    {
        self.held.peek(row)
    }

    /// Whether a row cannot become ready. It counts nothing.
    pub fn is_spoiled(&self, row: u32) -> bool
        ensures { result ≡ marked self.now.spoiled row }
    {
        self.held.is_spoiled(row)
    }

    /// How many times other rows need this one.
    pub fn user_count(&self, row: u32) -> usize
        requires { row < length self.now.users }
        ensures { result ≡ length (next_in self.now.users row) }
    {
        self.held.user_count(row)
    }

    /// A row that needs this one, by its place in the list.
    pub fn user<L: Ledger>(&self, row: u32, at: usize, steps: &mut Steps<L>) -> u32
        requires row { row < length self.now.users }
        requires at { at < length (next_in self.now.users row) }
        ensures value { slice_get (next_in self.now.users row) at ≡ Some result }
        ensures cost { steps.new ≡ steps.old + 1 }
    {
        self.held.user(row, at, steps)
    }

    /// How far a row has come.
    pub fn at<L: Ledger>(&self, row: u32, steps: &mut Steps<L>) -> Standing
        requires { row < length self.now.standings }
        ensures value { slice_get self.now.standings row ≡ Some result }
        ensures cost { steps.new ≡ steps.old + 1 }
    {
        self.held.standing(row as usize, steps)
    }

    /// A row that had come so far comes this far.
    pub fn set<L: Ledger>(&mut self, row: u32, old: &Standing, new: Standing, steps: &mut Steps<L>)
        requires { slice_get self.old.standings row ≡ Some old.now }
        ensures value { self.new ≡ record self.old { standings = slice_set self.old.standings row new } }
        ensures cost { steps.new ≤ steps.old + 3 }
    {
        self.held.set_standing(row as usize, new, steps);
        let before = may_run(old);
        let after = may_run(&new);
        if before != after {
            let block = row as usize / BLOCK;
            let runnable = self.held.runnable(block, steps);
            self.held
                .set_runnable(block, recounted(runnable, before, after), steps);
        }
    }

    /// The first row that may run.
    pub fn first<L: Ledger>(&self, steps: &mut Steps<L>) -> Option<usize>
        ensures value { result ≡ position may_run self.now.standings }
        ensures cost { steps.new ≤ steps.old + 128 }
    {
        for block in 0..self.held.blocks() {
            if self.held.runnable(block, steps) > 0 {
                return first_in(&self.held, block, steps);
            }
        }
        None
    }

    /// A row cannot become ready, nor can any row that needs such a one.
    pub fn spoil<L: Ledger>(&mut self, row: u32, steps: &mut Steps<L>)
        requires long { length self.old.spoiled ≡ length self.old.users }
        requires low { row < length self.old.spoiled }
        requires within { IsWithin self.old.users }
        requires closed { IsClosed self.old.users self.old.spoiled }
        ensures rest { self.new ≡ record self.old { spoiled = self.new.spoiled } }
        ensures long { length self.new.spoiled ≡ length self.old.spoiled }
        ensures spreads { Spreads self.old.users (row ∷ []) self.old.spoiled self.new.spoiled }
        ensures cost { steps.new + left (weight self.old.users) self.new.spoiled ≤ steps.old + left (weight self.old.users) self.old.spoiled + 2 }
    {
        spread(&mut self.held, row, steps);
    }
}

/// How many rows of a block may run, after one of them that could or could not now can or cannot.
fn recounted(runnable: usize, before: bool, after: bool) -> usize
    requires few { runnable ≤ MAX_ROWS }
    requires one { (if before then 1 else 0) ≤ runnable }
    ensures { result + (if before then 1 else 0) ≡ runnable + (if after then 1 else 0) }
{
    match (before, after) {
        (false, true) => runnable + 1,
        (true, false) => runnable - 1,
        _ => runnable,
    }
}

/// The first row that may run, where it stands in this block.
fn first_in<L: Ledger>(held: &Counted, block: usize, steps: &mut Steps<L>) -> Option<usize>
    requires low { block < 64 }
    requires before { IsNoneBefore held.now.standings (64 * block) }
    requires some { 0 < runnable_in held.now.standings block }
    ensures value { result ≡ position may_run held.now.standings }
    ensures cost { steps.new ≤ steps.old + 64 }
{
    for row in BLOCK * block..held.rows() {
        let standing = held.standing(row, steps);
        if may_run(&standing) {
            return Some(row);
        }
    }
    None
}

/// Marks rows as touched.
pub fn touch_all<L: Ledger>(cells: &mut Cells, rows: &[u32], steps: &mut Steps<L>)
    requires { All (λ row. row < length cells.old.standings) rows.now }
    ensures value { cells.new ≡ record cells.old { standings = by_place (touch_at rows.now) cells.old.standings } }
    ensures cost { steps.new ≤ steps.old + 4 * length rows.now }
{
    for row in rows {
        let old = cells.at(*row, steps);
        let mut standing = old;
        standing.touched = true;
        cells.set(*row, &old, standing, steps);
    }
}

/// Notes that a row is done for which its users wait.
pub fn release<L: Ledger>(cells: &mut Cells, row: u32, steps: &mut Steps<L>)
    requires low { row < length cells.old.users }
    requires range { All (λ user. user < length cells.old.standings) (next_in cells.old.users row) }
    requires waiting { (user : ℕ) (standing : Standing) → slice_get cells.old.standings user ≡ Some standing
        → count_by (nat_eq user) (next_in cells.old.users row) ≤ standing.waits }
    ensures value { cells.new ≡ record cells.old { standings = by_place (release_at (next_in cells.old.users row)) cells.old.standings } }
    ensures cost { steps.new ≤ steps.old + 5 * length (next_in cells.old.users row) }
{
    for place in 0..cells.user_count(row) {
        let user = cells.user(row, place, steps);
        let old = cells.at(user, steps);
        let mut standing = old;
        standing.waits -= 1;
        cells.set(user, &old, standing, steps);
    }
}
