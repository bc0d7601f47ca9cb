//! What is counted: the accesses to the cells of rows, to the entries of rows that need a row, and to the numbers of
//! blocks. One type holds them all. Only this module counts, and what it holds is read in no other way, but for what
//! only looks on.
ghost use Rattle.std.specs.Prelude.{◌≡◌, slice_get};

use crate::cell::{Cell, Mark, clean_cells};
use crate::standing::{Standing, open_standings};
use rl_graph::reversed;
use rl_names::NoMemory;
use rl_registry::Registry;
use std::alloc::Global;
use std::marker::Model;
use std::sync::ledger::{Blank, Book, Ledger, Share};

/// How many rows stand in a block.
pub const BLOCK: usize = 64;

/// How many accesses were made. It takes no bytes, and only an access makes it more.
#[derive(Drop)]
pub struct Steps<L: Ledger> {
    book: Book<L>,
    share: Share<L>,
}

impl<L: Ledger> Model for Steps<L> {
    ghost use Rattle.std.specs.Prelude.{ℕ, ◌<◌};

    ghost Value = { ℕ };

    ghost view = { λ s. s.book.total };

    ghost invariant = { λ s. 0 < s.share.parts };
}

impl<L: Ledger> Steps<L> {
    ghost use Rattle.std.specs.Prelude.{◌≡◌, ◌+◌, ◌<◌};

    /// A counter that stands at 0.
    pub fn open(blank: Blank) -> Steps<L>
        requires name { blank.name ≡ L.name }
        requires parts { blank.parts ≡ L.parts }
        requires some { 0 < L.parts }
        ensures { result ≡ 0 }
    {
        let (book, share) = blank.open();
        Steps { book, share }
    }

    /// One access more.
    fn tick(&mut self)
        ensures { self.new ≡ self.old + 1 }
    {
        self.book.add(&mut self.share, 1);
    }
}

/// The cells of the rows, for each row the other rows that need it, once for each time that they name it, and for each
/// block of rows how many of them may run.
#[derive(Drop)]
pub struct Counted {
    cells: Vec<Cell>,
    users: Vec<Vec<u32>>,
    runnable: Vec<usize>,
}

impl Model for Counted {
    ghost use Rattle.rl_states.specs.Counted.{Held, held_in};

    ghost Value = { Held };

    ghost view = { λ c. held_in c.cells.items c.users.items c.runnable.items };
}

impl Counted {
    ghost use Rattle.std.specs.Prelude.{◌≡◌, ◌+◌, ◌<◌, length, map, IfOk, Some, slice_get, slice_set};
    ghost use Rattle.rl_graph.specs.Graph.{next_in, marked};
    ghost use Rattle.rl_states.specs.Cells.{AreCounted};
    ghost use Rattle.rl_states.specs.Counted.{clean};
    ghost use Rattle.rl_states.specs.Spoiled.{spoiled_in};
    ghost use Rattle.rl_states.specs.Standings.{for_rows, fresh};
    ghost use Rattle.rl_states.specs.Users.{AreUsers};

    /// Rows to which nothing happened, with their users.
    pub fn open(alloc: Global, registry: &Registry) -> Result<Counted, NoMemory>
        ensures standings { IfOk result (λ held. held.standings ≡ for_rows registry.now (fresh registry.now)) }
        ensures marks { IfOk result (λ held. held.marks ≡ map (λ _. clean) (for_rows registry.now (fresh registry.now))) }
        ensures users { IfOk result (λ held. AreUsers registry.now held.users) }
        ensures runnable { IfOk result (λ held. AreCounted held.standings held.runnable) }
    {
        let standings = open_standings(alloc, registry)?;
        let cells = clean_cells(alloc, standings.as_slice())?;
        let users = reversed(alloc, registry.edges())?;
        let blocks = (registry.count() as usize).div_ceil(BLOCK);
        let runnable = vec![in alloc; 0; blocks]?;
        Ok(Counted {
            cells,
            users,
            runnable,
        })
    }

    /// How many rows there are.
    pub fn rows(&self) -> usize
        ensures standings { result ≡ length self.now.standings }
        ensures marks { result ≡ length self.now.marks }
    {
        self.cells.len()
    }

    /// How many blocks there are.
    pub fn blocks(&self) -> usize
        ensures { result ≡ length self.now.runnable }
    {
        self.runnable.len()
    }

    /// How far a row has come.
    pub fn standing<L: Ledger>(&self, row: usize, steps: &mut Steps<L>) -> Standing
        requires { row < length self.now.standings }
        ensures value { slice_get self.now.standings row ≡ Some result }
        ensures cost { steps.new ≡ steps.old + 1 }
    {
        steps.tick();
        self.cells[row].standing
    }

    pub fn set_standing<L: Ledger>(&mut self, row: usize, standing: Standing, steps: &mut Steps<L>)
        requires { row < length self.old.standings }
        ensures value { self.new ≡ record self.old { standings = slice_set self.old.standings row standing } }
        ensures cost { steps.new ≡ steps.old + 1 }
    {
        steps.tick();
        self.cells[row].standing = standing;
    }

    /// What is noted of a row's failure.
    pub fn mark<L: Ledger>(&self, row: usize, steps: &mut Steps<L>) -> Mark
        requires { row < length self.now.marks }
        ensures value { slice_get self.now.marks row ≡ Some result }
        ensures cost { steps.new ≡ steps.old + 1 }
    {
        steps.tick();
        self.cells[row].mark
    }

    pub fn set_mark<L: Ledger>(&mut self, row: usize, mark: Mark, steps: &mut Steps<L>)
        requires { row < length self.old.marks }
        ensures value { self.new ≡ record self.old { marks = slice_set self.old.marks row mark } }
        ensures cost { steps.new ≡ steps.old + 1 }
    {
        steps.tick();
        self.cells[row].mark = mark;
    }

    /// How many rows of a block may run.
    pub fn runnable<L: Ledger>(&self, block: usize, steps: &mut Steps<L>) -> usize
        requires { block < length self.now.runnable }
        ensures value { slice_get self.now.runnable block ≡ Some result }
        ensures cost { steps.new ≡ steps.old + 1 }
    {
        steps.tick();
        self.runnable[block]
    }

    pub fn set_runnable<L: Ledger>(&mut self, block: usize, runnable: usize, steps: &mut Steps<L>)
        requires { block < length self.old.runnable }
        ensures value { self.new ≡ record self.old { runnable = slice_set self.old.runnable block runnable } }
        ensures cost { steps.new ≡ steps.old + 1 }
    {
        steps.tick();
        self.runnable[block] = runnable;
    }

    /// How many times other rows need this one.
    pub fn user_count(&self, row: u32) -> usize
        requires { row < length self.now.users }
        ensures { result ≡ length (next_in self.now.users row) }
    {
        self.users_of(row).len()
    }

    /// A row that needs this one, by its place in the list.
    pub fn user<L: Ledger>(&self, row: u32, at: usize, steps: &mut Steps<L>) -> u32
        requires row { row < length self.now.users }
        requires at { at < length (next_in self.now.users row) }
        ensures value { slice_get (next_in self.now.users row) at ≡ Some result }
        ensures cost { steps.new ≡ steps.old + 1 }
    {
        steps.tick(); // an entry
        self.users_of(row)[at]
    }

    /// The rows that need this one.
    fn users_of(&self, row: u32) -> &[u32]
        requires { row < length self.now.users }
        ensures { result.now ≡ next_in self.now.users row }
    {
        self.users[row as usize].as_slice()
    }

    /// How far a row has come, where there is such a row. It counts nothing: it is for what only looks on.
    pub fn peek(&self, row: u32) -> Option<Standing>
        ensures { result ≡ slice_get self.now.standings row }
    {
        match cell_at(self.cells.as_slice(), row) {
            Some(cell) => Some(cell.standing),
            None => None,
        }
    }

    /// Whether a row cannot become ready. It counts nothing.
    pub fn is_spoiled(&self, row: u32) -> bool
        ensures { result ≡ marked (spoiled_in self.now.marks) row }
    {
        match cell_at(self.cells.as_slice(), row) {
            Some(cell) => cell.mark.spoiled,
            None => false,
        }
    }
}

/// A cell, where there is one.
fn cell_at(cells: &[Cell], row: u32) -> Option<Cell>
    ensures { result ≡ slice_get cells.now row }
{
    cells.get(row as usize).copied()
}
