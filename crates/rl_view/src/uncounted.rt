//! Calls of a table whose steps nobody counts.
ghost use Rattle.std.specs.Prelude.{◌≡◌, ◌<◌, Some, None, length, All, IsTrue, IsFalse};
ghost use Rattle.rl_view_spec.specs.Progress.{is_touched_at, is_skipped_at, outcome_at, next_row};
ghost use Rattle.rl_states.specs.Changes.{after_touch, after_outcome, after_ran};

use rl_states::{Outcome, Steps, Table};
use std::sync::ledger::{Blank, Ledger};

/// Notes in a table that rows were requested.
pub fn touch<L: Ledger>(table: &mut Table, rows: &[u32], blank: Blank)
    requires name { blank.name ≡ L.name }
    requires parts { blank.parts ≡ L.parts }
    requires some { 0 < L.parts }
    requires within { All (λ row. row < length table.old.registered.rows) rows.now }
    ensures { table.new ≡ after_touch rows.now table.old }
{
    let mut steps = Steps::<L>::open(blank);
    table.touch(rows, &mut steps);
}

/// Notes in a table what a row was answered with.
pub fn outcome<L: Ledger>(table: &mut Table, row: u32, outcome: Outcome, blank: Blank)
    requires name { blank.name ≡ L.name }
    requires parts { blank.parts ≡ L.parts }
    requires some { 0 < L.parts }
    requires touched { IsTrue (is_touched_at table.old row) }
    requires kept { IsFalse (is_skipped_at table.old.registered row) }
    requires first { outcome_at table.old row ≡ None }
    requires idle { table.old.executing ≡ None }
    ensures { table.new ≡ after_outcome row outcome table.old }
{
    let mut steps = Steps::<L>::open(blank);
    table.outcome(row, outcome, &mut steps);
}

/// The row of least number that may run, if there is one.
pub fn first_run<L: Ledger>(table: &Table, blank: Blank) -> Option<u32>
    requires name { blank.name ≡ L.name }
    requires parts { blank.parts ≡ L.parts }
    requires some { 0 < L.parts }
    ensures { result ≡ next_row table.now }
{
    let mut steps = Steps::<L>::open(blank);
    table.first_run(&mut steps)
}

/// Notes in a table that a row ran, the one of least number that may, and whether an observer threw.
pub fn run<L: Ledger>(table: &mut Table, row: u32, threw: bool, blank: Blank)
    requires name { blank.name ≡ L.name }
    requires parts { blank.parts ≡ L.parts }
    requires some { 0 < L.parts }
    requires idle { table.old.executing ≡ None }
    requires next { next_row table.old ≡ Some row }
    ensures { table.new ≡ after_ran row threw table.old }
{
    let mut steps = Steps::<L>::open(blank);
    table.next_run(&mut steps);
    table.ran(row, threw, &mut steps);
}
