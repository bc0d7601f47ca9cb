//! Rows that are touched, and what they are given at once.
ghost use Rattle.std.specs.Prelude.{◌≡◌, ◌<◌, ℕ, List, All, IsTrue, None, fold, is_some, length};
ghost use Rattle.rl_view_spec.specs.View.{kind_of};
ghost use Rattle.rl_view.specs.Seen.{after_answer, counts_at};
ghost use Rattle.rl_wire.specs.declared.part.Part.TheVariants.{State};
ghost use Rattle.rl_batch.specs.Given.{is_private_at};
ghost use Rattle.rl_book_spec.specs.Opening.{answer_of, part_name};
ghost use Rattle.rl_book.specs.Requesting.{after_held, after_request, answer_held_at, is_left_at};

use crate::held::Held;
use rl_names::{Group, StateKind};
use rl_registry::Registry;
use rl_states::{Outcome, Steps, Table};
use rl_view::{counts, uncounted};
use rl_wire::Part;
use std::marker::Brand;
use std::sync::ledger::{Blank, Ledger};

/// The name of a part.
pub(crate) fn name_of(part: &Part) -> &[u8]
    ensures { result.now ≡ part_name part.now }
{
    match part {
        Part::Impl { name, .. } => name.as_bytes(),
        Part::State { name, .. } => name.as_bytes(),
    }
}

/// What a row is answered with by a part that is none.
fn outcome_of(kind: StateKind) -> Outcome
    ensures { (name : List ℕ) → result ≡ kind_of (answer_of (State name kind)) }
{
    match kind {
        StateKind::Missing => Outcome::Missing,
        StateKind::Error => Outcome::Error,
    }
}

/// Gives a row a part, which counts for it.
pub(crate) fn give_part<L: Ledger>(table: &mut Table, row: u32, part: &Part, steps: &mut Steps<L>)
    requires within { row < length table.old.registered.rows }
    requires counts { IsTrue (counts_at table.old row) }
    requires idle { table.old.executing ≡ None }
    ensures { table.new ≡ after_answer row (answer_of part.now) table.old }
{
    match part {
        Part::Impl { version, .. } => {
            table.outcome(row, Outcome::Impl, steps);
            table.registry_mut(row, *version);
        }
        Part::State { kind, .. } => table.outcome(row, outcome_of(*kind), steps),
    }
}

/// Whether a row is private.
fn is_private(registry: &Registry, row: u32) -> bool
    requires { row < length registry.now.rows }
    ensures { result ≡ is_private_at registry.now row }
{
    matches!(registry.row_at(row).group, Group::Private)
}

/// Gives a row what it is given at once, or an error where it is private, if that counts.
fn give_row<L: Ledger>(table: &mut Table, held: &Held, row: u32, steps: &mut Steps<L>)
    requires within { row < length table.old.registered.rows }
    requires idle { table.old.executing ≡ None }
    ensures { table.new ≡ after_held held.now.gifts table.old row }
{
    if !counts(table, row) {
        return;
    }
    match held.part(row) {
        Some(part) => give_part(table, row, part, steps),
        None => {
            if is_private(table.registry(), row) {
                table.outcome(row, Outcome::Error, steps);
            }
        }
    }
}

/// Gives each of these rows what it is given at once, or an error where it is private, if that counts.
fn give_rows<L: Ledger>(table: &mut Table, held: &Held, rows: &[u32], blank: Blank)
    requires name { blank.name ≡ L.name }
    requires parts { blank.parts ≡ L.parts }
    requires some { 0 < L.parts }
    requires within { All (λ row. row < length table.old.registered.rows) rows.now }
    requires idle { table.old.executing ≡ None }
    ensures { table.new ≡ fold (after_held held.now.gifts) table.old rows.now }
{
    let mut steps = Steps::<L>::open(blank);
    for row in rows {
        give_row(table, held, *row, &mut steps);
    }
}

/// Touches rows, and gives each what it is given at once, or an error where it is private, if that counts.
pub(crate) fn touch_rows(table: &mut Table, held: &Held, rows: &[u32])
    requires within { All (λ row. row < length table.old.registered.rows) rows.now }
    requires idle { table.old.executing ≡ None }
    ensures { table.new ≡ after_request held.now.gifts rows.now table.old }
{
    uncounted::touch::<Brand>(table, rows, Blank::new(1));
    give_rows::<Brand>(table, held, rows, Blank::new(1));
}

/// Whether a row is answered as soon as it is touched.
fn is_answered(registry: &Registry, held: &Held, row: u32) -> bool
    requires within { row < length registry.now.rows }
    ensures { result ≡ is_some (answer_held_at held.now.gifts registry.now row) }
{
    match held.part(row) {
        Some(_) => true,
        None => is_private(registry, row),
    }
}

/// Whether a row is to be asked for: it was not touched before, is not skipped, and is not answered at once.
pub(crate) fn is_left(table: &Table, held: &Held, row: u32) -> bool
    requires within { row < length table.now.registered.rows }
    ensures { result ≡ is_left_at held.now.gifts table.now row }
{
    if table.touched(row) {
        return false;
    }
    if table.registry().skipped(row) {
        return false;
    }
    !is_answered(table.registry(), held, row)
}
