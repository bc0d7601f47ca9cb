//! Outcomes that a table is given.
ghost use Rattle.std.specs.Prelude.{◌≡◌, ◌<◌, None, Some, All, length};
ghost use Rattle.rl_view_spec.specs.View.{GivenUp};
ghost use Rattle.rl_view.specs.Seen.{given_to};
ghost use Rattle.rl_book_spec.specs.Traffic.{asked_of};
ghost use Rattle.rl_book_spec.specs.declared.Asked.{Asked};
ghost use Rattle.rl_book_spec.specs.declared.Sent.{Sent};
ghost use Rattle.rl_book_spec.specs.Traffic.{after_loss};
ghost use Rattle.rl_book.specs.Calls.{losses_at};
ghost use Rattle.rl_book.specs.Kept.{after_giving_up, after_refusal, after_third, may_be_lost_at};

use rl_batch::Requests;
use rl_batch::requests::is_settled;
use rl_states::{Outcome, Steps, Table};
use rl_view::counts;
use std::marker::Brand;
use std::sync::ledger::{Blank, Ledger};

/// Gives up a row, where that counts.
fn give_up_row<L: Ledger>(table: &mut Table, row: u32, steps: &mut Steps<L>)
    requires within { row < length table.old.registered.rows }
    requires idle { table.old.executing ≡ None }
    ensures value { table.new ≡ given_to row (Some GivenUp) table.old }
    ensures idle { table.new.executing ≡ None }
    ensures long { length table.new.registered.rows ≡ length table.old.registered.rows }
{
    if counts(table, row) {
        table.outcome(row, Outcome::GivenUp, steps);
    }
}

/// Gives up these rows, where that counts.
fn give_up<L: Ledger>(table: &mut Table, rows: &[u32], blank: Blank)
    requires name { blank.name ≡ L.name }
    requires parts { blank.parts ≡ L.parts }
    requires some { 0 < L.parts }
    requires within { All (λ row. row < length table.old.registered.rows) rows.now }
    requires idle { table.old.executing ≡ None }
    ensures { table.new ≡ after_giving_up rows.now table.old }
{
    let mut steps = Steps::<L>::open(blank);
    for row in rows {
        give_up_row(table, *row, &mut steps);
    }
}

/// Gives up the rows of the batch of an ask, where the next loss of that batch is the third.
pub(crate) fn give_up_at_third<L: Ledger>(
    table: &mut Table,
    requests: &Requests,
    ask: u32,
    blank: Blank,
)
    requires name { blank.name ≡ L.name }
    requires parts { blank.parts ≡ L.parts }
    requires some { 0 < L.parts }
    requires within { (pair : Asked × Sent) → asked_of requests.now ask ≡ Some pair
        → All (λ row. row < length table.old.registered.rows) pair.1.batch.rows }
    requires idle { table.old.executing ≡ None }
    ensures { table.new ≡ after_third requests.now ask table.old }
{
    if let Some((_, sent)) = requests.asked(ask) {
        if sent.losses > 1 {
            give_up::<L>(table, sent.batch.rows.as_slice(), blank);
        }
    }
}

/// Whether an ask may be lost: it was not, and its batch is not settled.
fn is_open(requests: &Requests, ask: u32) -> bool
    ensures { result ≡ may_be_lost_at requests.now ask }
{
    match requests.asked(ask) {
        Some((asked, sent)) => !asked.lost && !is_settled(sent),
        None => false,
    }
}

/// Counts the loss of an ask, where it may be lost. The third of a batch gives up the rows that it asks for.
pub(crate) fn lose_open(table: &mut Table, requests: &mut Requests, ask: u32)
    requires within { (pair : Asked × Sent) → asked_of requests.old ask ≡ Some pair
        → All (λ row. row < length table.old.registered.rows) pair.1.batch.rows }
    requires idle { table.old.executing ≡ None }
    ensures table { table.new ≡ after_refusal requests.old ask table.old }
    ensures requests { requests.new ≡ after_loss requests.old ask }
{
    if is_open(requests, ask) {
        give_up_at_third::<Brand>(table, requests, ask, Blank::new(1));
        requests.lose(ask);
    }
}

/// How many asks of the batch of this one were lost.
pub(crate) fn losses_of(requests: &Requests, ask: u32) -> u32
    ensures { result ≡ losses_at requests.now ask }
{
    match requests.asked(ask) {
        Some((_, sent)) => sent.losses,
        None => 0,
    }
}
