//! Deliveries: the parts of a well-formed answer that rows take.
ghost use Rattle.std.specs.Prelude.{◌≡◌, ◌<◌, ◌+◌, ◌≤◌, ℕ, List, All, IfOk, IfSome, Bool, IsTrue, None, OnErr, Some, length, slice_get};
ghost use Rattle.rl_view.specs.Seen.{counts_at};
ghost use Rattle.rl_book_spec.specs.Traffic.{asked_of};
ghost use Rattle.rl_book_spec.specs.declared.Asked.{Asked};
ghost use Rattle.rl_book_spec.specs.declared.Sent.{Sent};
ghost use Rattle.rl_book.specs.Delivering.{AreMarks, TakesNone, TakesParts, Taking, after_part, after_parts, row_for};

use crate::given::Delivered;
use crate::touching::{give_part, name_of};
use rl_batch::Requests;
use rl_book_spec::{Mark, Took};
use rl_names::NoMemory;
use rl_states::{Steps, Table};
use rl_view::counts;
use rl_wire::Part;
use std::alloc::Global;
use std::marker::Brand;
use std::sync::ledger::{Blank, Ledger};

/// Marks the numbers below a count that are among these.
fn marks_of(alloc: Global, count: u32, rows: &[u32]) -> Result<Vec<bool>, NoMemory>
    requires { All (λ row. row < count) rows.now }
    ensures { IfOk result (λ marks. AreMarks rows.now count marks.items) }
{
    let mut marks = vec![in alloc; false; count as usize]?;
    for row in rows {
        marks[*row as usize] = true;
    }
    Ok(marks)
}

/// Whether a number is marked.
fn is_marked(marks: &[bool], row: u32) -> bool
    ensures { (mark : Bool) → slice_get marks.now row ≡ Some mark → result ≡ mark }
{
    match marks.get(row as usize) {
        Some(mark) => *mark,
        None => false,
    }
}

/// The marked row that takes a part: the part counts for it.
fn taker(table: &Table, marks: &[bool], part: &Part) -> Option<u32>
    ensures row { (rows : List ℕ) → AreMarks rows (length table.now.registered.rows) marks.now → result ≡ row_for rows table.now part.now }
    ensures within { IfSome result (λ row. row < length table.now.registered.rows) }
    ensures counts { IfSome result (λ row. IsTrue (counts_at table.now row)) }
{
    let row = table.registry().find(name_of(part))?;
    if counts(table, row) && is_marked(marks, row) {
        Some(row)
    } else {
        None
    }
}

/// Gives a marked row a part, if one takes it, and tells how many took it.
fn take_part<L: Ledger>(
    table: &mut Table,
    delivered: &mut Vec<Option<Delivered>>,
    marks: &[bool],
    part: Part,
    mark: Mark,
    steps: &mut Steps<L>,
) -> usize
    requires idle { table.old.executing ≡ None }
    requires long { length delivered.old.items ≡ length table.old.registered.rows }
    ensures taken { (rows : List ℕ) (used : ℕ) → AreMarks rows (length table.old.registered.rows) marks.now
        → record { table = table.new; delivered = delivered.new.items; used = used + result }
        ≡ after_part rows mark (record { table = table.old; delivered = delivered.old.items; used = used }) part }
    ensures idle { table.new.executing ≡ None }
    ensures rows { length table.new.registered.rows ≡ length table.old.registered.rows }
    ensures long { length delivered.new.items ≡ length delivered.old.items }
    ensures few { result ≤ 1 }
{
    let Some(row) = taker(table, marks, &part) else {
        return 0;
    };
    give_part(table, row, &part, steps);
    delivered[row as usize] = Some(Delivered { part, mark });
    1
}

/// Gives marked rows the parts that count for them, in order, and tells how many did.
fn take_parts<L: Ledger>(
    table: &mut Table,
    delivered: &mut Vec<Option<Delivered>>,
    marks: &[bool],
    parts: Vec<Part>,
    mark: Mark,
    blank: Blank,
) -> usize
    requires name { blank.name ≡ L.name }
    requires parts { blank.parts ≡ L.parts }
    requires some { 0 < L.parts }
    requires idle { table.old.executing ≡ None }
    requires long { length delivered.old.items ≡ length table.old.registered.rows }
    ensures taken { (rows : List ℕ) → AreMarks rows (length table.old.registered.rows) marks.now
        → record { table = table.new; delivered = delivered.new.items; used = result }
        ≡ after_parts rows mark parts.items (record { table = table.old; delivered = delivered.old.items; used = 0 }) }
    ensures few { result ≤ length parts.items }
{
    let mut steps = Steps::<L>::open(blank);
    let mut used = 0;
    for part in parts {
        used += take_part(table, delivered, marks, part, mark, &mut steps);
    }
    used
}

/// Delivers the parts of a well-formed answer to an ask: the rows of its batch take those that count for them. It wants
/// memory only before anything changes.
pub(crate) fn deliver_parts(
    alloc: Global,
    table: &mut Table,
    delivered: &mut Vec<Option<Delivered>>,
    requests: &mut Requests,
    ask: u32,
    parts: Vec<Part>,
    mark: Mark,
) -> Result<Took, NoMemory>
    requires ask { ask < length requests.old.asks }
    requires within { (pair : Asked × Sent) → asked_of requests.old ask ≡ Some pair
        → All (λ row. row < length table.old.registered.rows) pair.1.batch.rows }
    requires idle { table.old.executing ≡ None }
    requires long { length delivered.old.items ≡ length table.old.registered.rows }
    ensures ok { IfOk result (λ took. TakesParts ask parts.items mark took table.old table.new
        delivered.old.items delivered.new.items requests.old requests.new) }
    ensures err { OnErr result (TakesNone table.old table.new delivered.old.items delivered.new.items requests.old requests.new) }
{
    let count = table.registry().count();
    let Some((_, sent)) = requests.asked(ask) else {
        unreachable!()
    };
    let marks = marks_of(alloc, count, sent.batch.rows.as_slice())?;
    let all = parts.len();
    if all > 0xFFFF_FFFF {
        return Err(NoMemory);
    }
    let used = take_parts::<Brand>(
        table,
        delivered,
        marks.as_slice(),
        parts,
        mark,
        Blank::new(1),
    );
    requests.deliver(ask);
    Ok(Took {
        used: used as u32,
        passed: (all - used) as u32,
    })
}
