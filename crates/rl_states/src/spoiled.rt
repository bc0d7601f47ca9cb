//! Rows that cannot become ready, and how they spread to the rows that need them. Each has a broken row in its closure.
ghost use Rattle.std.specs.Prelude.{◌≡◌, ◌<◌, ◌≤◌, ◌+◌, ◌*◌, ◌∷◌, [], length, All};
ghost use Rattle.rl_graph.specs.Graph.{next_in, IsWithin};
ghost use Rattle.rl_graph.specs.Marks.{IsClosed, Spreads};
ghost use Rattle.rl_states.specs.Spoiled.{all_pushed, left, pushed, spoiled_in, weight};

use crate::cell::Mark;
use crate::counted::{Counted, Steps};
use std::sync::ledger::Ledger;

/// Notes a row as the first whose failure is to be passed on, unless it is noted already.
fn push<L: Ledger>(
    held: &mut Counted,
    head: Option<u32>,
    row: u32,
    steps: &mut Steps<L>,
) -> Option<u32>
    requires { row < length held.old.marks }
    ensures marks { held.new ≡ record held.old { marks = (pushed (held.old.marks, head) row).0 } }
    ensures head { result ≡ (pushed (held.old.marks, head) row).1 }
    ensures cost { steps.new ≤ steps.old + 2 }
{
    let mark = held.mark(row as usize, steps);
    if mark.spoiled {
        return head;
    }
    let noted = Mark {
        spoiled: true,
        next: head,
    };
    held.set_mark(row as usize, noted, steps);
    Some(row)
}

/// Notes each of the rows that need this one.
fn push_users<L: Ledger>(
    held: &mut Counted,
    head: Option<u32>,
    row: u32,
    steps: &mut Steps<L>,
) -> Option<u32>
    requires row { row < length held.old.users }
    requires low { All (λ user. user < length held.old.marks) (next_in held.old.users row) }
    ensures marks { held.new ≡ record held.old { marks = (all_pushed (held.old.marks, head) (next_in held.old.users row)).0 } }
    ensures head { result ≡ (all_pushed (held.old.marks, head) (next_in held.old.users row)).1 }
    ensures cost { steps.new ≤ steps.old + 3 * length (next_in held.old.users row) }
{
    let mut first = head;
    for place in 0..held.user_count(row) {
        let user = held.user(row, place, steps);
        first = push(held, first, user, steps);
    }
    first
}

/// Notes a row, and with each row all that need it. Each row is passed on once.
pub fn spread<L: Ledger>(held: &mut Counted, row: u32, steps: &mut Steps<L>)
    requires long { length held.old.marks ≡ length held.old.users }
    requires low { row < length held.old.marks }
    requires within { IsWithin held.old.users }
    requires closed { IsClosed held.old.users (spoiled_in held.old.marks) }
    ensures rest { held.new ≡ record held.old { marks = held.new.marks } }
    ensures long { length held.new.marks ≡ length held.old.marks }
    ensures spreads { Spreads held.old.users (row ∷ []) (spoiled_in held.old.marks) (spoiled_in held.new.marks) }
    ensures cost { steps.new + left (weight held.old.users) (spoiled_in held.new.marks)
        ≤ steps.old + left (weight held.old.users) (spoiled_in held.old.marks) + 2 }
{
    let mut head = push(held, None, row, steps);
    for _turn in 0..held.rows() {
        match head {
            None => return,
            Some(at) => {
                let mark = held.mark(at as usize, steps);
                head = push_users(held, mark.next, at, steps);
            }
        }
    }
}
