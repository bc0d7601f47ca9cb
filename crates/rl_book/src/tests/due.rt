//! Want of memory in the middle of a call: what is due executes later, and once.
use super::book::{asks, opens, state};
use super::{counts, is_due, is_settled, open, state_of, takes, used};
use crate::{Book, DeliverError, Mark, Took, Visit};
use rl_base::{Hears, Observer};
use rl_names::{Key, NoMemory, Text};
use rl_states::Phase;
use std::alloc::Global;
use std::slice;
use std::test::Fail;

/// Observers who find no memory for the execution of this number, counted from 1, when they are first told of it.
#[derive(Drop)]
struct Refusing {
    at: u32,
    heard: u32,
}

impl Hears for Refusing {
    ghost use Rattle.std.specs.Prelude.{⊤, [], false};

    ghost told = { λ _. [] };

    ghost says = { λ _ k s. false };

    ghost same = { λ first t. ⊤ };

    fn hear(&mut self, _key: &Key, _script: &[u8]) -> Result<bool, NoMemory> {
        if self.at == 1 {
            self.at = 0;
            return Err(NoMemory);
        }
        self.at = self.at.saturating_sub(1);
        self.heard = self.heard.saturating_add(1);
        Ok(false)
    }
}

/// `A` needs `B` and `E`, `B` needs `C`, and `E` came with the page.
const ROWS: &str =
    "[\"A\",\"aaaaa\",[1,3]],[\"B\",\"bbbbb\",[2]],[\"C\",\"ccccc\"],[\"E\",\"eeeee\"]";

const EMBEDDED: &str = "mw.loader.implement(\"E@eeeee\",\"e()\",{},{});\n";

const ANSWER: &str =
    "mw.loader.implement(\"A@aaaaa\",\"a()\",{},{});\nmw.loader.implement(\"B@bbbbb\",\"b()\",{},{});\nmw.loader.implement(\"C@ccccc\",\"c()\",{},{});\n";

fn opened(alloc: Global) -> Result<Visit, Fail> {
    Ok(open(alloc, ROWS, EMBEDDED)?.map_err(|_error| "a view")?)
}

/// Whether a request finds memory, by `using` or by `load`.
fn requests(visit: &mut Visit, name: &Text, together: bool, observers: &mut Refusing) -> bool {
    if together {
        visit.using(slice::from_ref(name), observers).is_ok()
    } else {
        visit.load(slice::from_ref(name), observers) == Ok(0)
    }
}

fn resumes(visit: &mut Visit, observers: &mut Refusing) -> bool {
    visit.resume(observers).is_ok()
}

/// Whether the answer is taken so.
fn answers(visit: &mut Visit, want: Result<Took, DeliverError>, observers: &mut Refusing) -> bool {
    let mark = Mark { link: 0, answer: 7 };
    visit.deliver(0, ANSWER.as_bytes(), mark, observers) == want
}

/// Whether the request is noted, and what it made due is left where the first execution finds no memory.
fn begins(
    visit: &mut Visit,
    name: &Text,
    at: u32,
    resumed: bool,
    observers: &mut Refusing,
) -> bool {
    let found = requests(visit, name, resumed, observers);
    found == (at != 1)
        && is_due(visit) == (at == 1)
        && (!resumed || resumes(visit, observers))
        && takes(visit)
}

/// Whether the answer is noted, and what it made due is left where a later execution finds no memory. It executes when it is
/// resumed, or at the next call, before that is served.
fn goes_on(visit: &mut Visit, at: u32, resumed: bool, observers: &mut Refusing) -> bool {
    let refused = at > 1;
    let want = if refused {
        Err(DeliverError::NoMemory)
    } else {
        used(3, 0)
    };
    let taken = answers(visit, want, observers) && is_due(visit) == refused;
    if resumed {
        taken && resumes(visit, observers)
    } else {
        taken && answers(visit, used(0, 3), observers)
    }
}

/// The row of an execution.
fn row_at(visit: &Visit, at: u32) -> Option<u32> {
    if at < visit.run_count() {
        Some(visit.run_at(at).row)
    } else {
        None
    }
}

/// Whether each row executed once, after what it needs.
fn is_over(visit: &Visit) -> bool {
    let mut all = !is_due(visit) && is_settled(visit);
    for (at, row) in [(0, 3), (1, 2), (2, 1), (3, 0)] {
        all &= row_at(visit, at) == Some(row);
    }
    for name in ["A", "B", "C", "E"] {
        all &= state_of(visit, name.as_bytes()) == Some(Phase::Ready);
    }
    all
}

/// Whether a page whose observers find no memory at one execution ends as one with ample memory.
fn ends(alloc: Global, at: u32, resumed: bool) -> Result<bool, Fail> {
    let name = Text::of(alloc, "A")?;
    let mut visit = opened(alloc)?;
    let mut observers = Refusing { at, heard: 0 };
    let went = begins(&mut visit, &name, at, resumed, &mut observers)
        && goes_on(&mut visit, at, resumed, &mut observers);
    let calls = if resumed { 3 } else { 4 };
    Ok(went && is_over(&visit) && observers.heard == 4 && counts(&visit) == (calls, 4, 1))
}

/// At no execution, and at each of the four in turn.
#[test]
fn what_is_due_executes_once(rt: HostRuntime) -> Result<(), Fail> {
    for at in 0..5 {
        assert!(rt; ends(rt.alloc(), at, true)?, "resumed, at {at}");
        assert!(rt; ends(rt.alloc(), at, false)?, "at the next call, at {at}");
    }
    Ok(())
}

/// A view of which two recorders are told.
fn recorded(alloc: Global) -> Result<Book, Fail> {
    match opens(alloc, ROWS, EMBEDDED, &["x", "y"])? {
        Ok(book) => Ok(book),
        Err(turned) => Err(turned.why)?,
    }
}

fn uses(book: &mut Book, name: &Text) -> bool {
    book.using(slice::from_ref(name)).is_ok()
}

fn is_answered(book: &mut Book) -> bool {
    let mark = Mark { link: 0, answer: 7 };
    book.deliver(0, ANSWER.as_bytes(), mark).is_ok()
}

fn is_resumed(book: &mut Book) -> bool {
    book.resume().is_ok()
}

/// Whether a name is requested. What finds no memory is called again where it was not noted, and else resumed.
fn uses_at_last(book: &mut Book, name: &Text) -> bool {
    let calls = book.call_count();
    if uses(book, name) {
        return true;
    }
    if book.call_count() == calls {
        uses(book, name)
    } else {
        is_resumed(book)
    }
}

/// Whether the answer is taken, in the same way.
fn is_answered_at_last(book: &mut Book) -> bool {
    let calls = book.call_count();
    if is_answered(book) {
        return true;
    }
    if book.call_count() == calls {
        is_answered(book)
    } else {
        is_resumed(book)
    }
}

fn heard_by(observer: &Box<dyn Observer + Send>) -> u32 {
    match observer.recorder() {
        Some(recorder) => recorder.count(),
        None => 0,
    }
}

/// Whether two observers were told of four executions each.
fn are_told(observers: &[Box<dyn Observer + Send>]) -> bool {
    let mut all = observers.len() == 2;
    for observer in observers {
        all &= heard_by(observer) == 4;
    }
    all
}

/// Whether three calls were noted, each row executed, and nothing is due.
fn is_whole(book: &Book) -> bool {
    state(book, "A") == Some(Phase::Ready)
        && !book.due()
        && book.settled()
        && book.call_count() == 3
        && book.run_count() == 4
}

/// From where the view is open on, one allocation may be refused. `tools/refuse_memory.py` refuses each in turn.
#[test]
fn a_page_goes_on(rt: HostRuntime) -> Result<(), Fail> {
    let alloc = rt.alloc();
    let name = Text::of(alloc, "A")?;
    let mut book = recorded(alloc)?;
    assert!(rt; uses_at_last(&mut book, &name));
    assert!(rt; asks(&mut book) || asks(&mut book));
    assert!(rt; is_answered_at_last(&mut book));
    assert!(rt; is_whole(&book));
    assert!(rt; are_told(book.leave().as_slice()));
    Ok(())
}
