//! Views, run with ample memory.
ghost use Rattle.std.specs.Prelude.{IfOk};
ghost use Rattle.rl_batch.specs.Given.{IsBase};

mod book;
mod due;
mod page;
mod stored;

use crate::{DeliverError, LoseRefusal, Lost, Mark, OpenError, Plan, Took, Visit};
use rl_base::Hears;
use rl_names::{Blob, Key, NoMemory, Only, Query, Seq, Text};
use rl_states::Phase;
use rl_store::Store;
use std::alloc::Global;
use std::slice;
use std::test::Fail;

/// What `lang=en&skin=vector` reads as.
fn base(alloc: Global) -> Result<Query, Fail>
    ensures { IfOk result IsBase }
{
    Ok(Query {
        modules: Text::of(alloc, "")?,
        lang: Text::of(alloc, "en")?,
        skin: Text::of(alloc, "vector")?,
        debug: false,
        only: Only::All,
        user: Text::of(alloc, "")?,
        version: Text::of(alloc, "")?,
    })
}

/// The plan with this embedded text.
fn plan(alloc: Global, embedded: &str) -> Result<Plan, Fail>
    ensures { IfOk result (λ plan. IsBase plan.base) }
{
    Ok(Plan {
        base: base(alloc)?,
        features: Seq::of(Vec::new(alloc)),
        embedded: Blob::of(alloc, embedded.as_bytes())?,
        limit: 2_000,
    })
}

/// A view over these rows, as the startup text has them, and this embedded text.
fn open(alloc: Global, rows: &str, embedded: &str) -> Result<Result<Visit, OpenError>, Fail> {
    let startup = format!(in alloc;
        "mw.loader.addSource({{\"local\":\"/load.php\"}});\nmw.loader.register([{rows}]);\n"
    )?;
    let store = Store::empty(alloc, b"vector|1|en")?;
    match Visit::open(alloc, startup.as_bytes(), plan(alloc, embedded)?, store) {
        Ok(visit) => Ok(Ok(visit)),
        Err(turned) => Ok(Err(turned.why)),
    }
}

/// What is told of a view that does not open.
fn why(alloc: Global, rows: &str, embedded: &str) -> Result<String, Fail> {
    match open(alloc, rows, embedded)? {
        Ok(_) => format!(in alloc; "opens").map_err(Fail::from),
        Err(error) => format!(in alloc; "{error}").map_err(Fail::from),
    }
}

const TWO: &str = "[\"a\",\"aaaaa\",[1]],[\"b\",\"bbbbb\"]";

#[test]
fn views_that_do_not_open(rt: HostRuntime) -> Result<(), Fail> {
    let alloc = rt.alloc();
    for (rows, embedded, want) in [
        (TWO, "", "opens"),
        ("[\"a\"]", "mw.\n", "line 2 of the startup text is bad"),
        (TWO, "mw.\n", "line 1 of the embedded text is bad"),
        (
            "[\"a\",\"aaaaa\"],[\"a\",\"bbbbb\"]",
            "",
            "two rows are named a",
        ),
        (
            "[\"a\",\"aaaaa\",[7]]",
            "",
            "row 0 depends on row 7, and there is none",
        ),
    ] {
        assert_eq!(rt; why(alloc, rows, embedded)?.as_str(), want);
    }
    Ok(())
}

fn opened(alloc: Global) -> Result<Visit, Fail> {
    Ok(open(alloc, TWO, "")?.map_err(|_error| "a view")?)
}

fn state_of(visit: &Visit, name: &[u8]) -> Option<Phase> {
    visit.state_of(name)
}

fn is_settled(visit: &Visit) -> bool {
    visit.settled()
}

fn is_due(visit: &Visit) -> bool {
    visit.due()
}

fn is_waiting(visit: &Visit) -> bool {
    visit.waiting()
}

fn row_count(visit: &Visit) -> u32 {
    visit.registry().count()
}

#[test]
fn a_view_of_which_nothing_was_requested(rt: HostRuntime) -> Result<(), Fail> {
    let visit = opened(rt.alloc())?;
    assert_eq!(rt; state_of(&visit, b"a"), Some(Phase::Registered));
    assert_eq!(rt; state_of(&visit, b"c"), None);
    assert_eq!(rt; row_count(&visit), 2);
    assert!(rt; is_settled(&visit));
    assert!(rt; !is_due(&visit));
    assert!(rt; !is_waiting(&visit));
    Ok(())
}

fn limit_of(visit: &Visit) -> u32 {
    visit.plan().limit
}

fn begins_as_written(visit: &Visit) -> bool {
    visit.opening_startup().starts_with(b"mw.loader.addSource(")
}

/// How many calls, executions and asks there are.
fn counts(visit: &Visit) -> (u32, u32, u32) {
    (visit.call_count(), visit.run_count(), visit.ask_count())
}

#[test]
fn what_a_view_was_opened_with(rt: HostRuntime) -> Result<(), Fail> {
    let visit = opened(rt.alloc())?;
    assert_eq!(rt; limit_of(&visit), 2_000);
    assert!(rt; begins_as_written(&visit));
    assert!(rt; counts(&visit) == (0, 0, 0));
    Ok(())
}

/// Whether nothing is asked for.
fn asks_for_nothing(visit: &mut Visit) -> Result<bool, Fail> {
    Ok(visit.take()?.is_none())
}

/// An ask of none stands among the calls.
#[test]
fn nothing_waits(rt: HostRuntime) -> Result<(), Fail> {
    let mut visit = opened(rt.alloc())?;
    assert!(rt; asks_for_nothing(&mut visit)?);
    assert!(rt; counts(&visit) == (1, 0, 0));
    Ok(())
}

/// Whether the loss of an ask is refused in this way.
fn is_refused(visit: &mut Visit, ask: u32, refusal: LoseRefusal) -> bool {
    visit.lose(ask, None) == Err(refusal)
}

#[test]
fn a_loss_of_no_ask(rt: HostRuntime) -> Result<(), Fail> {
    let mut visit = opened(rt.alloc())?;
    let refusal = LoseRefusal::NoSuchAsk { ask: 3, asks: 0 };
    assert!(rt; is_refused(&mut visit, 3, refusal));
    Ok(())
}

/// Observers who throw for nothing.
#[derive(Drop)]
struct Silent {
    heard: u32,
}

impl Hears for Silent {
    ghost use Rattle.std.specs.Prelude.{⊤, [], false};

    ghost told = { λ _. [] };

    ghost says = { λ _ k s. false };

    ghost same = { λ first t. ⊤ };

    fn hear(&mut self, _key: &Key, _script: &[u8]) -> Result<bool, NoMemory> {
        self.heard = self.heard.saturating_add(1);
        Ok(false)
    }
}

/// Whether all that is due executes.
fn resumes(visit: &mut Visit, observers: &mut Silent) -> bool {
    visit.resume(observers).is_ok()
}

/// Where nothing is due nobody hears anything.
#[test]
fn nothing_is_due(rt: HostRuntime) -> Result<(), Fail> {
    let mut visit = opened(rt.alloc())?;
    let mut observers = Silent { heard: 0 };
    assert!(rt; resumes(&mut visit, &mut observers));
    assert!(rt; observers.heard == 0);
    assert!(rt; counts(&visit) == (0, 0, 0));
    Ok(())
}

/// Whether a name is requested.
fn uses(visit: &mut Visit, name: Text, observers: &mut Silent) -> bool {
    visit.using(slice::from_ref(&name), observers).is_ok()
}

/// A row that nothing came for waits to be asked for.
#[test]
fn a_requested_name_waits(rt: HostRuntime) -> Result<(), Fail> {
    let alloc = rt.alloc();
    let mut visit = opened(alloc)?;
    let name = Text::of(alloc, "b")?;
    assert!(rt; uses(&mut visit, name, &mut Silent { heard: 0 }));
    assert!(rt; is_waiting(&visit));
    assert!(rt; counts(&visit) == (1, 0, 0));
    Ok(())
}

fn opened_with_part(alloc: Global) -> Result<Visit, Fail> {
    let part = "mw.loader.implement(\"e@96okj\",\"e()\\n\",{},{});\n";
    Ok(open(alloc, "[\"e\",\"eeeee\"]", part)?.map_err(|_error| "a view")?)
}

/// What came with the page executes as soon as it is requested.
#[test]
fn an_embedded_part_executes(rt: HostRuntime) -> Result<(), Fail> {
    let alloc = rt.alloc();
    let mut visit = opened_with_part(alloc)?;
    let mut observers = Silent { heard: 0 };
    let name = Text::of(alloc, "e")?;
    assert!(rt; uses(&mut visit, name, &mut observers));
    assert!(rt; observers.heard == 1);
    assert!(rt; counts(&visit) == (1, 1, 0));
    Ok(())
}

/// At how many places a name is dropped, of a row and of none.
fn drops(visit: &mut Visit, names: &[Text], observers: &mut Silent) -> Result<u32, NoMemory> {
    visit.load(names, observers)
}

/// Each place of a name that does not resolve is counted.
#[test]
fn names_that_are_dropped(rt: HostRuntime) -> Result<(), Fail> {
    let alloc = rt.alloc();
    let mut visit = opened(alloc)?;
    let mut names = Vec::new(alloc);
    for name in ["x", "b", "x"] {
        names.push(Text::of(alloc, name)?)?;
    }
    let dropped = drops(&mut visit, names.as_slice(), &mut Silent { heard: 0 })?;
    assert!(rt; dropped == 2);
    assert!(rt; is_waiting(&visit));
    Ok(())
}

/// Whether a batch is asked for.
fn takes(visit: &mut Visit) -> bool {
    match visit.take() {
        Ok(ask) => ask.is_some(),
        Err(NoMemory) => false,
    }
}

/// Whether the delivery of these bytes to an ask is answered so.
fn delivers(
    visit: &mut Visit,
    ask: u32,
    bytes: &str,
    want: Result<Took, DeliverError>,
    observers: &mut Silent,
) -> bool {
    let mark = Mark { link: 0, answer: 7 };
    visit.deliver(ask, bytes.as_bytes(), mark, observers) == want
}

/// Whether the loss of an ask is answered so.
fn loses(visit: &mut Visit, ask: u32, want: Result<Lost, LoseRefusal>) -> bool {
    visit.lose(ask, None) == want
}

const PART: &str = "mw.loader.implement(\"b@96okj\",\"b()\\n\",{},{});\n";

fn used(used: u32, passed: u32) -> Result<Took, DeliverError> {
    Ok(Took { used, passed })
}

/// A view that asked for `b` once.
fn asked(alloc: Global, observers: &mut Silent) -> Result<Visit, Fail> {
    let mut visit = opened(alloc)?;
    let name = Text::of(alloc, "b")?;
    if !uses(&mut visit, name, observers) || !takes(&mut visit) {
        return Err("a request")?;
    }
    Ok(visit)
}

/// What is delivered executes, once.
#[test]
fn an_answer_executes(rt: HostRuntime) -> Result<(), Fail> {
    let mut observers = Silent { heard: 0 };
    let mut visit = asked(rt.alloc(), &mut observers)?;
    assert!(rt; delivers(&mut visit, 0, PART, used(1, 0), &mut observers));
    assert!(rt; delivers(&mut visit, 0, PART, used(0, 1), &mut observers));
    assert!(rt; observers.heard == 1);
    assert!(rt; is_settled(&visit));
    assert_eq!(rt; state_of(&visit, b"b"), Some(Phase::Ready));
    Ok(())
}

/// What is no answer counts as a loss of its ask, once. The third loss gives the batch up, and what comes late is passed
/// over.
#[test]
fn losses_and_refusals(rt: HostRuntime) -> Result<(), Fail> {
    let mut observers = Silent { heard: 0 };
    let mut visit = asked(rt.alloc(), &mut observers)?;
    let bad = |tries| Err(DeliverError::BadWire { line: 1, tries });
    assert!(rt; delivers(&mut visit, 0, "x", bad(1), &mut observers));
    assert!(rt; loses(&mut visit, 0, Err(LoseRefusal::LostBefore { ask: 0 })));
    assert!(rt; delivers(&mut visit, 0, "x", bad(1), &mut observers));
    assert!(rt; takes(&mut visit));
    assert!(rt; loses(&mut visit, 1, Ok(Lost::Again { tries: 2 })));
    assert!(rt; takes(&mut visit));
    assert!(rt; loses(&mut visit, 2, Ok(Lost::GivenUp)));
    assert!(rt; loses(&mut visit, 2, Err(LoseRefusal::Settled { ask: 2 })));
    assert!(rt;
        loses(
            &mut visit,
            3,
            Err(LoseRefusal::NoSuchAsk { ask: 3, asks: 3 })
        )
    );
    assert!(rt; delivers(&mut visit, 1, PART, used(0, 1), &mut observers));
    assert!(rt; delivers(&mut visit, 2, "x", bad(3), &mut observers));
    assert!(rt;
        delivers(
            &mut visit,
            3,
            PART,
            Err(DeliverError::NoSuchAsk { ask: 3, asks: 3 }),
            &mut observers
        )
    );
    assert_eq!(rt; state_of(&visit, b"b"), Some(Phase::Error));
    Ok(())
}
