//! Views with their observers in boxes.
use super::{plan, used};
use crate::{Book, DeliverError, Lost, Mark, Took, Turned};
use rl_base::{Observer, Recorder};
use rl_names::{Name, Text};
use rl_states::Phase;
use rl_store::Store;
use std::alloc::Global;
use std::slice;
use std::test::Fail;

/// Observers, each a recorder that throws for one of these names.
fn recorders(alloc: Global, names: &[&str]) -> Result<Vec<Box<dyn Observer + Send>>, Fail> {
    let mut observers: Vec<Box<dyn Observer + Send>> = Vec::new(alloc);
    for name in names {
        let mut throws = Vec::new(alloc);
        throws.push(Name::read(alloc, name.as_bytes())?)?;
        observers.push(Box::new(alloc, Recorder::new(alloc, throws))?)?;
    }
    Ok(observers)
}

/// What opening a view over these rows and this embedded text gives, for recorders that throw for these names.
pub(super) fn opens(
    alloc: Global,
    rows: &str,
    embedded: &str,
    names: &[&str],
) -> Result<Result<Book, Turned>, Fail> {
    let startup = format!(in alloc;
        "mw.loader.addSource({{\"local\":\"/load.php\"}});\nmw.loader.register([{rows}]);\n"
    )?;
    let observers = recorders(alloc, names)?;
    let store = Store::empty(alloc, b"vector|1|en")?;
    Ok(Book::open(
        alloc,
        startup.as_bytes(),
        plan(alloc, embedded)?,
        store,
        observers,
    ))
}

pub(super) fn opened(
    alloc: Global,
    rows: &str,
    embedded: &str,
    names: &[&str],
) -> Result<Book, Fail> {
    match opens(alloc, rows, embedded, names)? {
        Ok(book) => Ok(book),
        Err(_turned) => Err("a view")?,
    }
}

/// How many observers are handed back where a book does not open.
fn turned(alloc: Global) -> Result<usize, Fail> {
    match opens(alloc, "[\"a\"]", "mw.\n", &["x", "y"])? {
        Ok(_book) => Ok(0),
        Err(turned) => Ok(turned.observers.len()),
    }
}

#[test]
fn observers_of_a_view_that_does_not_open(rt: HostRuntime) -> Result<(), Fail> {
    assert!(rt; turned(rt.alloc())? == 2);
    Ok(())
}

/// Whether a name is requested.
fn requests(book: &mut Book, name: Text) -> bool {
    book.using(slice::from_ref(&name)).is_ok()
}

/// Whether a batch is asked for.
pub(super) fn asks(book: &mut Book) -> bool {
    match book.take() {
        Ok(ask) => ask.is_some(),
        Err(_error) => false,
    }
}

/// Whether a delivery is answered so.
pub(super) fn answers(
    book: &mut Book,
    ask: u32,
    bytes: &str,
    want: Result<Took, DeliverError>,
) -> bool {
    book.deliver(ask, bytes.as_bytes(), Mark { link: 0, answer: 7 }) == want
}

/// Whether all of these texts are taken by the first ask, each for one row.
fn takes_each(book: &mut Book, texts: &[&str]) -> bool {
    let mut all = true;
    for text in texts {
        all &= answers(book, 0, text, used(1, 0));
    }
    all
}

pub(super) fn state(book: &Book, name: &str) -> Option<Phase> {
    book.state_of(name.as_bytes())
}

const PRIVATE: &str = "[\"a\",\"aaaaa\"],[\"p\",\"\",[],1]";

/// What becomes of a private row, and whether it is asked for.
fn private_row(alloc: Global, embedded: &str) -> Result<(Option<Phase>, u32, bool), Fail> {
    let mut book = opened(alloc, PRIVATE, embedded, &[])?;
    let name = Text::of(alloc, "p")?;
    let requested = requests(&mut book, name);
    let asked = asks(&mut book);
    Ok((state(&book, "p"), book.run_count(), requested && !asked))
}

#[test]
fn private_rows(rt: HostRuntime) -> Result<(), Fail> {
    let part = "mw.loader.implement(\"p@96okj\",\"p()\\n\",{},{});\n";
    assert!(rt; private_row(rt.alloc(), "")? == (Some(Phase::Error), 0, true));
    assert!(rt; private_row(rt.alloc(), part)? == (Some(Phase::Ready), 1, true));
    Ok(())
}

const CHAIN: &str = "[\"A\",\"aaaaa\",[1]],[\"B\",\"bbbbb\",[2]],[\"C\",\"ccccc\"]";

const A: &str = "mw.loader.implement(\"A@aaaaa\",\"a()\",{},{});\n";

const B: &str = "mw.loader.implement(\"B@bbbbb\",\"b()\",{},{});\n";

const C: &str = "mw.loader.implement(\"C@ccccc\",\"c()\",{},{});\n";

const NO_B: &str = "mw.loader.state({\"B\":\"missing\"});\n";

/// A view of the chain, whose rows were asked for together, after the first ask was answered by these texts.
fn answered(alloc: Global, texts: &[&str], names: &[&str]) -> Result<Book, Fail> {
    let mut book = opened(alloc, CHAIN, "", names)?;
    let name = Text::of(alloc, "A")?;
    if requests(&mut book, name) && asks(&mut book) && takes_each(&mut book, texts) {
        Ok(book)
    } else {
        Err("an answer")?
    }
}

/// The states of the chain.
fn states(book: &Book) -> [Option<Phase>; 3] {
    [state(book, "A"), state(book, "B"), state(book, "C")]
}

/// Whether an observer was told of `C` and then of `B`, and of nothing else.
fn heard_of_both(observer: &Box<dyn Observer + Send>) -> bool {
    let Some(recorder) = observer.recorder() else {
        return false;
    };
    recorder.count() == 2
        && recorder.key_at(0).name.as_bytes() == b"C".as_slice()
        && recorder.key_at(1).name.as_bytes() == b"B".as_slice()
}

/// How many of these were.
fn told_of_both(observers: &[Box<dyn Observer + Send>]) -> u32 {
    let mut told: u32 = 0;
    for observer in observers {
        if heard_of_both(observer) {
            told = told.saturating_add(1);
        }
    }
    told
}

/// The second is told too, after the first threw, and they come back.
#[test]
fn two_recorders(rt: HostRuntime) -> Result<(), Fail> {
    let book = answered(rt.alloc(), &[A, B, C], &["B", "x"])?;
    let error = Some(Phase::Error);
    assert!(rt; states(&book) == [error, error, Some(Phase::Ready)]);
    assert!(rt; told_of_both(book.leave().as_slice()) == 2);
    Ok(())
}

/// The states after answers in this order.
fn ends(alloc: Global, texts: &[&str]) -> Result<[Option<Phase>; 3], Fail> {
    let book = answered(alloc, texts, &[])?;
    Ok(states(&book))
}

#[test]
fn both_delivery_orders(rt: HostRuntime) -> Result<(), Fail> {
    let alloc = rt.alloc();
    let ready = Some(Phase::Ready);
    for texts in [[A, B, C], [C, B, A], [B, A, C]] {
        assert!(rt; ends(alloc, &texts)? == [ready, ready, ready]);
    }
    for texts in [[A, NO_B, C], [C, NO_B, A]] {
        assert!(rt; ends(alloc, &texts)? == [Some(Phase::Error), Some(Phase::Missing), ready]);
    }
    Ok(())
}

const TWO_GROUPS: &str = "[\"A\",\"aaaaa\",[1]],[\"B\",\"bbbbb\",[],2]";

/// A view that asked for two rows in a batch each.
fn asked_twice(alloc: Global) -> Result<Book, Fail> {
    let mut book = opened(alloc, TWO_GROUPS, "", &[])?;
    let name = Text::of(alloc, "A")?;
    if requests(&mut book, name) && asks(&mut book) && asks(&mut book) {
        Ok(book)
    } else {
        Err("two asks")?
    }
}

const A_TWICE: &str =
    "mw.loader.implement(\"A@aaaaa\",\"a()\",{},{});\nmw.loader.state({\"A\":\"error\"});\n";

/// Whether an ask is lost for the first time.
fn loses(book: &mut Book, ask: u32) -> bool {
    book.lose(ask, None) == Ok(Lost::Again { tries: 1 })
}

/// What comes for a row of another batch is passed over, of two parts of a row the first counts, also for a lost ask, and no
/// later one.
#[test]
fn parts_that_count(rt: HostRuntime) -> Result<(), Fail> {
    let mut book = asked_twice(rt.alloc())?;
    assert!(rt; loses(&mut book, 0));
    for (ask, bytes, taken, passed) in [
        (0, B, 0, 1),
        (0, A_TWICE, 1, 1),
        (1, B, 1, 0),
        (1, NO_B, 0, 1),
    ] {
        assert!(rt; answers(&mut book, ask, bytes, used(taken, passed)));
    }
    assert!(rt; is_over(&book));
    Ok(())
}

/// Whether each batch was answered, both rows executed, and nothing is due or waits.
fn is_over(book: &Book) -> bool {
    book.settled()
        && !book.due()
        && !book.waiting()
        && book.run_count() == 2
        && book.ask_count() == 2
}

/// Whether a view ends where nothing is due, with so many observers.
fn closes(book: Book, count: usize) -> bool {
    if book.due() {
        return false;
    }
    book.close().observers.len() == count
}

#[test]
fn views_that_end(rt: HostRuntime) -> Result<(), Fail> {
    let book = opened(rt.alloc(), CHAIN, "", &["x", "y"])?;
    assert!(rt; closes(book, 2));
    Ok(())
}

/// Whether a name that has no row is refused, and dropped at each place.
fn drops(book: &mut Book, name: Text) -> bool {
    let refused = book.using(slice::from_ref(&name)).is_err();
    let dropped = book.load(slice::from_ref(&name));
    refused && dropped == Ok(1)
}

#[test]
fn names_without_a_row(rt: HostRuntime) -> Result<(), Fail> {
    let alloc = rt.alloc();
    let mut book = opened(alloc, CHAIN, "", &[])?;
    assert!(rt; drops(&mut book, Text::of(alloc, "x")?));
    assert!(rt; book.resume().is_ok());
    assert!(rt; book.call_count() == 1);
    Ok(())
}
