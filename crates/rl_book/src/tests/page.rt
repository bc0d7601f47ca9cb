//! Pages from their opening to their end, and what the view tells of them.
use super::book::{answers, asks, opened, state};
use super::used;
use crate::{Book, Call, Lost, Mark, Origin};
use rl_names::Text;
use rl_states::Phase;
use std::alloc::Global;
use std::test::Fail;

/// Two rows that are asked for each by itself.
const TWO: &str = "[\"a\",\"96okj\"],[\"b\",\"wn61g\",[],2]";

const A: &str = "mw.loader.implement(\"a@96okj\",\"a()\\n\",{},{});\n";

const B: &str = "mw.loader.implement(\"b@wn61g\",\"b()\\n\",{},{});\n";

/// The queries of both. The versions are the hashes of `96okj` and of `wn61g`.
const QUERY_OF_A: &str = "lang=en&modules=a&skin=vector&version=dq908";

const QUERY_OF_B: &str = "lang=en&modules=b&skin=vector&version=2xozg";

/// Whether names are requested together.
fn uses(book: &mut Book, names: &[Text]) -> bool {
    book.using(names).is_ok()
}

/// Whether an ask is lost with this answer.
fn is_lost(book: &mut Book, ask: u32, want: Lost) -> bool {
    book.lose(ask, None) == Ok(want)
}

/// Whether the batch of `b` is asked for three times, and each ask is lost.
fn loses_each(book: &mut Book) -> bool {
    let mut all = true;
    for (ask, want) in [
        (1, Lost::Again { tries: 1 }),
        (2, Lost::Again { tries: 2 }),
        (3, Lost::GivenUp),
    ] {
        all &= asks(book);
        all &= is_lost(book, ask, want);
    }
    all
}

/// Whether an ask was sent to this wiki with this query, was lost or not, and its batch is settled.
fn is_ask(book: &Book, at: u32, query: &str, lost: bool) -> bool {
    at < book.ask_count()
        && book.ask_source(at).is_empty()
        && book.ask_query(at) == query.as_bytes()
        && book.ask_lost(at) == lost
        && book.ask_settled(at)
}

/// Whether `a` executed alone, by the answer that came.
fn ran_alone(book: &Book) -> bool {
    if book.run_count() != 1 {
        return false;
    }
    let run = book.run_at(0);
    let mark = Mark { link: 0, answer: 7 };
    run.row == 0
        && run.key.name.as_bytes() == b"a".as_slice()
        && run.script.as_str() == "a()\n"
        && !run.threw
        && run.origin == Origin::Wire { mark }
}

/// Whether the first of eleven calls is the request, and the last one a delivery to ask 1.
fn are_calls(book: &Book) -> bool {
    if book.call_count() != 11 {
        return false;
    }
    matches!(book.call_at(0), Call::Using { .. })
        && matches!(book.call_at(10), Call::Deliver { ask: 1, .. })
}

/// Whether `a` is answered twice, and `b` is lost three times and answered after that.
fn gives_up(book: &mut Book, names: &[Text]) -> bool {
    let mut all = uses(book, names);
    all &= asks(book);
    all &= answers(book, 0, A, used(1, 0));
    all &= answers(book, 0, A, used(0, 1));
    all &= loses_each(book);
    all &= answers(book, 1, B, used(0, 1));
    all
}

/// Whether the first ask was answered, and the three others were lost.
fn are_asks(book: &Book) -> bool {
    let mut all = is_ask(book, 0, QUERY_OF_A, false);
    for ask in 1..4 {
        all &= is_ask(book, ask, QUERY_OF_B, true);
    }
    all
}

/// The states of both.
fn states(book: &Book) -> [Option<Phase>; 2] {
    [state(book, "a"), state(book, "b")]
}

#[test]
fn repeat_and_give_up(rt: HostRuntime) -> Result<(), Fail> {
    let mut book = opened(rt.alloc(), TWO, "", &[])?;
    let names = names(rt.alloc(), &["a", "b"])?;
    assert!(rt; gives_up(&mut book, names.as_slice()));
    assert!(rt; states(&book) == [Some(Phase::Ready), Some(Phase::Error)]);
    assert!(rt; ran_alone(&book));
    assert!(rt; are_calls(&book));
    assert!(rt; are_asks(&book));
    Ok(())
}

fn names(alloc: Global, texts: &[&str]) -> Result<Vec<Text>, Fail> {
    let mut names = Vec::new(alloc);
    for text in texts {
        names.push(Text::of(alloc, text)?)?;
    }
    Ok(names)
}

/// The rows of 4,096 modules as a startup text has them, the names of these, and a part for each.
#[derive(Drop)]
struct Large {
    rows: String,
    names: Vec<Text>,
    answer: String,
}

fn made(alloc: Global) -> Result<Large, Fail> {
    let mut rows = String::from_str(alloc, "[\"m1000\",\"aaaaa\"]")?;
    let mut names = Vec::new(alloc);
    let mut answer = String::new(alloc);
    for number in 1_000u32..5_096 {
        if number > 1_000 {
            rows.push_str(format!(in alloc; ",[\"m{number}\",\"aaaaa\"]")?.as_str())?;
        }
        names.push(Text::from_string(format!(in alloc; "m{number}")?))?;
        let part = format!(in alloc; "mw.loader.implement(\"m{number}@aaaaa\",\"\",{{}},{{}});\n")?;
        answer.push_str(part.as_str())?;
    }
    Ok(Large {
        rows,
        names,
        answer,
    })
}

/// How many rows a batch asks for: 42 bytes stand beside the names in its query, and each name takes 8 more, up to 2,000.
const IN_A_BATCH: u32 = 244;

/// Whether each of the 17 asks is answered by all 4,096 parts, of which the rows of its batch take theirs.
fn takes_all(book: &mut Book, answer: &str) -> bool {
    let mut all = true;
    for ask in 0..17 {
        let used_now = if ask < 16 {
            IN_A_BATCH
        } else {
            4_096 - 16 * IN_A_BATCH
        };
        all &= asks(book);
        all &= answers(book, ask, answer, used(used_now, 4_096 - used_now));
    }
    all
}

/// Whether each row executed, and nothing is due or waits.
fn ran_each(book: &Book) -> bool {
    book.settled() && !book.due() && !book.waiting() && book.run_count() == 4_096
}

#[test]
fn deliveries_of_4096_parts(rt: HostRuntime) -> Result<(), Fail> {
    let large = made(rt.alloc())?;
    let mut book = opened(rt.alloc(), large.rows.as_str(), "", &[])?;
    assert!(rt; uses(&mut book, large.names.as_slice()));
    assert!(rt; takes_all(&mut book, large.answer.as_str()));
    assert!(rt; ran_each(&book));
    Ok(())
}
