//! Each reply as its line.
use crate::Reply;
use rl_names::Text;
use std::alloc::Global;
use std::test::Fail;

fn says(alloc: Global, reply: &Reply, line: &str) -> bool {
    let mut out = Vec::new(alloc);
    reply.write(&mut out).is_ok() && out.as_slice() == line.as_bytes()
}

const PLAIN: [(Reply, &str); 12] = [
    (Reply::RefusedTitle, "refused title"),
    (Reply::RefusedPolicy, "refused policy"),
    (Reply::RefusedFull, "refused full"),
    (Reply::RefusedKey, "refused key"),
    (Reply::UsingOk, "using ok"),
    (Reply::TakeNone, "take none"),
    (Reply::NoAsk, "no ask"),
    (Reply::NoWire, "no wire"),
    (Reply::GivenUp, "given up"),
    (Reply::Settled, "settled"),
    (Reply::LostBefore, "lost before"),
    (Reply::Closed, "closed"),
];

const COUNTED: [(Reply, &str); 10] = [
    (
        Reply::Revision { revision: u64::MAX },
        "revision 18446744073709551615",
    ),
    (Reply::RefusedConflict { current: 0 }, "refused conflict 0"),
    (
        Reply::RefusedLength { len: 2_097_153 },
        "refused length 2097153",
    ),
    (Reply::Clock { now: 10 }, "clock 10"),
    (
        Reply::View {
            view: 1,
            rows: 4005,
        },
        "view 1 rows 4005",
    ),
    (Reply::Dropped { count: 2 }, "load dropped 2"),
    (Reply::Wire { wire: 7 }, "wire 7"),
    (
        Reply::Took {
            used: 3,
            passed: 14,
        },
        "took 3 passed 14",
    ),
    (Reply::Again { tries: 2 }, "again 2"),
    (Reply::NoView, "no view"),
];

#[test]
fn replies_without_names(rt: HostRuntime) -> Result<(), Fail> {
    for (reply, line) in &PLAIN {
        assert!(rt; says(rt.alloc(), reply, line));
    }
    for (reply, line) in &COUNTED {
        assert!(rt; says(rt.alloc(), reply, line));
    }
    Ok(())
}

fn unknown(alloc: Global, name: &str) -> Result<Reply, Fail> {
    let name = Text::of(alloc, name)?;
    Ok(Reply::UsingUnknown { name })
}

fn cycle(alloc: Global, name: &str) -> Result<Reply, Fail> {
    let name = Text::of(alloc, name)?;
    Ok(Reply::UsingCycle { name })
}

fn ask(alloc: Global, source: &str, query: &str) -> Result<Reply, Fail> {
    let source = Text::of(alloc, source)?;
    let query = Text::of(alloc, query)?;
    Ok(Reply::Ask {
        number: 3,
        source,
        query,
    })
}

#[test]
fn replies_with_names(rt: HostRuntime) -> Result<(), Fail> {
    let reply = unknown(rt.alloc(), "a\nb")?;
    assert!(rt; says(rt.alloc(), &reply, "using unknown a\nb"));
    let reply = cycle(rt.alloc(), "")?;
    assert!(rt; says(rt.alloc(), &reply, "using cycle "));
    Ok(())
}

#[test]
fn asks(rt: HostRuntime) -> Result<(), Fail> {
    let reply = ask(rt.alloc(), "", "modules=a")?;
    assert!(rt; says(rt.alloc(), &reply, "ask 3 local modules=a"));
    let reply = ask(rt.alloc(), "shared", "")?;
    assert!(rt; says(rt.alloc(), &reply, "ask 3 shared "));
    Ok(())
}
