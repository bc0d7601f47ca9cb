//! Views over a store that keeps a pair.
ghost use Rattle.std.specs.Prelude.{IfOk};
ghost use Rattle.rl_wire.specs.Line.{IsInOrder};
ghost use Rattle.rl_book_spec.specs.Laws.{IsOfKey};

use super::plan;
use crate::opening::rows_said;
use crate::{Book, Origin};
use rl_book_spec::Stored;
use rl_names::{Key, Name, Seq, Text, Version};
use rl_registry::Registry;
use rl_states::Phase;
use rl_store::Store;
use rl_wire::Part;
use std::alloc::Global;
use std::slice;
use std::test::Fail;

/// The startup text of a row.
fn startup(alloc: Global, row: &str) -> Result<String, Fail> {
    Ok(format!(in alloc;
        "mw.loader.addSource({{\"local\":\"/load.php\"}});\nmw.loader.register([{row}]);\n"
    )?)
}

/// A pair of the module `a`, that came with answer 7.
fn pair(alloc: Global) -> Result<Stored, Fail>
    ensures part { IfOk result IsOfKey }
    ensures ordered { IfOk result (λ stored. IsInOrder stored.part) }
{
    let version = Version::read(b"aaaaa").ok_or("a version")?;
    let name = Name::read(alloc, b"a")?;
    let key = Key {
        name: name.copy()?,
        version,
    };
    let part = Part::Impl {
        name,
        version,
        script: Text::of(alloc, "a()")?,
        styles: Text::of(alloc, "")?,
        messages: Seq::of(Vec::new(alloc)),
    };
    Ok(Stored {
        key,
        part,
        wire: Some(7),
    })
}

/// The store that keeps it.
fn store(alloc: Global) -> Result<Store, Fail> {
    let text = startup(alloc, "[\"a\",\"aaaaa\"]")?;
    let rows = rows_said(alloc, text.as_bytes()).ok().ok_or("rows")?;
    let registry = Registry::read(alloc, rows, &[])?;
    let mut fresh = Vec::new(alloc);
    fresh.push(pair(alloc)?)?;
    let empty = Store::empty(alloc, b"vector|1|en")?;
    Ok(empty.after(&registry, fresh, 0).ok().ok_or("memory")?)
}

/// A view of this row over that store, in debug or not.
fn opened(alloc: Global, row: &str, debug: bool) -> Result<Book, Fail> {
    let text = startup(alloc, row)?;
    let mut plan = plan(alloc, "")?;
    plan.base.debug = debug;
    let observers = Vec::new(alloc);
    match Book::open(alloc, text.as_bytes(), plan, store(alloc)?, observers) {
        Ok(book) => Ok(book),
        Err(_turned) => Err("a view")?,
    }
}

/// What becomes of the row once it is requested, and whether it is asked for.
fn requested(alloc: Global, row: &str, debug: bool) -> Result<(Option<Phase>, bool), Fail> {
    let mut book = opened(alloc, row, debug)?;
    let name = Text::of(alloc, "a")?;
    let done = book.using(slice::from_ref(&name)).is_ok();
    Ok((book.state_of(b"a"), done && book.waiting()))
}

/// What is stored under the key of a row executes without an ask. What is stored under another version of it does not, and
/// nothing is taken from the store in debug.
#[test]
fn stored_parts(rt: HostRuntime) -> Result<(), Fail> {
    let alloc = rt.alloc();
    let row = "[\"a\",\"aaaaa\"]";
    let changed = "[\"a\",\"bbbbb\"]";
    assert!(rt; requested(alloc, row, false)? == (Some(Phase::Ready), false));
    assert!(rt; requested(alloc, changed, false)? == (Some(Phase::Loading), true));
    assert!(rt; requested(alloc, row, true)? == (Some(Phase::Loading), true));
    Ok(())
}

/// Whether the only execution is of a part that came from the store with answer 7.
fn is_of_store(book: &Book) -> bool {
    if book.run_count() != 1 {
        return false;
    }
    book.run_at(0).origin == Origin::Stored { wire: Some(7) }
}

#[test]
fn origin_of_a_stored_part(rt: HostRuntime) -> Result<(), Fail> {
    let alloc = rt.alloc();
    let mut book = opened(alloc, "[\"a\",\"aaaaa\"]", false)?;
    let name = Text::of(alloc, "a")?;
    assert!(rt; book.using(slice::from_ref(&name)).is_ok());
    assert!(rt; is_of_store(&book));
    Ok(())
}
