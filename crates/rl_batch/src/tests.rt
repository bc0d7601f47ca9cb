//! Batches and losses, run with ample memory.
ghost use Rattle.std.specs.Prelude.{◌≡◌, not, IfOk, IsTrue};
ghost use Rattle.std.specs.List.{list_all, range_with_len};
ghost use Rattle.rl_view_spec.specs.Rows.{has_version_unless_private, has_own_group, is_private, AreRegistrable};
ghost use Rattle.rl_batch.specs.Given.{IsBase};

use crate::requests::is_settled;
use crate::{Requests, batches};
use rl_book_spec::Batch;
use rl_names::{Group, Name, Only, Query, Row, Seq, Text, Version, hash5};
use rl_registry::Registry;
use std::alloc::Global;
use std::test::Fail;

/// A row of no group and of this wiki, without dependencies.
fn row(alloc: Global, name: &str, version: &str) -> Result<Row, Fail>
    ensures version { IfOk result (λ row. IsTrue (has_version_unless_private row)) }
    ensures group { IfOk result (λ row. IsTrue (has_own_group row)) }
    ensures public { IfOk result (λ row. IsTrue (not (is_private row.group))) }
{
    Ok(Row {
        name: Name::read(alloc, name.as_bytes())?,
        version: Some(Version::read(version.as_bytes()).ok_or("a version")?),
        deps: Seq::of(Vec::new(alloc)),
        group: Group::Plain,
        source: Text::of(alloc, "")?,
        skip: None,
    })
}

fn rows(alloc: Global, table: &[(&str, &str)]) -> Result<Vec<Row>, Fail>
    ensures rows { IfOk result (λ rows. AreRegistrable rows.items) }
    ensures public { IfOk result (λ rows. IsTrue (list_all (λ row. not (is_private row.group)) rows.items)) }
{
    let mut rows = Vec::new(alloc);
    for (name, version) in table {
        rows.push(row(alloc, name, version)?)?;
    }
    Ok(rows)
}

/// What `lang=en&skin=vector` reads as.
fn base(alloc: Global) -> Result<Query, Fail>
    ensures { IfOk result (λ base. IsBase base) }
{
    Ok(Query {
        modules: Text::of(alloc, "")?,
        lang: Text::of(alloc, "en")?,
        skin: Text::of(alloc, "vector")?,
        debug: false,
        only: Only::All,
        user: Text::of(alloc, "")?,
        version: Text::of(alloc, "")?,
    })
}

/// The numbers of so many rows.
fn numbers(alloc: Global, count: u32) -> Result<Vec<u32>, Fail>
    ensures { IfOk result (λ numbers. numbers.items ≡ range_with_len 0 count) }
{
    let mut numbers = Vec::new(alloc);
    for number in 0..count {
        numbers.push(number)?;
    }
    Ok(numbers)
}

/// The batches that ask for all of these rows.
fn batches_of(alloc: Global, table: &[(&str, &str)], limit: u32) -> Result<Vec<Batch>, Fail> {
    let registry = Registry::read(alloc, rows(alloc, table)?, &[])?;
    let numbers = numbers(alloc, registry.count())?;
    Ok(batches(alloc, &registry, &base(alloc)?, numbers.as_slice(), limit)?)
}

/// A line for each batch: its rows, and its query.
fn shown(alloc: Global, batches: &[Batch]) -> Result<String, Fail> {
    let mut text = String::new(alloc);
    for batch in batches {
        let line = format!(in alloc; "{:?} {}\n", batch.rows.as_slice(), batch.query.as_str())?;
        text.push_str(line.as_str())?;
    }
    Ok(text)
}

#[test]
fn batch_lengths(rt: HostRuntime) -> Result<(), Fail> {
    let alloc = rt.alloc();
    let two = [("a.cd", "bbbbb"), ("a.b", "aaaaa")];
    let one_query = format!(in alloc;
        "[1, 0] lang=en&modules=a.b%2Ccd&skin=vector&version={}\n",
        hash5(b"aaaaabbbbb").as_str()
    )?;
    let two_queries = format!(in alloc;
        "[1] lang=en&modules=a.b&skin=vector&version={}\n[0] lang=en&modules=a.cd&skin=vector&version={}\n",
        hash5(b"aaaaa").as_str(),
        hash5(b"bbbbb").as_str()
    )?;
    for (limit, want) in [
        (53, one_query.as_str()),
        (52, two_queries.as_str()),
        (10, two_queries.as_str()),
    ] {
        let made = batches_of(alloc, &two, limit)?;
        assert_eq!(rt; shown(alloc, made.as_slice())?.as_str(), want);
    }
    let three = [("a", "aaaaa"), ("b.x", "bbbbb"), ("c", "ccccc")];
    let made = batches_of(alloc, &three, 2000)?;
    let packed = format!(in alloc;
        "[0, 1, 2] lang=en&modules=a%2Cc%7Cb.x&skin=vector&version={}\n",
        hash5(b"aaaaacccccbbbbb").as_str()
    )?;
    assert_eq!(rt; shown(alloc, made.as_slice())?.as_str(), packed.as_str());
    Ok(())
}

/// Loses an ask where it may be lost.
fn lose(requests: &mut Requests, ask: u32) -> Result<(), Fail> {
    match requests.asked(ask) {
        Some((asked, sent)) if !asked.lost && !is_settled(sent) => {}
        _ => return Err("an open ask")?,
    }
    requests.lose(ask);
    Ok(())
}

/// A lost ask waits behind the others until the third loss, and a batch that was answered waits no more.
#[test]
fn asks_and_losses(rt: HostRuntime) -> Result<(), Fail> {
    let alloc = rt.alloc();
    let mut requests = Requests::new(alloc);
    assert!(rt; requests.settled());
    requests.add(batches_of(alloc, &[("a", "aaaaa"), ("b", "bbbbb")], 10)?)?;
    assert_eq!(rt; requests.take()?, Some(0));
    lose(&mut requests, 0)?;
    assert!(rt; requests.has_waiting());
    assert_eq!(rt;
        requests.first_waiting().ok_or("a batch")?.rows.as_slice(),
        [1].as_slice()
    );
    assert_eq!(rt; requests.take()?, Some(1));
    for ask in 2..4 {
        assert_eq!(rt; requests.take()?, Some(0));
        assert_eq!(rt; requests.take()?, None);
        lose(&mut requests, ask)?;
    }
    assert_eq!(rt; requests.take()?, None);
    assert_eq!(rt; requests.ask_count(), 4);
    assert!(rt; !requests.settled());
    if 1 < requests.ask_count() {
        requests.deliver(1);
    }
    assert!(rt; requests.settled());
    Ok(())
}
