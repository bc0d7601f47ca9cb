//! Rows that are refused, closures, and what is asked of a registry by name and by number.
ghost use Rattle.std.specs.Prelude.{IfOk, IsTrue};
ghost use Rattle.rl_view_spec.specs.Rows.{has_version_unless_private, has_own_group, AreRegistrable};

use crate::error::{RegistryError, ResolveError};
use crate::registry::Registry;
use rl_names::{Dep, Group, Name, Row, Seq, Text, Version};
use std::alloc::Global;
use std::test::Fail;

/// A dependency: one digit is the number of a row, and all else is a name.
fn dep(alloc: Global, word: &str) -> Result<Dep, Fail> {
    match word.as_bytes() {
        [digit] if digit.is_ascii_digit() => Ok(Dep::At(u32::from(digit.saturating_sub(b'0')))),
        _ => Ok(Dep::Named(Text::of(alloc, word)?)),
    }
}

/// A row of no group, from its name and its dependencies. A word after `!` is its skip.
fn row(alloc: Global, text: &str) -> Result<Row, Fail>
    ensures version { IfOk result (λ row. IsTrue (has_version_unless_private row)) }
    ensures group { IfOk result (λ row. IsTrue (has_own_group row)) }
{
    let mut words = text.split(' ');
    let name = words.next().ok_or("a name")?;
    let mut deps = Vec::new(alloc);
    let mut skip = None;
    for word in words {
        match word.strip_prefix('!') {
            Some(feature) => skip = Some(Text::of(alloc, feature)?),
            None => deps.push(dep(alloc, word)?)?,
        }
    }
    Ok(Row {
        name: Name::read(alloc, name.as_bytes())?,
        version: Some(Version::read(b"aaaaa").ok_or("a version")?),
        deps: Seq::of(deps),
        group: Group::Plain,
        source: Text::of(alloc, "")?,
        skip,
    })
}

/// Rows from their texts, with `/` between them.
fn rows(alloc: Global, text: &str) -> Result<Vec<Row>, Fail>
    ensures { IfOk result (λ rows. AreRegistrable rows.items) }
{
    let mut rows = Vec::new(alloc);
    for text in text.split('/') {
        rows.push(row(alloc, text)?)?;
    }
    Ok(rows)
}

/// So many rows with names of their own.
fn many_rows(alloc: Global, count: u32) -> Result<Vec<Row>, Fail>
    ensures { IfOk result (λ rows. AreRegistrable rows.items) }
{
    let mut rows = Vec::new(alloc);
    for at in 0..count {
        let name = format!(in alloc; "m{at}")?;
        rows.push(row(alloc, name.as_str())?)?;
    }
    Ok(rows)
}

/// What came of reading rows.
fn read_text(alloc: Global, rows: Vec<Row>) -> Result<String, Fail>
    requires { AreRegistrable rows.items }
{
    match Registry::read(alloc, rows, &[]) {
        Ok(registry) => Ok(format!(in alloc; "{} rows", registry.count())?),
        Err(error) => Ok(format!(in alloc; "{error}")?),
    }
}

/// What came of a request.
fn rows_text(alloc: Global, resolved: Result<Vec<u32>, ResolveError>) -> Result<String, Fail> {
    match resolved {
        Ok(rows) => Ok(format!(in alloc; "{rows:?}")?),
        Err(error) => Ok(format!(in alloc; "{error}")?),
    }
}

/// What came of a request for the first of these names, and for all of them.
fn resolved(alloc: Global, registry: &Registry, names: &str) -> Result<String, Fail> {
    let mut texts = Vec::new(alloc);
    for name in names.split(' ') {
        texts.push(Text::of(alloc, name)?)?;
    }
    let first = names.split(' ').next().ok_or("a name")?;
    let one = rows_text(alloc, registry.resolve(first.as_bytes()))?;
    let all = rows_text(alloc, registry.resolve_all(texts.as_slice()))?;
    Ok(format!(in alloc; "{one}, {all}")?)
}

#[test]
fn limits(rt: HostRuntime) -> Result<(), Fail> {
    let alloc = rt.alloc();
    for (count, want) in [(4096, "4096 rows"), (4097, "too many Rows: 4097")] {
        let text = read_text(alloc, many_rows(alloc, count)?)?;
        assert_eq!(rt; text.as_str(), want);
    }
    for (count, want) in [(256, "2 rows"), (257, "too many Dependencies: 257")] {
        let wide = format!(in alloc; "a/wide{}", " a".repeat(alloc, count)?)?;
        let text = read_text(alloc, rows(alloc, wide.as_str())?)?;
        assert_eq!(rt; text.as_str(), want);
    }
    Ok(())
}

#[test]
fn repeated_names_and_bad_numbers(rt: HostRuntime) -> Result<(), Fail> {
    let alloc = rt.alloc();
    for (text, want) in [
        ("d/b/d/c/b/a", "two rows are named b"),
        ("a/ab/b/ab", "two rows are named ab"),
        ("b/a/ab", "3 rows"),
        ("b 9/a/b", "two rows are named b"),
        ("a 1 0/b 0", "2 rows"),
        (
            "a 1/b a 1 2 3/c 4",
            "row 1 depends on row 3, and there is none",
        ),
        ("a 1 2/b 3", "row 0 depends on row 2, and there is none"),
    ] {
        let read = read_text(alloc, rows(alloc, text)?)?;
        assert_eq!(rt; read.as_str(), want, "of {text}");
    }
    Ok(())
}

#[test]
fn closures_and_refusals(rt: HostRuntime) -> Result<(), Fail> {
    let alloc = rt.alloc();
    for (text, names, want) in [
        ("A B/B C/C", "A", "[0, 1, 2], [0, 1, 2]"),
        ("A 1/B 2/C", "C B", "[2], [1, 2]"),
        ("A B/B C/C", "A D E", "[0, 1, 2], no row is named D"),
        ("q 2 x/x/b x a/z q/a", "b q b", "[1, 2, 4], [0, 1, 2, 4]"),
        (
            "q b x/x/b x 4/z 0/a",
            "z",
            "[0, 1, 2, 3, 4], [0, 1, 2, 3, 4]",
        ),
        (
            "A B/B A zz nn",
            "A",
            "no row is named nn, no row is named nn",
        ),
        (
            "A 1/B 0 zz nn",
            "B m",
            "no row is named nn, no row is named m",
        ),
        (
            "A B/B A/a B/0",
            "B 0",
            "A depends on itself, A depends on itself",
        ),
        ("A 1/B 0/a 1/0", "0 a", "[3], A depends on itself"),
        (
            "c b/b 1/a c",
            "a",
            "b depends on itself, b depends on itself",
        ),
        ("A !f nn/B 0", "B", "no row is named nn, no row is named nn"),
    ] {
        let registry = Registry::read(alloc, rows(alloc, text)?, &[])?;
        let found = resolved(alloc, &registry, names)?;
        assert_eq!(rt; found.as_str(), want, "of {names} in {text}");
    }
    Ok(())
}

/// `A` depends on `S`, which a feature skips, so what only `S` depends on is no member, known or not.
#[test]
fn skipped_dependency(rt: HostRuntime) -> Result<(), Fail> {
    let alloc = rt.alloc();
    let features = [Text::of(alloc, "f")?];
    let rows = rows(alloc, "A S 2/S !f D 0 nn/D !g/E !g 1")?;
    let mut registry = Registry::read(alloc, rows, &features)?;
    let found = resolved(alloc, &registry, "S A E")?;
    assert_eq!(rt; found.as_str(), "[1], [0, 1, 2, 3]");
    assert_eq!(rt; registry.count(), 4);
    assert!(rt; registry.skipped(1) && !registry.skipped(2));
    assert_eq!(rt; registry.needs(0), [1, 2].as_slice());
    assert_eq!(rt; registry.needs(1).len(), 0);
    assert_eq!(rt; registry.edges().len(), 4);
    for (name, want) in [("E", Some(3)), ("S", Some(1)), ("", None), ("AA", None)] {
        assert_eq!(rt; registry.find(name.as_bytes()), want, "at {name}");
    }
    registry.set_version(2, Version::read(b"bbbbb").ok_or("a version")?);
    for (row, want) in [(1, "S aaaaa"), (2, "D bbbbb")] {
        assert!(rt; row < registry.count());
        let row = registry.row_at(row);
        let version = row.version.ok_or("a version")?;
        let text = format!(in alloc; "{} {}", row.name.as_str(), version.as_str())?;
        assert_eq!(rt; text.as_str(), want);
    }
    Ok(())
}
