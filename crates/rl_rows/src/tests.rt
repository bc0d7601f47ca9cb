//! Rows by an index of their names: names that stand twice, dependencies by name and by number, and skips.
ghost use Rattle.std.specs.Prelude.{◌≤◌, length};

use crate::{
    all_edges, dep_name, find, first_bad_index, first_wide, index_of, least_repeated, lesser,
    skips_of,
};
use rl_names::{Dep, Group, MAX_ROWS, Name, Row, Seq, Text, Version};
use std::alloc::Global;
use std::test::Fail;

/// A dependency: one digit is the number of a row, and all else is a name.
fn dep(alloc: Global, word: &str) -> Result<Dep, Fail> {
    match word.as_bytes() {
        [digit] if digit.is_ascii_digit() => Ok(Dep::At(u32::from(digit.saturating_sub(b'0')))),
        _ => Ok(Dep::Named(Text::of(alloc, word)?)),
    }
}

/// A row, from its name and its dependencies. A word after `!` is its skip.
fn row(alloc: Global, text: &str) -> Result<Row, Fail> {
    let mut words = text.split(' ');
    let name = words.next().ok_or("a name")?;
    let mut deps = Vec::new(alloc);
    let mut skip = None;
    for word in words {
        match word.strip_prefix('!') {
            Some(feature) => skip = Some(Text::of(alloc, feature)?),
            None => deps.push(dep(alloc, word)?)?,
        }
    }
    Ok(Row {
        name: Name::read(alloc, name.as_bytes())?,
        version: Some(Version::read(b"aaaaa").ok_or("a version")?),
        deps: Seq::of(deps),
        group: Group::Plain,
        source: Text::of(alloc, "")?,
        skip,
    })
}

/// Rows from their texts, with `/` between them.
fn rows(alloc: Global, text: &str) -> Result<Vec<Row>, Fail> {
    let mut rows = Vec::new(alloc);
    for text in text.split('/') {
        rows.push(row(alloc, text)?)?;
    }
    Ok(rows)
}

/// The name that stands twice; or the edges, the skips under a feature, and the row named `b`.
fn told(alloc: Global, rows: &[Row], features: &[Text]) -> Result<String, Fail>
    requires { length rows.now ≤ MAX_ROWS }
{
    let order = index_of(alloc, rows)?;
    if let Some(name) = least_repeated(rows, order.as_slice()) {
        return Ok(format!(in alloc; "twice {name}")?);
    }
    let edges = all_edges(alloc, rows, order.as_slice(), features)?;
    let skips = skips_of(alloc, rows, features)?;
    let b = find(rows, order.as_slice(), b"b");
    Ok(format!(in alloc; "{order:?} {edges:?} {skips:?} {b:?}")?)
}

#[test]
fn edges(rt: HostRuntime) -> Result<(), Fail> {
    let alloc = rt.alloc();
    let features = [Text::of(alloc, "f")?];
    for (text, want) in [
        (
            "b/a b/ab 0",
            "[1, 2, 0] [[], [0], [0]] [false, false, false] Some(0)",
        ),
        ("d/b/d/c/b/a", "twice b"),
        ("a 1 c 2 x/c 7", "[0, 1] [[1, 1], []] [false, false] None"),
        (
            "a b/b !f a/c !g b",
            "[0, 1, 2] [[1], [], [1]] [false, true, false] Some(1)",
        ),
    ] {
        let rows = rows(alloc, text)?;
        if rows.len() as u64 <= MAX_ROWS {
            let said = told(alloc, rows.as_slice(), &features)?;
            assert_eq!(rt; said.as_str(), want, "of {text}");
        }
    }
    Ok(())
}

#[test]
fn faults_of_rows(rt: HostRuntime) -> Result<(), Fail> {
    let alloc = rt.alloc();
    let wide = format!(in alloc; "a 1/b 0 2 3/wide{}", " a".repeat(alloc, 257)?)?;
    let rows = rows(alloc, wide.as_str())?;
    let first = first_wide(rows.as_slice()).ok_or("a wide row")?;
    assert_eq!(rt; first.name.as_str(), "wide");
    if rows.len() as u64 <= MAX_ROWS {
        assert_eq!(rt; first_bad_index(rows.as_slice()), Some((1, 3)));
    }
    for (dep, want) in [(Dep::At(1), Some("b")), (Dep::At(3), None)] {
        assert_eq!(rt; dep_name(rows.as_slice(), &dep), want);
    }
    assert_eq!(rt; lesser("b", Some("a")), "a");
    assert_eq!(rt; lesser("a", None), "a");
    Ok(())
}
