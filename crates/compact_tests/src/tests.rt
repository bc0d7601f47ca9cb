//! Rows before and after compaction.
ghost use Rattle.std.specs.Prelude.{IfOk, IsTrue};
ghost use Rattle.rl_view_spec.specs.Rows.{has_version_unless_private, has_own_group, AreRegistrable};

mod drawn;

use rl_compact::compact::compact;
use rl_names::{Dep, Group, MAX_ROWS, Name, Row, Seq, Text, Version};
use rl_rows::{first_bad_index, index_of, least_repeated};
use std::alloc::Global;
use std::test::Fail;

/// A row of no group.
fn row_of(alloc: Global, name: &str, deps: Vec<Dep>, skip: Option<Text>) -> Result<Row, Fail>
    ensures version { IfOk result (λ row. IsTrue (has_version_unless_private row)) }
    ensures group { IfOk result (λ row. IsTrue (has_own_group row)) }
{
    Ok(Row {
        name: Name::read(alloc, name.as_bytes())?,
        version: Some(Version::read(b"aaaaa").ok_or("a version")?),
        deps: Seq::of(deps),
        group: Group::Plain,
        source: Text::of(alloc, "")?,
        skip,
    })
}

/// A dependency: one digit is the number of a row, and all else is a name.
fn dep(alloc: Global, word: &str) -> Result<Dep, Fail> {
    match word.as_bytes() {
        [digit] if digit.is_ascii_digit() => Ok(Dep::At(u32::from(digit.saturating_sub(b'0')))),
        _ => Ok(Dep::Named(Text::of(alloc, word)?)),
    }
}

/// A row from its name and its dependencies. A word after `!` is its skip.
fn row(alloc: Global, text: &str) -> Result<Row, Fail>
    ensures version { IfOk result (λ row. IsTrue (has_version_unless_private row)) }
    ensures group { IfOk result (λ row. IsTrue (has_own_group row)) }
{
    let mut words = text.split(' ');
    let name = words.next().ok_or("a name")?;
    let mut deps = Vec::new(alloc);
    let mut skip = None;
    for word in words {
        match word.strip_prefix('!') {
            Some(feature) => skip = Some(Text::of(alloc, feature)?),
            None => deps.push(dep(alloc, word)?)?,
        }
    }
    row_of(alloc, name, deps, skip)
}

/// Rows from their texts, with `/` between them.
fn rows(alloc: Global, text: &str) -> Result<Vec<Row>, Fail>
    ensures { IfOk result (λ rows. AreRegistrable rows.items) }
{
    let mut rows = Vec::new(alloc);
    for text in text.split('/') {
        rows.push(row(alloc, text)?)?;
    }
    Ok(rows)
}

/// The text of a row, as it is written in a case.
fn row_text(alloc: Global, row: &Row) -> Result<String, Fail> {
    let mut text = format!(in alloc; "{}", row.name.as_str())?;
    for dep in row.deps.as_slice() {
        let word = match dep {
            Dep::At(number) => format!(in alloc; " {number}")?,
            Dep::Named(name) => format!(in alloc; " {}", name.as_str())?,
        };
        text.push_str(word.as_str())?;
    }
    if let Some(skip) = &row.skip {
        text.push_str(" !")?;
        text.push_str(skip.as_str())?;
    }
    Ok(text)
}

/// The texts of rows, with `/` between them.
fn rows_text(alloc: Global, rows: &[Row]) -> Result<String, Fail> {
    let mut texts = String::new(alloc);
    for row in rows {
        if !texts.is_empty() {
            texts.push_str("/")?;
        }
        texts.push_str(row_text(alloc, row)?.as_str())?;
    }
    Ok(texts)
}

/// The rows after compaction.
fn compacted(alloc: Global, rows: Vec<Row>) -> Result<Vec<Row>, Fail>
    requires { AreRegistrable rows.items }
    ensures { IfOk result (λ left. AreRegistrable left.items) }
{
    if rows.len() as u64 > MAX_ROWS {
        return Err("too many rows".into());
    }
    let order = index_of(alloc, rows.as_slice())?;
    if least_repeated(rows.as_slice(), order.as_slice()).is_some() {
        return Err("a repeated name".into());
    }
    if first_bad_index(rows.as_slice()).is_some() {
        return Err("a number without a row".into());
    }
    Ok(compact(alloc, rows)?)
}

/// The text of the rows of a text after compaction.
fn compacted_text(alloc: Global, text: &str) -> Result<String, Fail> {
    let left = compacted(alloc, rows(alloc, text)?)?;
    rows_text(alloc, left.as_slice())
}

#[test]
fn cases(rt: HostRuntime) -> Result<(), Fail> {
    let alloc = rt.alloc();
    for (text, want) in [
        // What another dependency brings goes, by number and by name.
        ("A 1 2/B 2/C", "A 1/B 2/C"),
        ("A C B/B C/C", "A B/B C/C"),
        ("A 1 2 3/B 2/C 3/D", "A 1/B 2/C 3/D"),
        ("A 3 1 2/B 3/C 3/D", "A 1 2/B 3/C 3/D"),
        // Nothing is brought through a skip.
        ("A 1 2/B 2 !promise/C", "A 1 2/B 2 !promise/C"),
        ("A 1 3/B 2/C 3 !promise/D", "A 1 3/B 2/C 3 !promise/D"),
        // The skip of what is brought does not matter, nor does the row's own.
        ("A 1 2 !es6/B 2/C !promise", "A 1 !es6/B 2/C !promise"),
        // A row whose closure holds a cycle or a name without a row stays as it is.
        ("A 1 2/B 2/C 0", "A 1 2/B 2/C 0"),
        ("A 1 2/B 2 gone/C", "A 1 2/B 2 gone/C"),
        // A dependency that is named twice stays twice, unless another brings it.
        ("A 1 1/B", "A 1 1/B"),
        ("A 2 1 2/B 2/C", "A 1/B 2/C"),
    ] {
        let left = compacted_text(alloc, text)?;
        assert_eq!(rt; left.as_str(), want, "of {text}");
    }
    Ok(())
}
