//! Scripts and files at their limits and above.
use super::driven;
use crate::Status;
use rl_names::Counted;
use std::alloc::Global;
use std::test::Fail;

/// A script of so many equal lines, and a last one.
fn repeated(alloc: Global, line: &str, times: usize, last: &str) -> Result<String, Fail> {
    let mut script = String::with_capacity(alloc, 2_000_000)?;
    for _ in 0..times {
        script.push_str(line)?;
    }
    script.push_str(last)?;
    Ok(script)
}

/// A row with so many dependencies.
fn wide(alloc: Global, dependencies: usize) -> Result<String, Fail> {
    let mut row = String::from_str(alloc, "[\"row\",\"A\",\"aaaaa\",[\"B\"")?;
    for _ in 1..dependencies {
        row.push_str(",\"B\"")?;
    }
    row.push_str("]]")?;
    Ok(row)
}

/// So many rows.
fn rows(alloc: Global, count: usize) -> Result<String, Fail> {
    let mut rows = String::new(alloc);
    for number in 0..count {
        rows.push_str(format!(in alloc; "[\"row\",\"m{number}\",\"aaaaa\"]\n")?.as_str())?;
    }
    Ok(rows)
}

const fn too_many(what: Counted, count: u64) -> Status {
    Status::TooLarge { what, count }
}

#[test]
fn of_scripts(rt: HostRuntime) -> Result<(), Fail> {
    let alloc = rt.alloc();
    let using = "[\"using\",[]]\n";
    for (name, script, status) in [
        ("rows at the limit", rows(alloc, 4096)?, Status::Done),
        (
            "a row above it",
            rows(alloc, 4097)?,
            too_many(Counted::Rows, 4097),
        ),
        ("dependencies at the limit", wide(alloc, 256)?, Status::Done),
        (
            "one above it",
            wide(alloc, 257)?,
            too_many(Counted::Dependencies, 257),
        ),
        (
            "steps at the limit",
            repeated(alloc, using, 65_536, "")?,
            Status::Done,
        ),
        (
            "a step above it",
            repeated(alloc, using, 65_537, "[]")?,
            too_many(Counted::Steps, 65_537),
        ),
        (
            "a faulty line before that step",
            repeated(alloc, using, 65_536, "[]\n[\"using\",[]]")?,
            Status::BadInput {
                word: 1,
                line: 65_537,
                why: 1,
            },
        ),
    ] {
        let (ended, _) = driven(alloc, script.as_bytes())?;
        assert_eq!(rt; ended, status, "{name}");
    }
    Ok(())
}

#[test]
fn of_files(rt: HostRuntime) -> Result<(), Fail> {
    let alloc = rt.alloc();
    for (length, status) in [
        (16_777_216, Status::Done),
        (16_777_217, too_many(Counted::FileBytes, 16_777_217)),
        (16_777_300, too_many(Counted::FileBytes, 16_777_217)),
    ] {
        let script = Vec::from_elem(alloc, b'#', length)?;
        let (ended, _) = driven(alloc, script.as_slice())?;
        assert_eq!(rt; ended, status, "{length} bytes");
    }
    Ok(())
}
