//! What a table says of rows after steps that are written as a text.
ghost use Rattle.std.specs.Prelude.{◌≡◌, ◌<◌, IfOk, IsTrue, None};
ghost use Rattle.rl_view_spec.specs.Rows.{AreRegistrable, has_own_group, has_version_unless_private};

use crate::{Outcome, Phase, Steps, Table};
use rl_names::{Dep, Group, Name, Row, Seq, Text, Version};
use rl_registry::Registry;
use std::alloc::Global;
use std::marker::Brand;
use std::process::Abort;
use std::sync::ledger::{Blank, Ledger};
use std::test::Fail;

fn digit(byte: u8) -> u32 {
    u32::from(byte.saturating_sub(b'0'))
}

/// A row, from its name and the numbers of the rows that it needs. The feature `f` skips the row `S`.
fn row(alloc: Global, text: &[u8]) -> Result<Row, Fail>
    ensures version { IfOk result (λ row. IsTrue (has_version_unless_private row)) }
    ensures group { IfOk result (λ row. IsTrue (has_own_group row)) }
{
    let mut deps = Vec::new(alloc);
    for byte in text.iter().skip(1) {
        deps.push(Dep::At(digit(*byte)))?;
    }
    let skip = match text.first() {
        Some(b'S') => Some(Text::of(alloc, "f")?),
        _ => None,
    };
    Ok(Row {
        name: Name::read(alloc, text.get(..1).ok_or("a name")?)?,
        version: Some(Version::read(b"aaaaa").ok_or("a version")?),
        deps: Seq::of(deps),
        group: Group::Plain,
        source: Text::of(alloc, "")?,
        skip,
    })
}

fn rows(alloc: Global, text: &str) -> Result<Vec<Row>, Fail>
    ensures { IfOk result (λ rows. AreRegistrable rows.items) }
{
    let mut rows = Vec::new(alloc);
    for text in text.split(' ') {
        rows.push(row(alloc, text.as_bytes())?)?;
    }
    Ok(rows)
}

/// The table of these rows, in a view with the feature `f`.
fn opened(alloc: Global, text: &str) -> Result<Table, Fail>
    ensures { IfOk result (λ table. table.executing ≡ None) }
{
    let features = [Text::of(alloc, "f")?];
    let registry = Registry::read(alloc, rows(alloc, text)?, &features)?;
    Ok(Table::open(alloc, registry)?)
}

/// Touches the first rows, so many of them.
fn touch<L: Ledger>(table: &mut Table, count: u32, steps: &mut Steps<L>)
    requires { table.old.executing ≡ None }
    ensures { table.new.executing ≡ None }
{
    for row in 0..table.registry().count() {
        if row < count {
            table.touch(&[row], steps);
        }
    }
}

/// Answers a row, where it may be answered.
fn answer<L: Ledger>(table: &mut Table, row: u32, outcome: Outcome, steps: &mut Steps<L>)
    requires { table.old.executing ≡ None }
    ensures { table.new.executing ≡ None }
{
    if row < table.registry().count()
        && table.touched(row)
        && !table.registry().skipped(row)
        && !table.has_outcome(row)
    {
        table.outcome(row, outcome, steps);
    }
}

/// Runs all that may run. An observer throws for one row, if for any.
fn run_all<L: Ledger>(table: &mut Table, throwing: u32, steps: &mut Steps<L>)
    requires { table.old.executing ≡ None }
    ensures { table.new.executing ≡ None }
{
    for _turn in 0..table.registry().count() {
        if let Some(row) = table.next_run(steps) {
            table.ran(row, throwing == row, steps);
        }
    }
}

/// What a letter says of an answer.
fn outcome_of(letter: u8) -> Outcome {
    match letter {
        b'i' => Outcome::Impl,
        b'm' => Outcome::Missing,
        b'e' => Outcome::Error,
        _ => Outcome::GivenUp,
    }
}

/// Does a step: a letter answers the row of the digit after it, and `t` touches as many rows.
fn step<L: Ledger>(table: &mut Table, word: &[u8], steps: &mut Steps<L>)
    requires { table.old.executing ≡ None }
    ensures { table.new.executing ≡ None }
{
    match word {
        [b't', count] => touch(table, digit(*count), steps),
        [letter, row] => answer(table, digit(*row), outcome_of(*letter), steps),
        _ => {}
    }
}

/// The states of the rows, and the rows that ran.
fn told(alloc: Global, table: &Table) -> Result<String, Fail> {
    let mut text = String::new(alloc);
    for row in 0..table.registry().count() {
        write!(text, "{:?} ", table.state(row))?;
    }
    write!(text, "{:?}", table.log())?;
    Ok(text)
}

/// What a table says of these rows after these steps.
fn played<L: Ledger>(
    alloc: Global,
    rows: &[u8],
    script: &[u8],
    throwing: u32,
    blank: Blank,
) -> Result<String, Fail>
    requires name { blank.name ≡ L.name }
    requires parts { blank.parts ≡ L.parts }
    requires some { 0 < L.parts }
{
    let rows = str::from_utf8(rows).ok().ok_or("rows")?;
    let script = str::from_utf8(script).ok().ok_or("a script")?;
    let mut steps = Steps::<L>::open(blank);
    let mut table = opened(alloc, rows)?;
    for word in script.split(' ') {
        step(&mut table, word.as_bytes(), &mut steps);
        run_all(&mut table, throwing, &mut steps);
    }
    told(alloc, &table)
}

/// Each row that is 9 is none.
#[test]
fn chain_of_three(rt: HostRuntime) -> Result<(), Fail> {
    let alloc = rt.alloc();
    for (script, throwing, want) in [
        ("t0", 9, "Registered Registered Registered []"),
        ("t3", 9, "Loading Loading Loading []"),
        ("t3 i0", 9, "Loaded Loading Loading []"),
        ("t3 i0 i1", 9, "Loaded Loaded Loading []"),
        ("t3 i0 i1 i2", 9, "Ready Ready Ready [2, 1, 0]"),
        ("t3 i0 i1 i2", 2, "Error Error Error [2]"),
        ("t3 i0 i1 i2", 1, "Error Error Ready [2, 1]"),
        ("t3 i0 i1 i2", 0, "Error Ready Ready [2, 1, 0]"),
    ] {
        let said = played::<Brand>(
            alloc,
            b"A1 B2 C",
            script.as_bytes(),
            throwing,
            Blank::new(1),
        )?;
        assert_eq!(rt; said.as_str(), want, "of {script} with {throwing}");
    }
    Ok(())
}

/// `A` needs `S` and `C`. `S` is skipped, so nothing needs `D`, which is not touched.
#[test]
fn outcomes_and_skips(rt: HostRuntime) -> Result<(), Fail> {
    let alloc = rt.alloc();
    for (script, want) in [
        ("i0", "Loaded Ready Loading Registered []"),
        ("m0", "Missing Ready Loading Registered []"),
        ("e0", "Error Ready Loading Registered []"),
        ("g0", "Error Ready Loading Registered []"),
        ("i2", "Loading Ready Ready Registered [2]"),
        ("m2", "Error Ready Missing Registered []"),
        ("g2", "Error Ready Error Registered []"),
        ("i0 i2", "Ready Ready Ready Registered [2, 0]"),
        ("i2 i0", "Ready Ready Ready Registered [2, 0]"),
        ("i0 m2", "Error Ready Missing Registered []"),
        ("e2 m0", "Missing Ready Error Registered []"),
        ("m0 i2 i3", "Missing Ready Ready Registered [2]"),
    ] {
        let steps = format!(in alloc; "t3 {script}")?;
        let said = played::<Brand>(alloc, b"A12 S3 C D", steps.as_bytes(), 9, Blank::new(1))?;
        assert_eq!(rt; said.as_str(), want, "of {script}");
    }
    Ok(())
}

/// A row that fails spoils each row that leads to it, over several ways and round a row that needs itself.
#[test]
fn failures_pass_on(rt: HostRuntime) -> Result<(), Fail> {
    let alloc = rt.alloc();
    for (script, want) in [
        ("t6 e5", "Error Error Error Loading Error Error []"),
        ("t6 i0 i3 e4", "Error Error Error Ready Error Loading [3]"),
        ("t6 e1 e5", "Error Error Error Loading Error Error []"),
        (
            "t6 i3 i5 i4 i2 i1 i0",
            "Ready Ready Ready Ready Ready Ready [3, 5, 4, 2, 1, 0]",
        ),
    ] {
        let said = played::<Brand>(
            alloc,
            b"A12 B4 C43 D3 E5 F",
            script.as_bytes(),
            9,
            Blank::new(1),
        )?;
        assert_eq!(rt; said.as_str(), want, "of {script}");
    }
    Ok(())
}

/// All but the last row need it, and `A` needs `C` too. The choice is made anew after each run.
#[test]
fn least_row_first(rt: HostRuntime) -> Result<(), Fail> {
    least_rows::<Brand, _>(&rt, rt.alloc(), Blank::new(1))
}

fn least_rows<L: Ledger, A: Abort>(rt: &A, alloc: Global, blank: Blank) -> Result<(), Fail>
    requires name { blank.name ≡ L.name }
    requires parts { blank.parts ≡ L.parts }
    requires some { 0 < L.parts }
{
    let mut steps = Steps::<L>::open(blank);
    let mut table = opened(alloc, "A24 B4 C4 D4 Z")?;
    touch(&mut table, 5, &mut steps);
    for row in 0..5 {
        assert_eq!(rt; table.first_run(&mut steps), None);
        answer(&mut table, row, Outcome::Impl, &mut steps);
    }
    for want in [4, 1, 2, 0, 3] {
        assert_eq!(rt; table.first_run(&mut steps), Some(want));
        let row = table.next_run(&mut steps).ok_or("a row that runs")?;
        assert_eq!(rt; row, want);
        assert!(rt; row < table.registry().count());
        assert_eq!(rt; table.state(row), Phase::Executing);
        assert!(rt; !table.has_run(row));
        table.ran(row, false, &mut steps);
        assert!(rt; table.has_run(row));
    }
    assert_eq!(rt; table.next_run(&mut steps), None);
    assert_eq!(rt; table.log(), [4, 1, 2, 0, 3].as_slice());
    Ok(())
}
