//! Registries of drawn rows: their closures before and after compaction, under each set of three features.
ghost use Rattle.std.specs.Prelude.{◌<◌, IfOk, IsTrue};
ghost use Rattle.rl_view_spec.specs.Rows.{has_version_unless_private, has_own_group, AreRegistrable};

use super::{compacted, row_of, rows_text};
use rl_names::{Dep, Row, Text};
use rl_registry::{Registry, ResolveError};
use std::alloc::Global;
use std::test::Fail;

/// How many rows are drawn.
const COUNT: u64 = 60;

/// Numbers that are drawn one after another.
#[derive(Drop)]
struct Draws {
    state: u64,
}

impl Draws {
    /// A number below this one.
    fn below(&mut self, most: u64) -> u64
        requires { 0 < most }
        ensures { result < most }
    {
        self.state = self
            .state
            .wrapping_mul(6364136223846793005)
            .wrapping_add(1442695040888963407);
        (self.state >> 33) % most
    }
}

/// A dependency on one of the rows behind this one, by number or by name, now and then on any row, or on none.
fn drawn_dep(alloc: Global, draws: &mut Draws, at: u64) -> Result<Dep, Fail>
    requires { at < 59 }
{
    let behind = at + 1 + draws.below(COUNT - 1 - at);
    match draws.below(100) {
        0 => Ok(Dep::Named(Text::of(alloc, "absent")?)),
        1 => Ok(Dep::At(draws.below(COUNT) as u32)),
        2..=20 => Ok(Dep::Named(Text::of(alloc, format!(in alloc; "m{behind}")?.as_str())?)),
        _ => Ok(Dep::At(behind as u32)),
    }
}

/// A row of some dependencies, which a feature may skip.
fn drawn_row(alloc: Global, draws: &mut Draws, at: u64) -> Result<Row, Fail>
    ensures version { IfOk result (λ row. IsTrue (has_version_unless_private row)) }
    ensures group { IfOk result (λ row. IsTrue (has_own_group row)) }
{
    let mut deps = Vec::new(alloc);
    for _ in 0..draws.below(5) {
        if at < COUNT - 1 {
            deps.push(drawn_dep(alloc, draws, at)?)?;
        }
    }
    let skip = match draws.below(8) {
        0 => Some(Text::of(alloc, "f")?),
        1 => Some(Text::of(alloc, "g")?),
        2 => Some(Text::of(alloc, "h")?),
        _ => None,
    };
    let name = format!(in alloc; "m{at}")?;
    row_of(alloc, name.as_str(), deps, skip)
}

/// The rows that are drawn from a seed.
fn drawn(alloc: Global, seed: u64) -> Result<Vec<Row>, Fail>
    ensures { IfOk result (λ rows. AreRegistrable rows.items) }
{
    let mut draws = Draws { state: seed };
    let mut rows = Vec::new(alloc);
    for at in 0..COUNT {
        rows.push(drawn_row(alloc, &mut draws, at)?)?;
    }
    Ok(rows)
}

/// The features that a text names.
fn features(alloc: Global, text: &str) -> Result<Vec<Text>, Fail> {
    let mut features = Vec::new(alloc);
    for word in text.split(' ') {
        features.push(Text::of(alloc, word)?)?;
    }
    Ok(features)
}

/// The numbers of a closure, or why there is none.
fn closure_text(alloc: Global, closure: Result<Vec<u32>, ResolveError>) -> Result<String, Fail> {
    match closure {
        Ok(rows) => Ok(format!(in alloc; "{rows:?}")?),
        Err(error) => Ok(format!(in alloc; "{error}")?),
    }
}

/// The closures of all rows, as their registry tells them.
fn closures(alloc: Global, rows: Vec<Row>, features: &[Text]) -> Result<String, Fail>
    requires { AreRegistrable rows.items }
{
    let registry = Registry::read(alloc, rows, features)?;
    let mut texts = String::new(alloc);
    for row in 0..registry.count() {
        let name = registry.row_at(row).name.as_str();
        let text = closure_text(alloc, registry.resolve(name.as_bytes()))?;
        texts.push_str(text.as_str())?;
        texts.push_str(" ")?;
    }
    Ok(texts)
}

/// The closures of drawn rows, before and after compaction.
fn both(alloc: Global, seed: u64, set: &str) -> Result<(String, String), Fail> {
    let features = features(alloc, set)?;
    let before = closures(alloc, drawn(alloc, seed)?, features.as_slice())?;
    let left = compacted(alloc, drawn(alloc, seed)?)?;
    let after = closures(alloc, left, features.as_slice())?;
    Ok((before, after))
}

/// The texts of drawn rows, before and after compaction.
fn both_texts(alloc: Global, seed: u64) -> Result<(String, String), Fail> {
    let before = rows_text(alloc, drawn(alloc, seed)?.as_slice())?;
    let left = compacted(alloc, drawn(alloc, seed)?)?;
    let after = rows_text(alloc, left.as_slice())?;
    Ok((before, after))
}

#[test]
fn closures_stay(rt: HostRuntime) -> Result<(), Fail> {
    let alloc = rt.alloc();
    for seed in 1..5u64 {
        for set in ["", "f", "g", "h", "f g", "f h", "g h", "f g h"] {
            let (before, after) = both(alloc, seed, set)?;
            assert_eq!(rt; after.as_str(), before.as_str(), "seed {seed} under {set}");
        }
    }
    Ok(())
}

#[test]
fn dependencies_go(rt: HostRuntime) -> Result<(), Fail> {
    let alloc = rt.alloc();
    for seed in 1..5u64 {
        let (before, after) = both_texts(alloc, seed)?;
        assert!(rt; after.len() < before.len(), "seed {seed}");
    }
    Ok(())
}
