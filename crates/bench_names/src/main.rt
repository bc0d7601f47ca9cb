//! Does work of `rl_names` so many times over, for a benchmark. The words are pairs of a kind of work and a number of
//! rounds; for each pair the hash of what the work gave is printed.
#![tactic(auto)]

use anyhow::{Result, bail};
use rl_names::{Hasher, Name, Query, Version, expand, pack};
use std::alloc::Global;
use std::env;

/// How many bytes one round hashes.
const BLOCK: u32 = 1 << 20;

/// How many names one round packs and expands.
const NAMES: u32 = 1000;

/// The forms that are read and written in turn.
const FORMS: [&str; 4] = [
    "modules=jquery&lang=en&skin=vector&version=1efc7",
    "skin=vector&lang=de&modules=ext.one.a%2Cb%2Cc%7Cext.two.d%2Ce%7Cmw.util&debug=1&only=scripts",
    "modules=startup&only=scripts&raw=1&skin=vector&lang=en&sync=1",
    "user=Zo%C3%A9+Lee&modules=user&lang=pt-br&skin=monobook&version=ztntf&lang=de&safemode=1",
];

/// Hashes a block of bytes in each round, all in one hash.
fn hash(alloc: Global, rounds: u32) -> Result<Version> {
    let mut block = Vec::with_capacity(alloc, BLOCK as usize)?;
    for i in 0..BLOCK {
        block.push((i % 251) as u8)?;
    }
    let mut hasher = Hasher::new();
    for _ in 0..rounds {
        hasher.add(&block);
    }
    Ok(hasher.finish())
}

/// Names in groups of ten, whose members stand far apart.
fn names(alloc: Global) -> Result<Vec<Name>> {
    let mut names = Vec::new(alloc);
    for i in 0..NAMES {
        let text = format!(in alloc; "ext.group{}.module{}", i % 100, i)?;
        names.push(Name::read(alloc, text.as_bytes())?)?;
    }
    Ok(names)
}

/// Packs the names and expands the text in each round.
fn packing(alloc: Global, rounds: u32) -> Result<Version> {
    let names = names(alloc)?;
    let mut hasher = Hasher::new();
    for _ in 0..rounds {
        let packed = pack(alloc, &names)?;
        hasher.add(packed.as_bytes());
        if let Some(last) = expand(alloc, packed.as_str())?.last() {
            hasher.add(last.as_bytes());
        }
    }
    Ok(hasher.finish())
}

/// Reads and writes one of the forms in each round.
fn queries(alloc: Global, rounds: u32) -> Result<Version> {
    let mut hasher = Hasher::new();
    for i in 0..rounds {
        let form = FORMS[(i % 4) as usize];
        let query = Query::read(alloc, form.as_bytes())?;
        hasher.add(query.write()?.as_bytes());
    }
    Ok(hasher.finish())
}

/// Does so many rounds of a kind of work.
fn work(alloc: Global, kind: &str, rounds: u32) -> Result<Version> {
    match kind {
        "hash" => hash(alloc, rounds),
        "packing" => packing(alloc, rounds),
        "queries" => queries(alloc, rounds),
        _ => bail!("no work is called {kind}"),
    }
}

fn main(rt: HostRuntime) -> Result<()> {
    let words = env::args(&rt)?.skip(1).collect::<Vec<String>>(rt.alloc())?;
    for pair in words.chunks(2) {
        let [kind, rounds] = pair else {
            bail!("a kind of work stands without its rounds");
        };
        let rounds = rounds.parse::<u32>()?;
        let checksum = work(rt.alloc(), kind.as_str(), rounds)?;
        println!(rt; "{}", checksum.as_str())?;
    }
    Ok(())
}
