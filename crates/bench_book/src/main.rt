//! Views a page over texts that lie in files, for a benchmark.
//!
//! The words are `open STARTUP`, `ask STARTUP` or `page STARTUP ANSWER..`. Each opens a view over the startup text. `ask` requests
//! every row and prints the query of each ask, in order; `page` does so and delivers the answers, in the order of the asks. At
//! the end each prints how many rows there are, how many asks there were, and how many rows executed.
#![tactic(auto)]

ghost use Rattle.std.specs.Prelude.{IfOk};
ghost use Rattle.rl_batch.specs.Given.{IsBase};

use anyhow::{Result, bail};
use rl_base::Hears;
use rl_book::{Mark, Plan, Visit};
use rl_names::{Blob, Key, NoMemory, Only, Query, Seq, Text};
use rl_store::Store;
use std::alloc::Global;
use std::{env, fs};

/// A query may have so many bytes that 257 names of five bytes fit into it.
const LIMIT: u32 = 2_100;

/// What `lang=en&skin=vector` reads as.
fn base(alloc: Global) -> Result<Query>
    ensures { IfOk result IsBase }
{
    Ok(Query {
        modules: Text::of(alloc, "")?,
        lang: Text::of(alloc, "en")?,
        skin: Text::of(alloc, "vector")?,
        debug: false,
        only: Only::All,
        user: Text::of(alloc, "")?,
        version: Text::of(alloc, "")?,
    })
}

/// A plan without features, and with no embedded text.
fn plan(alloc: Global) -> Result<Plan>
    ensures { IfOk result (λ plan. IsBase plan.base) }
{
    Ok(Plan {
        base: base(alloc)?,
        features: Seq::of(Vec::new(alloc)),
        embedded: Blob::of(alloc, b"")?,
        limit: LIMIT,
    })
}

/// Observers who keep nothing, and throw for nothing.
#[derive(Drop)]
struct Nobody;

impl Hears for Nobody {
    ghost use Rattle.std.specs.Prelude.{⊤, [], false};

    ghost told = { λ _. [] };

    ghost says = { λ _ k s. false };

    ghost same = { λ first t. ⊤ };

    fn hear(&mut self, _key: &Key, _script: &[u8]) -> Result<bool, NoMemory> {
        Ok(false)
    }
}

/// A view over a startup text and an empty store.
fn opened(alloc: Global, startup: &[u8]) -> Result<Visit> {
    let store = Store::empty(alloc, b"vector|1|en")?;
    match Visit::open(alloc, startup, plan(alloc)?, store) {
        Ok(visit) => Ok(visit),
        Err(turned) => bail!("the view does not open: {}", turned.why),
    }
}

/// The names of all rows.
fn names(alloc: Global, visit: &Visit) -> Result<Vec<Text>> {
    let registry = visit.registry();
    let mut names = Vec::new(alloc);
    for row in 0..registry.count() {
        names.push(Text::of(alloc, registry.row_at(row).name.as_str())?)?;
    }
    Ok(names)
}

/// Requests names together.
fn request(visit: &mut Visit, names: &[Text]) -> Result<()> {
    visit.using(names, &mut Nobody)?;
    Ok(())
}

/// Prints the query of the next ask, and tells whether there is one.
fn print_next(rt: &HostRuntime, visit: &mut Visit) -> Result<bool> {
    let Some(ask) = visit.take()? else {
        return Ok(false);
    };
    println!(rt; "{}", ask.query.as_str())?;
    Ok(true)
}

/// Requests all rows, and asks for each batch.
fn ask_for_all(rt: &HostRuntime, visit: &mut Visit) -> Result<()> {
    let names = names(rt.alloc(), visit)?;
    request(visit, names.as_slice())?;
    for _ in 0..names.len() {
        if !print_next(rt, visit)? {
            break;
        }
    }
    Ok(())
}

/// Delivers an answer to an ask.
fn deliver(visit: &mut Visit, ask: u32, bytes: &[u8]) -> Result<()> {
    visit.deliver(ask, bytes, Mark { link: 0, answer: 0 }, &mut Nobody)?;
    Ok(())
}

/// Delivers the answers that the files hold, in the order of the asks.
fn deliver_all(rt: &HostRuntime, visit: &mut Visit, files: &[String]) -> Result<()> {
    let mut ask: u32 = 0;
    for file in files {
        let bytes = fs::read(rt, file.as_str())?;
        deliver(visit, ask, bytes.as_slice())?;
        ask = ask.saturating_add(1);
    }
    Ok(())
}

fn print_counts(rt: &HostRuntime, visit: &Visit) -> Result<()> {
    let rows = visit.registry().count();
    println!(rt;
        "rows {rows} asks {} executed {}",
        visit.ask_count(),
        visit.run_count()
    )?;
    Ok(())
}

/// A view over the startup text that a file holds.
fn opened_over(rt: &HostRuntime, file: &str) -> Result<Visit> {
    let startup = fs::read(rt, file)?;
    opened(rt.alloc(), startup.as_slice())
}

/// Opens a view, and asks for all rows where `asks` says so; then the answers of these files are delivered.
fn view(rt: &HostRuntime, startup: &str, asks: bool, answers: &[String]) -> Result<()> {
    let mut visit = opened_over(rt, startup)?;
    if asks {
        ask_for_all(rt, &mut visit)?;
    }
    deliver_all(rt, &mut visit, answers)?;
    print_counts(rt, &visit)
}

fn main(rt: HostRuntime) -> Result<()> {
    let words = env::args(&rt)?.skip(1).collect::<Vec<String>>(rt.alloc())?;
    match words.as_slice() {
        [kind, startup] if kind.as_str() == "open" => view(&rt, startup.as_str(), false, &[]),
        [kind, startup] if kind.as_str() == "ask" => view(&rt, startup.as_str(), true, &[]),
        [kind, startup, answers @ ..] if kind.as_str() == "page" => {
            view(&rt, startup.as_str(), true, answers)
        }
        _ => bail!("the words are open STARTUP, ask STARTUP or page STARTUP ANSWER.."),
    }
}
