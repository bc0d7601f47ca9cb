//! Keeps entries in a database, for a benchmark and for a test that kills it.
//!
//! The words are `append FILE COUNT`, `open FILE` or `try COUNT`. `append` prints the number of each entry once its append
//! has returned; `open` reads all that the file keeps and prints how many entries there are; `try` appends to a database
//! in memory and prints how many it keeps.
#![tactic(auto)]

ghost use Rattle.std.specs.Prelude.{◌≡◌, ◌+◌, IfOk, IfSome, OnOk, length};

use anyhow::{Result, bail};
use rl_keeper::{Keeper, SqlKeeper};
use rl_names::{Text, Title};
use rl_pages::Entry;
use sqlite::Connection;
use std::alloc::Global;
use std::env;

/// How many pages are edited in turn.
const PAGES: u64 = 10_000;

/// The edit of this number.
fn edit(alloc: Global, number: u64) -> Result<Entry> {
    let title = format!(in alloc; "Page {}", number % PAGES)?;
    let text = format!(in alloc; "text of the edit of number {}", number)?;
    Ok(Entry::Edit {
        by: Text::of(alloc, "Ann")?,
        title: Title::read(alloc, title.as_bytes())?,
        text: Text::of(alloc, text.as_str())?,
    })
}

/// Appends the entry of this number, and tells that the append has returned.
fn append<K: Keeper>(rt: &HostRuntime, keeper: &mut K, number: u64, tells: bool) -> Result<()>
    requires { IfSome (K.entries keeper.old) (λ told. number ≡ length told + 1) }
    ensures { OnOk result (IfSome (K.entries keeper.new) (λ told. number ≡ length told)) }
{
    let entry = edit(rt.alloc(), number)?;
    keeper.append(number, &entry)?;
    if tells {
        println!(rt; "{}", number)?;
    }
    Ok(())
}

/// How many entries a keeper has.
fn count<K: Keeper>(keeper: &mut K) -> Result<u64>
    ensures { IfOk result (λ count. IfSome (K.entries keeper.new) (λ told. count ≡ length told)) }
{
    let entries = keeper.read_all()?;
    Ok(entries.len() as u64)
}

/// Appends so many entries after those that are there.
fn append_all<K: Keeper>(rt: &HostRuntime, keeper: &mut K, more: u64, tells: bool) -> Result<()> {
    let mut number = count(keeper)?;
    'more: for _ in 0..more {
        let Some(next) = number.checked_add(1) else {
            bail!("there are too many entries");
        };
        append(rt, keeper, next, tells)?;
        number = next;
    }
    Ok(())
}

/// Appends so many entries to a keeper, and lets it go. Whose keeper it is stands open here and below, so that the proof
/// looks into no database.
fn append_to<K: Keeper + Drop>(rt: &HostRuntime, keeper: K, more: u64) -> Result<()> {
    let mut keeper = keeper;
    append_all(rt, &mut keeper, more, true)
}

/// Prints how many entries a keeper has after so many appends, and lets it go.
fn print_count<K: Keeper + Drop>(rt: &HostRuntime, keeper: K, more: u64) -> Result<()> {
    let mut keeper = keeper;
    append_all(rt, &mut keeper, more, false)?;
    println!(rt; "{}", count(&mut keeper)?)?;
    Ok(())
}

fn append_to_file(rt: &HostRuntime, file: &str, more: u64) -> Result<()> {
    let keeper = SqlKeeper::over(rt.alloc(), Connection::open(rt, file)?)?;
    append_to(rt, keeper, more)
}

fn count_in_file(rt: &HostRuntime, file: &str) -> Result<()> {
    let keeper = SqlKeeper::over(rt.alloc(), Connection::open(rt, file)?)?;
    print_count(rt, keeper, 0)
}

fn count_in_memory(rt: &HostRuntime, more: u64) -> Result<()> {
    let keeper = SqlKeeper::over(rt.alloc(), Connection::open_in_memory(rt.alloc())?)?;
    print_count(rt, keeper, more)
}

fn main(rt: HostRuntime) -> Result<()> {
    let words = env::args(&rt)?.skip(1).collect::<Vec<String>>(rt.alloc())?;
    match words.as_slice() {
        [kind, file, more] if kind.as_str() == "append" => {
            append_to_file(&rt, file.as_str(), more.parse::<u64>()?)
        }
        [kind, file] if kind.as_str() == "open" => count_in_file(&rt, file.as_str()),
        [kind, more] if kind.as_str() == "try" => count_in_memory(&rt, more.parse::<u64>()?),
        _ => bail!("the words are append FILE COUNT, open FILE or try COUNT"),
    }
}
