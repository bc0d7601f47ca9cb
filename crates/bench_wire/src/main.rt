//! Reads the text of an answer so many times over, for a benchmark.
//!
//! The words are `read FILE ROUNDS`, which prints how many parts the answer of the file has, or `try ROUNDS`, which reads an
//! answer of one part.
#![tactic(auto)]

use anyhow::{Result, bail};
use rl_wire::read_answer;
use std::alloc::Global;
use std::{env, fs};

/// An answer of one part.
const ONE: &[u8] = b"mw.loader.state({\"zz\":\"missing\"});\n";

/// How many parts an answer has, read so many times.
fn parts(alloc: Global, bytes: &[u8], rounds: u32) -> Result<usize> {
    let mut count = 0;
    for _ in 0..rounds {
        count = read_answer(alloc, bytes)?.len();
    }
    Ok(count)
}

fn main(rt: HostRuntime) -> Result<()> {
    let words = env::args(&rt)?.skip(1).collect::<Vec<String>>(rt.alloc())?;
    let count = match words.as_slice() {
        [kind, file, rounds] if kind.as_str() == "read" => {
            let bytes = fs::read(&rt, file.as_str())?;
            parts(rt.alloc(), bytes.as_slice(), rounds.parse::<u32>()?)?
        }
        [kind, rounds] if kind.as_str() == "try" => {
            parts(rt.alloc(), ONE, rounds.parse::<u32>()?)?
        }
        _ => bail!("the words are read FILE ROUNDS or try ROUNDS"),
    };
    println!(rt; "{}", count)?;
    Ok(())
}
