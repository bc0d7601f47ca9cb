//! What no clause says: printed bytes, statuses with ample memory, and an outside that fails.

mod check;
mod limits;
mod observers;
mod outside;
mod queries;
mod scripts;

use crate::{Status, run};
use rl_base::{MemSink, MemTree};
use rl_names::{Blob, NoMemory, Text};
use std::alloc::Global;

/// A tree that holds one file.
fn tree_of(alloc: Global, name: &str, bytes: &[u8]) -> Result<MemTree, NoMemory> {
    let mut files = Vec::new(alloc);
    files.push((Text::of(alloc, name)?, Blob::of(alloc, bytes)?))?;
    MemTree::new(alloc, files, Vec::new(alloc))
}

/// What `drive` answers and writes for a script.
fn driven(alloc: Global, script: &[u8]) -> Result<(Status, Vec<u8>), NoMemory> {
    let mut tree = tree_of(alloc, "a.script", script)?;
    let mut out = MemSink::new(alloc, Vec::new(alloc))?;
    let words = ["drive", "a.script"];
    let ended = run(alloc, &words, &mut tree, &mut out, Vec::new(alloc));
    Ok((ended.status, Vec::from_slice(alloc, out.written())?))
}
