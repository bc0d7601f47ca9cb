//! What no clause says: that files are taken with ample memory, and that worked examples are told
//! what the rules say of them.

mod accessors;
mod limits;
mod order;
mod refusals;

use crate::Catalog;
use std::alloc::Global;
use std::process::Abort;
use std::test::Fail;

/// What a file is told: its refusal as it is printed, or `taken`.
fn told(alloc: Global, file: &[u8]) -> Result<String, Fail> {
    match Catalog::read(alloc, file) {
        Ok(_) => Ok(String::from_str(alloc, "taken")?),
        Err(error) => Ok(format!(in alloc; "{error}")?),
    }
}

/// Compares what a file is told.
fn compare(rt: &impl Abort, alloc: Global, file: &[u8], wanted: &str) -> Result<(), Fail> {
    assert_eq!(rt; told(alloc, file)?.as_str(), wanted);
    Ok(())
}

/// Compares what each of these files is told.
fn compare_all(rt: &impl Abort, alloc: Global, cases: &[(&str, &str)]) -> Result<(), Fail> {
    for (file, wanted) in cases {
        compare(rt, alloc, file.as_bytes(), wanted)?;
    }
    Ok(())
}
