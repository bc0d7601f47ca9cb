//! The steps of both ends of a wiki, edits and what a page does: reading scripts of them, and writing them.
#![tactic(auto)]

mod line;
mod script;
mod step;
#[cfg(test)]
mod tests;
mod write;

pub use rl_script::ScriptError;
pub use script::{Kinds, read_script};
pub use step::{CLOCK_END, Step};
pub use write::{spelling_laws, write_step};
