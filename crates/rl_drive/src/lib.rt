//! The loop over the steps of a `drive` script: it does them, and writes the replies, what ran and the summary.
#![tactic(auto)]

mod given;
mod player;
mod script;
mod steps;
#[cfg(test)]
mod tests;
mod unready;

pub use script::{DriveError, drive};
pub use steps::{Driven, play};
