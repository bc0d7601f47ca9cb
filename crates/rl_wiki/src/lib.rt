//! One wiki: its definitions and its history, by itself or over entries that are kept.
#![tactic(auto)]

pub mod desk;
pub mod error;
mod front;
mod opening;
#[cfg(test)]
mod tests;
pub mod wiki;

pub use desk::Desk;
pub use error::{DeskChoiceError, DeskEditError, OpenError, Turned};
pub use opening::opening_laws;
pub use wiki::Wiki;
