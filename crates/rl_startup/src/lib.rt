//! The registry of a wiki, as the client of a viewer gets it: its rows, and the startup text.
#![tactic(auto)]

pub mod modules;
mod places;
pub mod registry;
#[cfg(test)]
mod tests;

pub use modules::{Module, row_laws};
pub use registry::{rows, startup_text};
