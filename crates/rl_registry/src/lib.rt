//! The registry of a view: its rows, and what they need of one another.
#![tactic(auto)]

pub mod error;
pub mod registry;
#[cfg(test)]
mod tests;

pub use error::{RegistryError, ResolveError};
pub use registry::Registry;
