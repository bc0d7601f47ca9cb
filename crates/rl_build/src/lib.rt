//! What each module of a wiki is in a context: its sheet, the texts that it brings, and their
//! version.
#![tactic(auto)]

mod all_names;
pub mod built_in;
pub mod context;
pub mod lookup;
mod options;
mod pages;
pub mod payloads;
pub mod sheets;
#[cfg(test)]
mod tests;
mod texts;

pub use all_names::names;
pub use built_in::BuiltIn;
pub use context::Context;
pub use lookup::{group_and_source, payload, sheet};
pub use payloads::{Payload, version};
pub use sheets::Sheet;
