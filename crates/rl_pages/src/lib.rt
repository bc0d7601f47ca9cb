//! The pages of a wiki: who may edit them, the history of edits and choices, and what each viewer sees of it.
#![tactic(auto)]

pub mod entry;
pub mod limits;
mod numbers;
mod options;
pub mod pages;
pub mod policy;
pub mod refusals;
#[cfg(test)]
mod tests;
pub mod viewer;

pub use entry::Entry;
pub use limits::{MAX_ENTRIES, MAX_ENTRY_BYTES, MAX_KEY_BYTES, MAX_PAGE_BYTES, MAX_VALUE_BYTES};
pub use pages::{Pages, history_laws, seen_laws};
pub use policy::Policy;
pub use refusals::{ChoiceError, EditError, KeptError};
pub use viewer::{Viewer, ViewerError};
