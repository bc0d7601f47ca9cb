//! Parts that are kept from view to view.
#![tactic(auto)]

mod copying;
mod keys;
mod merging;
pub mod note;
pub mod store;
#[cfg(test)]
mod tests;
mod writing;

pub use merging::name_laws;
pub use note::Note;
pub use rl_book_spec::Stored;
pub use store::{AfterTurned, Opened, Store, Turned};
