//! The gadget list of a wiki: the lines of a page that define modules.
#![tactic(auto)]

mod cut;
pub mod gadget;
mod line;
pub mod list;
mod options;
mod pages;
#[cfg(test)]
mod tests;

pub use gadget::Gadget;
pub use list::{GadgetList, MAX_GADGETS, read_gadgets};
