//! What the steps of both ends answer, and the lines that are printed.
#![tactic(auto)]

mod reply;
#[cfg(test)]
mod tests;
mod text;

pub use reply::Reply;
pub use text::{state_word, write, write_key, write_line, write_number};
