//! Rows by their numbers: an index of their names, and what they ask of one another.
#![tactic(auto)]

pub mod index;
pub mod rows;
#[cfg(test)]
mod tests;

pub use index::{find, index_of, least_repeated, lesser};
pub use rows::{all_edges, dep_name, first_bad_index, first_wide, skips_of};
