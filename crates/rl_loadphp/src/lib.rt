//! Answers to requests for modules, as load.php gives them.
#![tactic(auto)]

pub mod answers;
pub mod embedding;
pub mod isolation;
mod lines;
pub mod requests;
mod serving;
#[cfg(test)]
mod tests;
mod texts;

pub use answers::{Answer, AnswerError, Kind};
pub use embedding::embed;
pub use requests::{answer, read_context, read_query};
pub use serving::names_viewer;
