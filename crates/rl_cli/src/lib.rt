//! The top call: words, files and their sizes, the work, the output, and the status that says how it
//! ended.
#![tactic(auto)]

mod call;
mod check;
mod end;
mod file;
mod observers;
mod output;
mod pages;
mod report;
mod spelt;
mod status;
mod words;
mod work;

pub use call::run;
pub use report::Report;
pub use spelt::Spelt;
pub use status::{Ended, Status};

#[cfg(test)]
mod tests;
