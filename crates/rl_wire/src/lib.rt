//! The texts of answers: what the client reads as modules and states.
#![tactic(auto)]

pub mod error;
pub mod line;
pub mod part;
pub mod payload;
pub mod read;
mod read_rows;
mod rows;
mod sources;
pub mod startup;
#[cfg(test)]
mod tests;
mod values;

pub use error::WireError;
pub use line::{push_implementation, push_payload, push_state};
pub use part::{Part, write_answer, write_part};
pub use payload::payload_text;
pub use read::{read_answer, read_part, reading_laws};
pub use rl_names::{Message, StateKind};
pub use startup::{Startup, is_writable, read_startup, startup_laws, write_startup};
