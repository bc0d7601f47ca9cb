//! One page view: requests, asks, deliveries and losses, and what executes for them.
#![tactic(auto)]

mod answer;
pub mod book;
pub mod boxes;
mod delivering;
mod error;
mod given;
mod giving;
mod held;
pub mod laws;
mod opening;
mod requesting;
mod running;
mod serving;
#[cfg(test)]
mod tests;
mod touching;
pub mod visit;

pub use answer::{Ask, Lost, Run};
pub use book::{Book, Closed, Turned};
pub use boxes::Boxes;
pub use error::{DeliverError, LoseRefusal, OpenError, UsingError};
pub use rl_book_spec::{Call, Mark, Origin, Plan, Took};
pub use visit::{Visit, VisitTurned};
