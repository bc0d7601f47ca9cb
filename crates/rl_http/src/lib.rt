//! The wiki over HTTP: heads of requests, routes, answers, and one connection served.
#![tactic(auto)]

pub mod answers;
pub mod forms;
pub mod hand;
pub mod heads;
pub mod inbox;
pub mod numbers;
pub mod outbox;
pub mod reading;
pub mod real;
pub mod refusals;
pub mod replies;
pub mod routes;
pub mod routing;
pub mod serving;
pub mod writing;

pub use heads::{Head, HeadRead};
pub use reading::read_head;
pub use real::TcpConn;
pub use refusals::Refusal;
pub use replies::reply_to;
pub use routes::Route;
pub use routing::{Routes, route};
pub use serving::{End, Served, serve_desk};

#[cfg(test)]
mod tests;
