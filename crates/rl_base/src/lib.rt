//! The outside as a program meets it: files by name, an output, a connection to a peer, and observers
//! of what runs, each and together.
//!
//! Each is a trait, so that what reads and writes is proved whatever stands behind it. Each has a count
//! of faults that never falls, and answers `Failed` only where that count rose in the call: who meets
//! a fault can show whose it was. The memory forms tell their contents to contracts; the real forms,
//! over the system's files and standard output, tell none: they hand on what the system's reader and
//! writer gave, and keep why it refused.
#![tactic(auto)]

pub mod conn;
pub mod fault;
pub mod hears;
pub mod mem_conn;
pub mod memory;
pub mod observer;
pub mod real;
pub mod recorder;
pub mod sink;
pub mod tree;

pub use conn::{Conn, ConnError};
pub use fault::{Faults, Reason};
pub use hears::Hears;
pub use mem_conn::MemConn;
pub use memory::{MemSink, MemTree};
pub use observer::Observer;
pub use real::{DirTree, StdSink, hand};
pub use recorder::Recorder;
pub use sink::{Sink, SinkError};
pub use tree::{FetchError, Tree};

#[cfg(test)]
mod tests;
