//! What the calls of a view answer.
use rl_book_spec::Origin;
use rl_names::{Key, Text};

/// A batch that was taken, and the number under which its answer is delivered.
#[derive(Drop)]
pub struct Ask {
    pub number: u32,
    pub source: Text,
    pub query: Text,
}

/// What becomes of the batch of a lost ask.
#[derive(Clone, Copy, Debug, PartialEq, Eq)]
pub enum Lost {
    /// It waits again. So many of its asks were lost.
    Again { tries: u32 },
    /// Three of its asks were lost: no answer comes to its rows.
    GivenUp,
}

/// An execution: the row, its key by then, its script, whether an observer threw, and where the script came from.
#[derive(Drop)]
pub struct Run {
    pub row: u32,
    pub key: Key,
    pub script: Text,
    pub threw: bool,
    pub origin: Origin,
}
