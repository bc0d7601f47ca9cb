//! What is sent for a query, and why nothing is.
use rl_names::{NoMemory, Text};
use std::alloc::AllocError;
use thiserror::Error;

/// What the body of an answer is.
#[derive(Clone, Copy, Debug, PartialEq, Eq)]
pub enum Kind {
    Script,
    Style,
}

/// What is sent for a query.
#[derive(Drop)]
pub struct Answer {
    pub body: Text,
    pub kind: Kind,
    /// For how many seconds the answer may be kept.
    pub max_age: u32,
    /// Whether it may be kept for its reader alone.
    pub private: bool,
}

/// Why there is no answer.
#[derive(Clone, Copy, Debug, PartialEq, Eq, Error)]
pub enum AnswerError {
    #[error("a query has at most 16384 bytes, not {len}")]
    QueryTooLong { len: u64 },
    /// Repeats are counted.
    #[error("a query names at most 1000 modules, not {count}")]
    TooManyNames { count: u64 },
    #[error("an answer has at most 67108864 bytes, not {len}")]
    AnswerTooLong { len: u64 },
    #[error("out of memory")]
    NoMemory,
}

impl From<NoMemory> for AnswerError {
    ghost use Rattle.std.specs.Prelude.{◌≡◌};
    ghost use Rattle.rl_loadphp.specs.declared.answers.AnswerError.TheVariants.{NoMemory};

    ghost from_gives = { λ _ e. e ≡ NoMemory };

    fn from(_error: NoMemory) -> Self {
        AnswerError::NoMemory
    }
}
