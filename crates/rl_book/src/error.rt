//! Why a view does not open, and why calls are refused.
ghost use Rattle.std.specs.Prelude.{◌≡◌};

use rl_names::{Counted, NoMemory, Text};
use rl_registry::RegistryError;
use std::alloc::AllocError;
use thiserror::Error;

/// Why a view does not open.
#[derive(Debug, Drop, Error)]
pub enum OpenError {
    /// The first bad line of the startup text.
    #[error("line {line} of the startup text is bad")]
    BadStartup { line: u32 },
    /// The first bad line of the embedded text.
    #[error("line {line} of the embedded text is bad")]
    BadEmbedded { line: u32 },
    /// There are more rows, or more dependencies of one row, than their limit.
    #[error("too many {what:?}: {count}")]
    TooMany { what: Counted, count: u64 },
    /// The least name that several rows have.
    #[error("two rows are named {}", .name.as_str())]
    Duplicate { name: Text },
    /// The first dependency by a number that no row has.
    #[error("row {row} depends on row {index}, and there is none")]
    BadIndex { row: u32, index: u32 },
    #[error("out of memory")]
    NoMemory,
}

impl From<NoMemory> for OpenError {
    ghost use Rattle.rl_book.specs.declared.error.OpenError.TheVariants.{NoMemory};

    ghost from_gives = { λ _ e. e ≡ NoMemory };

    fn from(_error: NoMemory) -> Self {
        OpenError::NoMemory
    }
}

impl From<AllocError> for OpenError {
    ghost use Rattle.rl_book.specs.declared.error.OpenError.TheVariants.{NoMemory};

    ghost from_gives = { λ _ e. e ≡ NoMemory };

    fn from(_error: AllocError) -> Self {
        OpenError::NoMemory
    }
}

impl From<RegistryError> for OpenError {
    ghost use Rattle.rl_book.specs.Errors.{of_registry};

    ghost from_gives = { λ error e. e ≡ of_registry error };

    fn from(error: RegistryError) -> Self {
        match error {
            RegistryError::TooMany { what, count } => OpenError::TooMany { what, count },
            RegistryError::Duplicate { name } => OpenError::Duplicate { name },
            RegistryError::BadIndex { row, index } => OpenError::BadIndex { row, index },
            RegistryError::NoMemory => OpenError::NoMemory,
        }
    }
}

/// Why names are not requested together.
#[derive(Debug, Drop, Error)]
pub enum UsingError {
    /// The least of the names that have no row and are led to.
    #[error("{} is unknown", .name.as_str())]
    Unknown { name: Text },
    /// The least name that leads back to itself.
    #[error("{} leads back to itself", .name.as_str())]
    Cycle { name: Text },
    #[error("out of memory")]
    NoMemory,
}

impl From<NoMemory> for UsingError {
    ghost use Rattle.rl_book.specs.declared.error.UsingError.TheVariants.{NoMemory};

    ghost from_gives = { λ _ e. e ≡ NoMemory };

    fn from(_error: NoMemory) -> Self {
        UsingError::NoMemory
    }
}

/// Why an answer is not taken.
#[derive(Clone, Copy, Debug, PartialEq, Eq, Error)]
pub enum DeliverError {
    /// There are only so many asks.
    #[error("there is no ask {ask}")]
    NoSuchAsk { ask: u32, asks: u32 },
    /// The first bad line of the answer. So many asks of its batch are lost by now.
    #[error("line {line} of the answer is bad")]
    BadWire { line: u32, tries: u32 },
    #[error("out of memory")]
    NoMemory,
}

impl From<NoMemory> for DeliverError {
    ghost use Rattle.rl_book.specs.declared.error.DeliverError.TheVariants.{NoMemory};

    ghost from_gives = { λ _ e. e ≡ NoMemory };

    fn from(_error: NoMemory) -> Self {
        DeliverError::NoMemory
    }
}

/// Why an ask is not lost.
#[derive(Clone, Copy, Debug, PartialEq, Eq, Error)]
pub enum LoseRefusal {
    /// There are only so many asks.
    #[error("there is no ask {ask}")]
    NoSuchAsk { ask: u32, asks: u32 },
    /// Its batch was answered or given up.
    #[error("the batch of ask {ask} is settled")]
    Settled { ask: u32 },
    #[error("ask {ask} was lost before")]
    LostBefore { ask: u32 },
}
