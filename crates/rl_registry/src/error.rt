//! Why rows are no registry, and why names do not resolve.
ghost use Rattle.std.specs.Prelude.{◌≡◌};

use rl_names::{Counted, NoMemory, Text};
use std::alloc::AllocError;
use thiserror::Error;

/// Why rows are no registry.
#[derive(Debug, Drop, Error)]
pub enum RegistryError {
    /// There are more rows, or more dependencies of one row, repeats counted, than their limit. The count is the true
    /// one; of rows with too many dependencies it is that of the first.
    #[error("too many {what:?}: {count}")]
    TooMany { what: Counted, count: u64 },
    /// Rows have one name. Of such names it is the least in byte order.
    #[error("two rows are named {}", .name.as_str())]
    Duplicate { name: Text },
    /// A row depends on a row by a number that none has. It is the first such row, and in it the first such number.
    #[error("row {row} depends on row {index}, and there is none")]
    BadIndex { row: u32, index: u32 },
    #[error("out of memory")]
    NoMemory,
}

/// Why names do not resolve.
#[derive(Debug, Drop, Error)]
pub enum ResolveError {
    /// The closures have a name without a row. Of such names it is the least in byte order.
    #[error("no row is named {}", .name.as_str())]
    Unknown { name: Text },
    /// Each name of the closures has a row, and one depends on itself, directly or through others. Of such names
    /// it is the least in byte order.
    #[error("{} depends on itself", .name.as_str())]
    Cycle { name: Text },
    #[error("out of memory")]
    NoMemory,
}

impl From<NoMemory> for RegistryError {
    ghost use Rattle.rl_registry.specs.declared.error.RegistryError.TheVariants.{NoMemory};

    ghost from_gives = { λ _ e. e ≡ NoMemory };

    fn from(_error: NoMemory) -> Self {
        RegistryError::NoMemory
    }
}

impl From<AllocError> for RegistryError {
    ghost use Rattle.rl_registry.specs.declared.error.RegistryError.TheVariants.{NoMemory};

    ghost from_gives = { λ _ e. e ≡ NoMemory };

    fn from(_error: AllocError) -> Self {
        RegistryError::NoMemory
    }
}

impl From<NoMemory> for ResolveError {
    ghost use Rattle.rl_registry.specs.declared.error.ResolveError.TheVariants.{NoMemory};

    ghost from_gives = { λ _ e. e ≡ NoMemory };

    fn from(_error: NoMemory) -> Self {
        ResolveError::NoMemory
    }
}
