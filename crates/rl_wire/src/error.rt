//! Why bytes are no text of the wire.
use rl_names::NoMemory;
use thiserror::Error;

/// Why bytes are no answer, or no startup text.
#[derive(Clone, Copy, Debug, PartialEq, Eq, Error)]
pub enum WireError {
    /// The first line, counted from 1, that none of the texts that may be written has there.
    #[error("line {line} is not as it is written")]
    BadLine { line: u32 },
    #[error("out of memory")]
    NoMemory,
}

impl From<NoMemory> for WireError {
    ghost use Rattle.std.specs.Prelude.{◌≡◌};
    ghost use Rattle.rl_wire.specs.declared.error.WireError.TheVariants.{NoMemory};

    ghost from_gives = { λ _ e. e ≡ NoMemory };

    fn from(_error: NoMemory) -> Self {
        WireError::NoMemory
    }
}
