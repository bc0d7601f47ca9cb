//! Outputs.
ghost use Rattle.std.specs.Prelude.{◌≡◌, ◌≢◌, ◌≤◌, [], ℕ, List, Option, IfOk, OnErr, IsErrOf, length};
ghost use Rattle.rl_base.specs.Causes.{Rose};
ghost use Rattle.rl_base.specs.Written.{and_front};

use thiserror::Error;

/// Why nothing was taken.
#[derive(Clone, Copy, Debug, PartialEq, Eq, Error)]
pub enum SinkError {
    /// The outside failed, and the sink counted it.
    #[error("the output could not be written")]
    Failed,
    #[error("out of memory")]
    NoMemory,
}

/// An output.
pub trait Sink {
    /// What was written, where the sink tells it.
    ghost written: { Self → Option (List ℕ) };

    /// The count of faults. It stands still at the last value that its form can hold.
    ghost faults: { Self → ℕ };

    /// Takes bytes from the front of a piece, and answers how many. It takes none of a piece that is
    /// not empty only at a fault. A refusal takes none.
    fn write(&mut self, bytes: &[u8]) -> Result<usize, SinkError>
        ensures most { IfOk result (λ count. count ≤ length bytes.now) }
        ensures takes { IfOk result (λ count. written self.new ≡ and_front (written self.old) count bytes.now) }
        ensures nothing { IfOk result (λ count. count ≡ 0 → bytes.now ≢ [] → Rose (faults self.old) (faults self.new)) }
        ensures failed { IsErrOf result SinkError.Failed → Rose (faults self.old) (faults self.new) }
        ensures refused { OnErr result (written self.new ≡ written self.old) }
        ensures never_falls { faults self.old ≤ faults self.new };
}
