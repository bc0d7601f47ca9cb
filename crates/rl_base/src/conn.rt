//! Connections: bytes that come from a peer, and bytes that go to it.
ghost use Rattle.std.specs.Prelude.{◌≡◌, ◌≢◌, ◌≤◌, [], ℕ, List, Option, IfOk, OnErr, IfSome, IsErrOf, length, take};
ghost use Rattle.rl_base.specs.Causes.{Rose};
ghost use Rattle.rl_base.specs.Written.{and_front};
ghost use Rattle.rl_base.specs.Connection.{after_front};

use thiserror::Error;

/// Why nothing was read or taken.
#[derive(Clone, Copy, Debug, PartialEq, Eq, Error)]
pub enum ConnError {
    /// The outside failed, and the connection counted it.
    #[error("the connection failed")]
    Failed,
    #[error("out of memory")]
    NoMemory,
}

/// A connection to a peer.
pub trait Conn {
    /// The bytes that are still to come, where the connection tells them.
    ghost left: { Self → Option (List ℕ) };

    /// What was written, where the connection tells it.
    ghost written: { Self → Option (List ℕ) };

    /// The count of faults. It stands still at the last value that its form can hold.
    ghost faults: { Self → ℕ };

    /// Reads the next bytes to the front of a buffer, and answers how many. None of them for a buffer
    /// that is not empty means the end. A refusal reads none.
    fn read(&mut self, into: &mut [u8]) -> Result<usize, ConnError>
        ensures most { IfOk result (λ count. count ≤ length into.new) }
        ensures comes { IfOk result (λ count. left self.old ≡ after_front (take count into.new) (left self.new)) }
        ensures end { IfOk result (λ count. count ≡ 0 → into.old ≢ [] → IfSome (left self.old) (λ bytes. bytes ≡ [])) }
        ensures refused { OnErr result (left self.new ≡ left self.old) }
        ensures failed { IsErrOf result ConnError.Failed → Rose (faults self.old) (faults self.new) }
        ensures never_falls { faults self.old ≤ faults self.new }
        ensures written_stays { written self.new ≡ written self.old };

    /// Takes bytes from the front of a piece, and answers how many. It takes none of a piece that is
    /// not empty only at a fault. A refusal takes none.
    fn write(&mut self, bytes: &[u8]) -> Result<usize, ConnError>
        ensures most { IfOk result (λ count. count ≤ length bytes.now) }
        ensures takes { IfOk result (λ count. written self.new ≡ and_front (written self.old) count bytes.now) }
        ensures nothing { IfOk result (λ count. count ≡ 0 → bytes.now ≢ [] → Rose (faults self.old) (faults self.new)) }
        ensures refused { OnErr result (written self.new ≡ written self.old) }
        ensures failed { IsErrOf result ConnError.Failed → Rose (faults self.old) (faults self.new) }
        ensures never_falls { faults self.old ≤ faults self.new }
        ensures left_stays { left self.new ≡ left self.old };
}
