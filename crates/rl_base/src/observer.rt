//! Who is told of each script that runs.
ghost use Rattle.std.specs.Prelude.{◌≡◌, ◌++◌, ◌∷◌, [], ℕ, List, Bool, Option, Some, None, OnOk, OnErr, IfSome};
ghost use Rattle.rl_names.specs.declared.name.Key.{Key};
ghost use Rattle.rl_base.specs.Execution.{Execution};

use crate::recorder::Recorder;
use rl_names::{Key, NoMemory};

/// What is told of each script that runs.
pub trait Observer: Drop {
    /// What it was told, the first execution first.
    ghost ran: { Self → List Execution };

    /// Whether a script that runs under a key throws for it. This never changes.
    ghost throws: { Self → Key → List ℕ → Bool };

    /// The execution for which it has room.
    ghost room_for: { Self → Option Execution };

    /// Makes room for one execution.
    fn make_room(&mut self, key: &Key, script: &[u8]) -> Result<(), NoMemory>
        ensures room { OnOk result (room_for self.new ≡ Some (key.now, script.now)) }
        ensures refused { OnErr result (room_for self.new ≡ room_for self.old) }
        ensures told_nothing { ran self.new ≡ ran self.old }
        ensures fixed { (k : Key) (s : List ℕ) → throws self.new k s ≡ throws self.old k s };

    /// Is told of the execution for which it has room, and answers whether it throws.
    fn execute(&mut self, key: &Key, script: &[u8]) -> bool
        requires { room_for self.old ≡ Some (key.now, script.now) }
        ensures told { ran self.new ≡ ran self.old ++ (key.now, script.now) ∷ [] }
        ensures threw { result ≡ throws self.old key.now script.now }
        ensures spent { room_for self.new ≡ None }
        ensures fixed { (k : Key) (s : List ℕ) → throws self.new k s ≡ throws self.old k s };

    /// The recorder that it is, if it is one.
    fn recorder(&self) -> Option<&Recorder>
        ensures { IfSome result (λ recorder. recorder.now.ran ≡ ran self.now) };
}
