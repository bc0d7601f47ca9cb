//! Observers together: whoever is told of what runs.
ghost use Rattle.std.specs.Prelude.{◌≡◌, ℕ, List, Bool, OnOk, OnErr, IfOk, map};
ghost use Rattle.rl_names.specs.declared.name.Key.{Key};
ghost use Rattle.rl_base.specs.Execution.{Execution, told_of};

use rl_names::{Key, NoMemory};

/// Whoever is told of runs: observers together.
pub trait Hears: Drop {
    /// What each of them was told.
    ghost told: { Self → List (List Execution) };

    /// Whether one of them throws for a script that runs under a key. This never changes.
    ghost says: { Self → Key → List ℕ → Bool };

    /// They are the same as others, in the same order.
    ghost same: { Self → Self → Type 0 };

    /// Tells all of them, and answers whether one throws. Where there is no room for it, none is told.
    fn hear(&mut self, key: &Key, script: &[u8]) -> Result<bool, NoMemory>
        ensures told { OnOk result (told self.new ≡ map (told_of (key.now, script.now)) (told self.old)) }
        ensures refused { OnErr result (told self.new ≡ told self.old) }
        ensures threw { IfOk result (λ threw. threw ≡ says self.old key.now script.now) }
        ensures fixed { (k : Key) (s : List ℕ) → says self.new k s ≡ says self.old k s }
        ensures same { (first : Self) → same first self.old → same first self.new };
}
