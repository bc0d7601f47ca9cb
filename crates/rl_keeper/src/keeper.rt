//! What keeps the entries of a wiki.
ghost use Rattle.std.specs.Prelude.{◌≡◌, ◌≤◌, ◌+◌, ◌++◌, ◌∷◌, [], ℕ, List, Option, IfOk, IfSome, OnOk, OnErr, IsErrOf, length};
ghost use Rattle.std.specs.Prelude.{option_map};
ghost use Rattle.rl_base.specs.Causes.{Rose};
ghost use Rattle.rl_pages.specs.declared.entry.Entry.{Entry};

use rl_names::NoMemory;
use rl_pages::Entry;
use thiserror::Error;

/// Why entries were not kept or not read.
#[derive(Clone, Copy, Debug, PartialEq, Eq, Error)]
pub enum KeeperError {
    /// The outside failed, and the keeper counted it.
    #[error("the entries could not be reached")]
    Failed,
    /// Memory ran out.
    #[error("out of memory")]
    NoMemory,
}

impl From<NoMemory> for KeeperError {
    ghost use Rattle.std.specs.Prelude.{◌≡◌};
    ghost use Rattle.rl_keeper.specs.declared.keeper.KeeperError.TheVariants.{NoMemory};

    ghost from_gives = { λ _ e. e ≡ NoMemory };

    fn from(_error: NoMemory) -> Self {
        KeeperError::NoMemory
    }
}

/// Entries that are kept, in order. The count of faults never falls, and Failed is answered only where it rose in that
/// call, or stands at its last value.
pub trait Keeper {
    /// The entries, where the keeper tells them.
    ghost entries: { Self → Option (List Entry) };

    /// The count of faults. It stands still at the last value that its form can hold.
    ghost faults: { Self → ℕ };

    /// Keeps one more entry, under its number. A refusal keeps none.
    fn append(&mut self, number: u64, entry: &Entry) -> Result<(), KeeperError>
        requires { IfSome (entries self.old) (λ told. number ≡ length told + 1) }
        ensures kept { OnOk result (entries self.new ≡ option_map (λ told. told ++ entry.now ∷ []) (entries self.old)) }
        ensures refused { OnErr result (entries self.new ≡ entries self.old) }
        ensures failed { IsErrOf result KeeperError.Failed → Rose (faults self.old) (faults self.new) }
        ensures never_falls { faults self.old ≤ faults self.new };

    /// All entries, in order. They stay.
    fn read_all(&mut self) -> Result<Vec<Entry>, KeeperError>
        ensures all { IfOk result (λ read. IfSome (entries self.old) (λ told. read.items ≡ told)) }
        ensures stay { entries self.new ≡ entries self.old }
        ensures failed { IsErrOf result KeeperError.Failed → Rose (faults self.old) (faults self.new) }
        ensures never_falls { faults self.old ≤ faults self.new };

    /// The count of faults.
    fn fault_count(&self) -> u64
        ensures { result ≡ faults self.now };
}
