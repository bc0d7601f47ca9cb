//! Files by name.
ghost use Rattle.std.specs.Prelude.{◌≡◌, ◌≤◌, ℕ, List, Option, None, IfOk, IsErrOf, IsSomeAnd, length};
ghost use Rattle.std.specs.FinMap as map;
ghost use Rattle.rl_base.specs.Causes.{Rose};
ghost use Rattle.rl_base.specs.Files.{Files, IsFrontOf, blamed_after};

use rl_names::Blob;
use thiserror::Error;

/// Why a file was not fetched.
#[derive(Clone, Copy, Debug, PartialEq, Eq, Error)]
pub enum FetchError {
    /// There is no file of that name. Only a tree that tells its files says so.
    #[error("no such file")]
    Absent,
    /// The outside failed, and the tree counted it.
    #[error("the file could not be read")]
    Failed,
    #[error("out of memory")]
    NoMemory,
}

/// Files by name.
pub trait Tree {
    /// The files, where the tree tells them.
    ghost files: { Self → Option Files };

    /// The name of the last call that answered `Failed`, or none.
    ghost blamed: { Self → Option (List ℕ) };

    /// The count of faults. It stands still at the last value that its form can hold.
    ghost faults: { Self → ℕ };

    /// The first `max` bytes of a file, or all of them where it is shorter. Room for the name to blame
    /// is taken before anything is read.
    fn fetch(&mut self, name: &str, max: u64) -> Result<Blob, FetchError>
        ensures front { IfOk result (λ bytes. IsFrontOf (files self.old) name.now max bytes) }
        ensures most { IfOk result (λ bytes. length bytes ≤ max) }
        ensures absent { IsErrOf result FetchError.Absent → IsSomeAnd (files self.old) (λ told. map.get told name.now ≡ None) }
        ensures failed { IsErrOf result FetchError.Failed → Rose (faults self.old) (faults self.new) }
        ensures never_falls { faults self.old ≤ faults self.new }
        ensures blames { blamed self.new ≡ blamed_after result name.now (blamed self.old) }
        ensures files_stay { files self.new ≡ files self.old };
}
