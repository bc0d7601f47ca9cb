//! The history that kept entries make.
ghost use Rattle.std.specs.Prelude.{◌≡◌, ◌≢◌, ◌++◌, ◌∷◌, [], ℕ, IsTrue, false, Some, None, Ok, Err, IfOk, IfErr};
ghost use Rattle.rl_pages.specs.Refusals.{checked_kept};
ghost use Rattle.rl_wiki.specs.Opening.{first_bad, HistoriesOpenAgain};

use crate::error::OpenError;
use rl_names::NoMemory;
use rl_pages::{Entry, KeptError, Pages};
use std::alloc::Global;

/// What a desk took, a desk takes again when it opens.
pub fn opening_laws()
    ensures { HistoriesOpenAgain }
{}

/// Takes one entry that was kept, if it keeps the rules of kept entries.
fn take_one(pages: &mut Pages, entry: &Entry) -> Result<bool, NoMemory>
    ensures taken { IfOk result (λ taken. IsTrue taken → (checked_kept pages.old.entries entry.now ≡ Ok entry.now)
        × (pages.new.entries ≡ pages.old.entries ++ entry.now ∷ [])) }
    ensures bad { IfOk result (λ taken. taken ≡ false → (checked_kept pages.old.entries entry.now ≡ Err KeptError.BadEntry)
        × (pages.new ≡ pages.old)) }
{
    match pages.check_kept(entry) {
        Ok(kept) => {
            pages.commit(kept);
            Ok(true)
        }
        Err(KeptError::BadEntry) => Ok(false),
        Err(KeptError::NoMemory) => Err(NoMemory),
    }
}

/// The history of entries that were kept, or the number of the first bad one.
pub(crate) fn history_of(alloc: Global, entries: &[Entry]) -> Result<Pages, OpenError>
    ensures ok { IfOk result (λ p. (p.entries ≡ entries.now) × (first_bad entries.now ≡ None)) }
    ensures refused { IfErr result (λ e. e ≢ OpenError.NoMemory → (number : ℕ) × (e ≡ OpenError.BadRecord number)
        × (first_bad entries.now ≡ Some number)) }
{
    let mut pages = Pages::empty(alloc)?;
    'entries: for entry in entries {
        if !take_one(&mut pages, entry)? {
            return Err(OpenError::BadRecord {
                number: pages.entry_count() + 1,
            });
        }
    }
    Ok(pages)
}
