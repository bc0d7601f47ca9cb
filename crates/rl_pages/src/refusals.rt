//! Why an edit, a choice or a kept entry is not taken.
use thiserror::Error;

/// Why an edit is not taken: the first of these that holds.
#[derive(Clone, Copy, Debug, PartialEq, Eq, Error)]
pub enum EditError {
    /// The bytes spell no title.
    #[error("not a title")]
    BadTitle,
    /// By the rule of edits the viewer may not edit the page.
    #[error("the viewer may not edit this page")]
    NotAllowed,
    /// The page is not at the revision that the edit starts from.
    #[error("the page stands at revision {current}")]
    Conflict { current: u64 },
    /// The text has this many bytes, which are more than `MAX_PAGE_BYTES`.
    #[error("a text of {len} bytes is too long")]
    TextTooLong { len: u64 },
    /// The history has this many entries and bytes, and with this one it would pass a limit.
    #[error("the history is full: {entries} entries of {bytes} bytes")]
    Full { entries: u64, bytes: u64 },
    /// Memory ran out.
    #[error("out of memory")]
    NoMemory,
}

/// Why a choice is not taken: the first of these that holds.
#[derive(Clone, Copy, Debug, PartialEq, Eq, Error)]
pub enum ChoiceError {
    /// The viewer is nobody.
    #[error("nobody has no options")]
    NotAllowed,
    /// The key is not 1 to `MAX_KEY_BYTES` visible ASCII bytes.
    #[error("not the key of an option")]
    BadKey,
    /// The value has this many bytes, which are more than `MAX_VALUE_BYTES`.
    #[error("a value of {len} bytes is too long")]
    TextTooLong { len: u64 },
    /// The history has this many entries and bytes, and with this one it would pass a limit.
    #[error("the history is full: {entries} entries of {bytes} bytes")]
    Full { entries: u64, bytes: u64 },
    /// Memory ran out.
    #[error("out of memory")]
    NoMemory,
}

/// Why an entry that was kept is not taken again.
#[derive(Clone, Copy, Debug, PartialEq, Eq, Error)]
pub enum KeptError {
    /// Its user is not spelt as the rule of user names spells it, its key or a length breaks its rule, or the history is
    /// full. Neither the rule of edits nor a base is asked.
    #[error("not an entry that is kept")]
    BadEntry,
    /// Memory ran out.
    #[error("out of memory")]
    NoMemory,
}

impl From<rl_names::NoMemory> for EditError {
    ghost use Rattle.std.specs.Prelude.{◌≡◌};
    ghost use Rattle.rl_pages.specs.declared.refusals.EditError.TheVariants.{NoMemory};

    ghost from_gives = { λ _ e. e ≡ NoMemory };

    fn from(_error: rl_names::NoMemory) -> Self {
        EditError::NoMemory
    }
}

impl From<rl_names::NoMemory> for ChoiceError {
    ghost use Rattle.std.specs.Prelude.{◌≡◌};
    ghost use Rattle.rl_pages.specs.declared.refusals.ChoiceError.TheVariants.{NoMemory};

    ghost from_gives = { λ _ e. e ≡ NoMemory };

    fn from(_error: rl_names::NoMemory) -> Self {
        ChoiceError::NoMemory
    }
}

impl From<rl_names::NoMemory> for KeptError {
    ghost use Rattle.std.specs.Prelude.{◌≡◌};
    ghost use Rattle.rl_pages.specs.declared.refusals.KeptError.TheVariants.{NoMemory};

    ghost from_gives = { λ _ e. e ≡ NoMemory };

    fn from(_error: rl_names::NoMemory) -> Self {
        KeptError::NoMemory
    }
}
