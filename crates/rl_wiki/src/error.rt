//! Why a desk does not open, or does not take an edit or a choice.
use rl_names::NoMemory;
use rl_pages::{ChoiceError, EditError};
use thiserror::Error;

/// Why a desk does not open.
#[derive(Clone, Copy, Debug, PartialEq, Eq, Error)]
pub enum OpenError {
    /// The entries could not be read, and the keeper counted a fault.
    #[error("the entries could not be read")]
    Failed,
    /// The first entry that breaks the rules of kept entries, counted from 1.
    #[error("entry {number} breaks the rules of kept entries")]
    BadRecord { number: u64 },
    /// Memory ran out.
    #[error("out of memory")]
    NoMemory,
}

impl From<NoMemory> for OpenError {
    ghost use Rattle.std.specs.Prelude.{◌≡◌};
    ghost use Rattle.rl_wiki.specs.declared.error.OpenError.TheVariants.{NoMemory};

    ghost from_gives = { λ _ e. e ≡ NoMemory };

    fn from(_error: NoMemory) -> Self {
        OpenError::NoMemory
    }
}

/// Why there is no desk, and the keeper that was handed in.
#[derive(Drop)]
pub struct Turned<K> {
    pub keeper: K,
    pub why: OpenError,
}

/// Why a desk does not take an edit: the refusals of an edit in their order, then the keeper's fault.
#[derive(Clone, Copy, Debug, PartialEq, Eq, Error)]
pub enum DeskEditError {
    /// The bytes spell no title.
    #[error("not a title")]
    BadTitle,
    /// By the rule of edits the viewer may not edit the page.
    #[error("the viewer may not edit this page")]
    NotAllowed,
    /// The page is not at the revision that the edit starts from.
    #[error("the page stands at revision {current}")]
    Conflict { current: u64 },
    /// The text has this many bytes, which are too many.
    #[error("a text of {len} bytes is too long")]
    TextTooLong { len: u64 },
    /// The history has this many entries and bytes, and with this one it would pass a limit.
    #[error("the history is full: {entries} entries of {bytes} bytes")]
    Full { entries: u64, bytes: u64 },
    /// The entry could not be kept, and the keeper counted a fault.
    #[error("the entry could not be kept")]
    Failed,
    /// Memory ran out.
    #[error("out of memory")]
    NoMemory,
}

impl From<EditError> for DeskEditError {
    ghost use Rattle.std.specs.Prelude.{◌≡◌};
    ghost use Rattle.rl_wiki.specs.Desk.{edit_error};

    ghost from_gives = { λ why e. e ≡ edit_error why };

    fn from(error: EditError) -> Self {
        match error {
            EditError::BadTitle => DeskEditError::BadTitle,
            EditError::NotAllowed => DeskEditError::NotAllowed,
            EditError::Conflict { current } => DeskEditError::Conflict { current },
            EditError::TextTooLong { len } => DeskEditError::TextTooLong { len },
            EditError::Full { entries, bytes } => DeskEditError::Full { entries, bytes },
            EditError::NoMemory => DeskEditError::NoMemory,
        }
    }
}

/// Why a desk does not take a choice: the refusals of a choice in their order, then the keeper's fault.
#[derive(Clone, Copy, Debug, PartialEq, Eq, Error)]
pub enum DeskChoiceError {
    /// The viewer is nobody.
    #[error("nobody has no options")]
    NotAllowed,
    /// The key is not the key of an option.
    #[error("not the key of an option")]
    BadKey,
    /// The value has this many bytes, which are too many.
    #[error("a value of {len} bytes is too long")]
    TextTooLong { len: u64 },
    /// The history has this many entries and bytes, and with this one it would pass a limit.
    #[error("the history is full: {entries} entries of {bytes} bytes")]
    Full { entries: u64, bytes: u64 },
    /// The entry could not be kept, and the keeper counted a fault.
    #[error("the entry could not be kept")]
    Failed,
    /// Memory ran out.
    #[error("out of memory")]
    NoMemory,
}

impl From<ChoiceError> for DeskChoiceError {
    ghost use Rattle.std.specs.Prelude.{◌≡◌};
    ghost use Rattle.rl_wiki.specs.Desk.{choice_error};

    ghost from_gives = { λ why e. e ≡ choice_error why };

    fn from(error: ChoiceError) -> Self {
        match error {
            ChoiceError::NotAllowed => DeskChoiceError::NotAllowed,
            ChoiceError::BadKey => DeskChoiceError::BadKey,
            ChoiceError::TextTooLong { len } => DeskChoiceError::TextTooLong { len },
            ChoiceError::Full { entries, bytes } => DeskChoiceError::Full { entries, bytes },
            ChoiceError::NoMemory => DeskChoiceError::NoMemory,
        }
    }
}
