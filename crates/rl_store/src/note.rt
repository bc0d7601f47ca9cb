//! What a store is found to be when it is opened.

/// How a store fits what is wanted of it.
#[derive(Clone, Copy, Debug, PartialEq, Eq)]
pub enum Note {
    /// It is for this, and not too old.
    Fresh,
    /// The bytes are no store.
    NotStore,
    /// It was made for another skin, store version or language.
    OtherVary,
    /// It is too old; `as_of` is its age in steps of 10,000,000 milliseconds.
    Expired { as_of: u64 },
}
