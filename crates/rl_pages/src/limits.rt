//! How much a history may hold.

/// The most entries that a history has.
pub const MAX_ENTRIES: u64 = 100_000;
/// The most bytes that the texts and values of a history have together.
pub const MAX_ENTRY_BYTES: u64 = 67_108_864;
/// The most bytes that the text of a page has.
pub const MAX_PAGE_BYTES: u64 = 2_097_152;
/// The most bytes that the value of an option has.
pub const MAX_VALUE_BYTES: u64 = 65_536;
/// The most bytes that the key of an option has.
pub const MAX_KEY_BYTES: u64 = 255;
