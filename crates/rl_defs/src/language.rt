//! A language of a wiki.
use rl_names::{Seq, Text};

/// A language: its code, the codes of the languages that stand in for it, in order, and whether it
/// is written from right to left.
#[derive(Drop)]
pub struct Language {
    pub code: Text,
    pub fallback: Seq<Text>,
    pub rtl: bool,
}
