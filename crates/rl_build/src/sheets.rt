//! What is known of a module without its texts.
use rl_names::{Seq, Text};

/// What is known of a module without its texts.
#[derive(Drop)]
pub struct Sheet {
    /// Empty for none. `user` and `private` have a meaning of their own.
    pub group: Text,
    /// The names of the modules that it needs, each once.
    pub deps: Seq<Text>,
    /// The wiki that serves it. `local` is this one.
    pub source: Text,
    /// A feature: where the browser has it, the module is not loaded.
    pub skip: Option<Text>,
}
