//! A gadget, and the line that defines it.

use rl_names::{Name, Seq, Text, Title};

/// A module that a line of the gadget list defines. It has no group, no messages and the source of the wiki itself.
#[derive(Drop)]
pub struct Gadget {
    /// The module's name, `ext.gadget.` and the gadget's own.
    pub name: Name,
    /// The number of the line, counted from 1; the greatest number stands for all above it.
    pub line: u32,
    /// The pages that end in `.js`, each once, in the order of their first places.
    pub scripts: Seq<Title>,
    /// The pages that end in `.css`, likewise.
    pub styles: Seq<Title>,
    pub deps: Seq<Name>,
    /// The skins that it is for; an empty list stands for all.
    pub skins: Seq<Text>,
    /// Whether it is on for everybody.
    pub for_all: bool,
}
