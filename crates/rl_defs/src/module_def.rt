//! What definitions say of one module.
use crate::named::Named;
use rl_names::{Message, Name, Seq, Text};

/// What a definitions file says of one module.
///
/// Files are named by their keys in the table `files`. What the file leaves out is an empty list,
/// an empty group, the source `local`, and no skip.
#[derive(Drop)]
pub struct ModuleDef {
    pub name: Name,
    pub scripts: Seq<Text>,
    /// The scripts that follow the others in debug.
    pub debug_scripts: Seq<Text>,
    pub styles: Seq<Text>,
    /// Scripts for one language, in byte order of its code.
    pub language_scripts: Seq<Listed>,
    /// Scripts for one skin, or for `default`, in byte order of the name.
    pub skin_scripts: Seq<Listed>,
    /// Styles for one skin, or for `default`, in byte order of the name.
    pub skin_styles: Seq<Listed>,
    /// The key is a style file, and the text names the file put in its place in a language that
    /// is written from right to left. In byte order of the keys.
    pub rtl: Seq<Message>,
    pub dependencies: Seq<Name>,
    /// The keys of the interface texts that go with the module.
    pub messages: Seq<Text>,
    /// Empty for none. `user` and `private` have a meaning of their own.
    pub group: Text,
    /// The wiki that serves the module. `local` is this one.
    pub source: Text,
    /// A feature: where the browser has it, the module is not loaded.
    pub skip: Option<Text>,
}

impl Named for ModuleDef {
    ghost name_of = { λ m. m.name };

    fn name(&self) -> &str {
        self.name.as_str()
    }
}

/// The files that stand under one language code or skin name.
#[derive(Drop)]
pub struct Listed {
    pub name: Text,
    pub files: Seq<Text>,
}
