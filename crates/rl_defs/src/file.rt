//! A file of the definitions.
use crate::named::Named;
use rl_names::Text;

/// A file of the definitions, under its name.
#[derive(Drop)]
pub struct File {
    pub name: Text,
    pub text: Text,
}

impl Named for File {
    ghost name_of = { λ f. f.name };

    fn name(&self) -> &str {
        self.name.as_str()
    }
}
