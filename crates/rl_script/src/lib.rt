//! Reading `drive` scripts: their rows, features and steps, or the first line at fault. What every kind of script needs of
//! a line is public: the line without its end, whether it says nothing, and the members and texts of its JSON.
#![tactic(auto)]

mod line;
mod script;
#[cfg(test)]
mod tests;

pub use line::{members_in, only_texts, text_in, texts_in};
pub use script::{Script, ScriptError, is_ignored, read_script, trimmed};
