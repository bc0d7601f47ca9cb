//! The vocabulary of the wiki's load protocol: texts, names, versions, keys and registry rows.
#![tactic(auto)]

pub mod counted;
pub mod hash;
pub mod kind;
pub mod name;
pub mod packing;
pub mod part;
pub mod query;
pub mod row;
pub mod rule;
#[cfg(test)]
mod tests;
pub mod text;
pub mod title;
pub mod user_name;

pub use counted::{
    Counted, MAX_ANSWER_BYTES, MAX_ANSWERS, MAX_DEPENDENCIES, MAX_FILE_BYTES, MAX_LISTED_BYTES,
    MAX_MODULES, MAX_NAMES, MAX_QUERY_BYTES, MAX_ROWS, MAX_STEPS,
};
pub use hash::{Hasher, combined, hash5};
pub use kind::StateKind;
pub use name::{Key, KeyError, Name, NameError, Version};
pub use packing::{distinct, expand, expanded_count, pack, packed_order};
pub use part::{Message, Source};
pub use query::{Only, Query, encoded_len_of};
pub use row::{Dep, Group, Row};
pub use rule::Rule;
pub use text::{Blob, NoMemory, Seq, Text};
pub use title::{Title, TitleError};
pub use user_name::{UserName, UserNameError};
