//! The definitions file of a wiki: its modules, their files, and who and what it knows.
#![tactic(auto)]

pub mod catalog;
mod checks;
mod draft;
pub mod error;
pub mod file;
pub mod language;
pub mod module_def;
mod named;
mod reading;
#[cfg(test)]
mod tests;
mod words;

pub use catalog::Catalog;
pub use error::{CatalogError, FieldKind};
pub use file::File;
pub use language::Language;
pub use module_def::{Listed, ModuleDef};
