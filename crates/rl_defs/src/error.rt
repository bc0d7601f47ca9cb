//! Why definitions are refused.
ghost use Rattle.std.specs.Prelude.{◌≡◌, option_and_then};
ghost use Rattle.rl_defs.specs.Refusal.{refusal_told, rule_broken};

use rl_names::{Counted, NoMemory, Rule, Text};
use std::alloc::{AllocError, AllocFailed};
use thiserror::Error;

/// What a field is that definitions do not have.
#[derive(Clone, Copy, Debug, PartialEq, Eq)]
pub enum FieldKind {
    /// A key of the file or of one of its tables, of no module.
    OfFile,
    /// A module that is no table.
    IsModule,
    /// A key of a module.
    OfModule,
}

/// Why a definitions file is refused.
///
/// The checks run one after another over the whole file, and in each the tables, their keys and
/// the entries of their lists are taken in order; the first breach is told.
#[derive(Debug, Drop, Error)]
pub enum CatalogError {
    /// The bytes are no TOML document.
    #[error("the file is not TOML")]
    NotToml,
    /// A table or a key that is not known, or a value that is not of its kind or out of its range.
    /// `module` is empty outside modules, and `field` is empty where the module is no table; as names may
    /// be empty too, `kind` tells these apart.
    #[error("unknown or bad field `{field}` (module `{module}`)")]
    UnknownField {
        kind: FieldKind,
        module: Text,
        field: Text,
    },
    /// The name of a module or a skin, or the user name of an admin, that breaks its rule.
    #[error("bad name `{text}`")]
    BadName {
        text: Text,
    },
    /// A dependency that is no name, or the name of no module.
    #[error("module `{module}` depends on `{name}`, which is no module")]
    BadDependency {
        module: Text,
        name: Text,
    },
    /// A listed file that the table `files` does not have.
    #[error("module `{module}` lists the file `{file}`, which is not there")]
    NoFile {
        module: Text,
        file: Text,
    },
    /// A language whose fallbacks break their rule. The table of languages is not read yet, so no
    /// file is refused for it.
    #[error("bad fallbacks of the language `{language}`")]
    BadChain {
        language: Text,
    },
    /// Too many modules, dependencies of one module, or bytes in listed files. A count above
    /// 2^64 - 1 is told as 2^64 - 1.
    #[error("too many: {count} of {what:?}")]
    TooMany {
        what: Counted,
        count: u64,
    },
    /// A source other than `local`.
    #[error("module `{module}` has an unknown source")]
    BadSource {
        module: Text,
    },
    #[error("out of memory")]
    NoMemory,
}

impl CatalogError {
    /// The rule that the file breaks. None for a count above its limit, which is told by what is
    /// counted, and none for want of memory.
    pub fn rule(&self) -> Option<Rule>
        ensures { result ≡ option_and_then rule_broken (refusal_told self.now) }
    {
        match self {
            CatalogError::NotToml => Some(Rule::NotToml),
            CatalogError::UnknownField { .. } => Some(Rule::UnknownField),
            CatalogError::BadName { .. } => Some(Rule::BadName),
            CatalogError::BadDependency { .. } => Some(Rule::BadDependency),
            CatalogError::NoFile { .. } => Some(Rule::NoFile),
            CatalogError::BadChain { .. } => Some(Rule::BadChain),
            CatalogError::BadSource { .. } => Some(Rule::BadSource),
            CatalogError::TooMany { .. } | CatalogError::NoMemory => None,
        }
    }
}

impl From<NoMemory> for CatalogError {
    ghost use Rattle.std.specs.Prelude.{◌≡◌};
    ghost use Rattle.rl_defs.specs.declared.error.CatalogError.TheVariants.{NoMemory};

    ghost from_gives = { λ _ e. e ≡ NoMemory };

    fn from(_: NoMemory) -> CatalogError {
        CatalogError::NoMemory
    }
}

impl From<AllocError> for CatalogError {
    ghost use Rattle.std.specs.Prelude.{◌≡◌};
    ghost use Rattle.rl_defs.specs.declared.error.CatalogError.TheVariants.{NoMemory};

    ghost from_gives = { λ _ e. e ≡ NoMemory };

    fn from(_: AllocError) -> CatalogError {
        CatalogError::NoMemory
    }
}

impl<T: Drop> From<AllocFailed<T>> for CatalogError {
    ghost use Rattle.std.specs.Prelude.{◌≡◌};
    ghost use Rattle.rl_defs.specs.declared.error.CatalogError.TheVariants.{NoMemory};

    ghost from_gives = { λ _ e. e ≡ NoMemory };

    fn from(_: AllocFailed<T>) -> CatalogError {
        CatalogError::NoMemory
    }
}
