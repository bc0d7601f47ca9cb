//! How the program ends.
use rl_base::Reason;
use rl_cli::Status;
use rl_defs::CatalogError;
use rl_script_spec::Unready;

/// How the program ends, and what that is about.
#[derive(Drop)]
pub struct End {
    pub status: Status,
    /// The place of the word that the status is about.
    pub word: u32,
    pub breach: Option<CatalogError>,
    pub unready: Option<Unready>,
    pub reason: Option<Reason>,
}

impl End {
    /// A status that is about the word of this place.
    pub fn at(status: Status, word: u32) -> End {
        End {
            status,
            word,
            breach: None,
            unready: None,
            reason: None,
        }
    }

    /// A status that is about no word.
    pub fn plain(status: Status) -> End {
        End::at(status, 0)
    }
}
