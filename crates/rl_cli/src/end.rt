//! How a call ends, before its observers are handed back.
ghost use Rattle.std.specs.Prelude.{◌≡◌, false};
ghost use Rattle.rl_cli.specs.Ending.{about as about_word, ending, of_error, plain as plain_ending, written_by};

use crate::status::Status;
use crate::work::WorkError;
use rl_defs::CatalogError;
use rl_script_spec::Unready;

/// A status, the word that it is about, where 0 stands for none, what breaks a rule of definitions, and why not everything
/// was served.
#[derive(Drop)]
pub struct End {
    pub status: Status,
    pub word: u32,
    pub breach: Option<CatalogError>,
    pub unready: Option<Unready>,
}

impl End {
    /// A status that is about no word.
    pub fn plain(status: Status) -> End
        ensures { ending result.status result.word result.breach result.unready ≡ plain_ending status }
    {
        End::about(0, status)
    }

    /// A status that is about a word.
    pub fn about(word: u32, status: Status) -> End
        ensures { ending result.status result.word result.breach result.unready ≡ about_word word status }
    {
        End {
            status,
            word,
            breach: None,
            unready: None,
        }
    }

    /// Where an output was written, and not everything was served that the file of a word requests.
    pub fn unready(word: u32, unready: Option<Unready>) -> End
        ensures { ending result.status result.word result.breach result.unready ≡ written_by false word unready }
    {
        End {
            status: Status::NotReady,
            word,
            breach: None,
            unready,
        }
    }

    /// Where the work came to nothing.
    pub fn of(error: WorkError) -> End
        ensures { ending result.status result.word result.breach result.unready ≡ of_error error }
    {
        match error {
            WorkError::Breaks {
                word,
                line,
                why,
                breach,
            } => End {
                status: Status::BadInput { word, line, why },
                word,
                breach,
                unready: None,
            },
            WorkError::Exceeds { word, what, count } => {
                End::about(word, Status::TooLarge { what, count })
            }
            WorkError::NoMemory => End::plain(Status::NoMemory),
        }
    }
}
