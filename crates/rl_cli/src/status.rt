//! How a call ends, and the exit code.
ghost use Rattle.std.specs.Prelude.{◌≡◌};
ghost use Rattle.rl_cli.specs.Code.{code_of};

use rl_base::Observer;
use rl_defs::CatalogError;
use rl_names::Counted;
use rl_script_spec::Unready;

/// How a call ended.
#[derive(Clone, Copy, Debug, PartialEq, Eq)]
pub enum Status {
    /// The output was written, and every requested name is ready where the command has requests.
    Done,
    /// The words are none that a command has.
    BadWords,
    /// A file breaks its rules: the file that the word of this place names, where the command is word
    /// 0, in this line, where 0 stands for the file as a whole. `why` is the number of the rule.
    BadInput { word: u32, line: u32, why: u32 },
    /// There are more of something than its limit allows. Of a file that is too long, `count` is one
    /// byte more than the limit, since no more is read; else it is the true number.
    TooLarge { what: Counted, count: u64 },
    /// The output was written, and a request was refused, a name was dropped, or a requested name is
    /// not ready.
    NotReady,
    /// A file that the words name was not read.
    ReadFault,
    /// The output was not written whole.
    WriteFault,
    NoMemory,
}

/// How a call ended, what that is about, and the observers that it was given.
#[derive(Drop)]
pub struct Ended {
    pub status: Status,
    /// The place of the word that the status is about: a file that breaks a rule, is too long, holds too
    /// much or was not read, or whose requests were not all served, or a query that is refused. 0 where it is about none.
    pub word: u32,
    /// Where definitions are refused: the rule that they break, with the module and the field.
    pub breach: Option<CatalogError>,
    /// Where the status is `NotReady`: the first request that was refused, or else the first requested module that is not
    /// ready, with what is to blame.
    pub unready: Option<Unready>,
    pub observers: Vec<Box<dyn Observer + Send>>,
}

impl Status {
    /// The exit code: 0, 2 where the input is at fault, 3 for not ready, 4 where the outside is at
    /// fault, and 5 for want of memory.
    pub fn code(&self) -> u8
        ensures { result ≡ code_of self.now }
    {
        match self {
            Status::Done => 0,
            Status::BadWords | Status::BadInput { .. } | Status::TooLarge { .. } => 2,
            Status::NotReady => 3,
            Status::ReadFault | Status::WriteFault => 4,
            Status::NoMemory => 5,
        }
    }
}
