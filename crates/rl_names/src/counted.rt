//! What limits count, and the limits.
ghost use Rattle.std.specs.Prelude.{◌≡◌};
ghost use Rattle.rl_names.specs.Limits.{limit_of, unit_of};

/// How many bytes of a file are read: a longer one is refused.
pub const MAX_FILE_BYTES: u64 = 16_777_216;
/// How many modules a definitions file may have.
pub const MAX_MODULES: u64 = 3_500;
/// How many bytes the files that modules list may have together, where each place of a list counts.
pub const MAX_LISTED_BYTES: u64 = 67_108_864;
/// How many rows a registry may have.
pub const MAX_ROWS: u64 = 4_096;
/// How many dependencies a module or a row may list.
pub const MAX_DEPENDENCIES: u64 = 256;
/// How many steps a script or a history may have.
pub const MAX_STEPS: u64 = 65_536;
/// How many bytes the answers that are kept in a session may have together.
pub const MAX_ANSWERS: u64 = 67_108_864;
/// How many bytes a query may have.
pub const MAX_QUERY_BYTES: u64 = 16_384;
/// How many names a query may ask for, repeats counted.
pub const MAX_NAMES: u64 = 1_000;
/// How many bytes the body of an answer may have.
pub const MAX_ANSWER_BYTES: u64 = 67_108_864;

/// What a limit counts.
#[derive(Clone, Copy, Debug, PartialEq, Eq)]
pub enum Counted {
    FileBytes,
    Modules,
    ListedBytes,
    Rows,
    Dependencies,
    Steps,
    Answers,
    QueryBytes,
    Names,
    AnswerBytes,
}

impl Counted {
    /// How many of it there may be.
    pub fn limit(self) -> u64
        ensures { result ≡ limit_of self }
    {
        match self {
            Counted::FileBytes => MAX_FILE_BYTES,
            Counted::Modules => MAX_MODULES,
            Counted::ListedBytes => MAX_LISTED_BYTES,
            Counted::Rows => MAX_ROWS,
            Counted::Dependencies => MAX_DEPENDENCIES,
            Counted::Steps => MAX_STEPS,
            Counted::Answers => MAX_ANSWERS,
            Counted::QueryBytes => MAX_QUERY_BYTES,
            Counted::Names => MAX_NAMES,
            Counted::AnswerBytes => MAX_ANSWER_BYTES,
        }
    }

    /// What a count of it is told in. "At least" stands where counting ends one past the limit.
    pub fn unit(self) -> &'static str
        ensures { result.now ≡ unit_of self }
    {
        match self {
            Counted::FileBytes => "bytes at least",
            Counted::Modules => "modules",
            Counted::ListedBytes => "bytes in the files that modules list",
            Counted::Rows => "rows",
            Counted::Dependencies => "dependencies in one list",
            Counted::Steps => "steps at least",
            Counted::Answers => "bytes of kept answers",
            Counted::QueryBytes => "bytes in the query",
            Counted::Names => "names in the query",
            Counted::AnswerBytes => "bytes in the answer",
        }
    }
}
