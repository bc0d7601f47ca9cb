//! The rules that refused input breaks: their numbers and what they say.
ghost use Rattle.std.specs.Prelude.{◌≡◌};
ghost use Rattle.rl_names.specs.Rules.{number_of, sentence_of, rule_of};

/// A rule that a file breaks. Each has a number of its own, which a status carries.
#[derive(Clone, Copy, Debug, PartialEq, Eq)]
pub enum Rule {
    /// A line of a script is not of its grammar.
    Grammar,
    /// A line is a step, and the command takes no such step.
    WrongStep,
    /// A line stands where lines of its kind may not.
    OutOfPlace,
    /// A script is not UTF-8.
    NotUtf8,
    /// Definitions are not TOML.
    NotToml,
    /// Definitions have a table, key or value that is not theirs.
    UnknownField,
    /// A name in definitions is none.
    BadName,
    /// A module depends on what is no module.
    BadDependency,
    /// A listed file is not there.
    NoFile,
    /// A language has fallbacks that it may not have.
    BadChain,
    /// A module has a source that is not declared.
    BadSource,
    /// Two rows of a registry have one name.
    Duplicate,
    /// A row depends on a row by a number that none has.
    BadIndex,
    /// A startup text is none.
    BadStartup,
    /// An embedded text is no answer.
    BadEmbedded,
}

impl Rule {
    /// Its number.
    pub fn number(self) -> u32
        ensures { result ≡ number_of self }
    {
        match self {
            Rule::Grammar => 1,
            Rule::WrongStep => 2,
            Rule::OutOfPlace => 3,
            Rule::NotUtf8 => 4,
            Rule::NotToml => 11,
            Rule::UnknownField => 12,
            Rule::BadName => 13,
            Rule::BadDependency => 14,
            Rule::NoFile => 15,
            Rule::BadChain => 16,
            Rule::BadSource => 18,
            Rule::Duplicate => 22,
            Rule::BadIndex => 23,
            Rule::BadStartup => 31,
            Rule::BadEmbedded => 32,
        }
    }

    /// What breaks it, in words that follow the place.
    pub fn sentence(self) -> &'static str
        ensures { result.now ≡ sentence_of self }
    {
        match self {
            Rule::Grammar => "not a line of the grammar",
            Rule::WrongStep => "a step that this command does not take",
            Rule::OutOfPlace => "a line out of its place",
            Rule::NotUtf8 => "not UTF-8",
            Rule::NotToml => "not TOML",
            Rule::UnknownField => "a table, key or value that definitions do not have",
            Rule::BadName => "a name that breaks its rule",
            Rule::BadDependency => "a dependency that no module has as its name",
            Rule::NoFile => "a listed file that is not among the files",
            Rule::BadChain => "a language with a bad chain of fallbacks",
            Rule::BadSource => "a source that is not declared",
            Rule::Duplicate => "a name that stands twice",
            Rule::BadIndex => "a dependency on a row that is not there",
            Rule::BadStartup => "not a startup text",
            Rule::BadEmbedded => "not an answer to embed",
        }
    }

    /// The rule that has this number, where there is one.
    pub fn of(number: u32) -> Option<Rule>
        ensures { result ≡ rule_of number }
    {
        match number {
            1 => Some(Rule::Grammar),
            2 => Some(Rule::WrongStep),
            3 => Some(Rule::OutOfPlace),
            4 => Some(Rule::NotUtf8),
            11 => Some(Rule::NotToml),
            12 => Some(Rule::UnknownField),
            13 => Some(Rule::BadName),
            14 => Some(Rule::BadDependency),
            15 => Some(Rule::NoFile),
            16 => Some(Rule::BadChain),
            18 => Some(Rule::BadSource),
            22 => Some(Rule::Duplicate),
            23 => Some(Rule::BadIndex),
            31 => Some(Rule::BadStartup),
            32 => Some(Rule::BadEmbedded),
            _ => None,
        }
    }
}
