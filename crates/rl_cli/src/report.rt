//! The line that tells a person how a call ended.
ghost use Rattle.std.specs.Prelude.{◌≡◌, Some};
ghost use Rattle.std.specs.Fmt.{DisplaysOnOk};
ghost use Rattle.rl_cli.specs.Spelt.{spelt};
ghost use Rattle.rl_cli.specs.Told.{breach_line, count_line, fault_text, field_line, had_line, input_line, limit_line, named_line, place_text};
ghost use Rattle.rl_cli.specs.Told.{blame_words, blamed_text, cause_text, held_line, needed_text, refused_line, state_text, unready_line, unresolved_words};
ghost use Rattle.rl_cli.specs.Told.{reason_text, rule_line, rule_text, unread_line, unwritten_line};

use crate::spelt::Spelt;
use crate::status::Status;
use crate::words::word_at;
use rl_base::Reason;
use rl_defs::{CatalogError, FieldKind};
use rl_names::{Counted, Rule, Text};
use rl_reply::state_word;
use rl_script_spec::{Blame, Unready, Unresolved};
use rl_view_spec::Phase;
use std::fmt;

/// How a call ended as a person reads it, in one line: what is wrong, and where. Words and names are
/// spelt as JSON strings. A rule that has a number is followed by it in parentheses.
#[derive(Drop)]
pub struct Report<'a> {
    /// The words of the call.
    pub words: &'a [&'a str],
    pub status: Status,
    /// The place of the word that the status is about.
    pub word: u32,
    /// What breaks a rule of definitions, where definitions are refused.
    pub breach: Option<CatalogError>,
    /// Why not everything that was requested was served.
    pub unready: Option<Unready>,
    /// Why the system refused, where reading or writing failed and it says so.
    pub reason: Option<Reason>,
}

/// What breaks the rule of a number.
fn rule(why: u32) -> &'static str
    ensures { result.now ≡ rule_text why }
{
    match Rule::of(why) {
        Some(rule) => rule.sentence(),
        None => "against the rules",
    }
}

/// Writes the name of a file, and a line where one is told.
fn write_place<W: fmt::Write>(f: &mut fmt::Formatter<W>, file: &str, line: u32) -> fmt::Result
    ensures { DisplaysOnOk W.write_str_gives f.old result (Some (place_text file.now line)) f.new }
{
    let file = Spelt(file);
    if line == 0 {
        write!(f, "{file}: ")
    } else {
        write!(f, "{file}, line {line}: ")
    }
}

/// Writes that a file breaks a rule, in a line where one is told.
fn write_rule<W: fmt::Write>(
    f: &mut fmt::Formatter<W>,
    file: &str,
    line: u32,
    why: u32,
) -> fmt::Result
    ensures { DisplaysOnOk W.write_str_gives f.old result (Some (rule_line file.now line why)) f.new }
{
    let rule = rule(why);
    write_place(f, file, line)?;
    write!(f, "{rule} ({why})")
}

/// Writes what is wrong, and the number of the rule.
fn write_fault<W: fmt::Write>(f: &mut fmt::Formatter<W>, fault: &str, why: u32) -> fmt::Result
    ensures { DisplaysOnOk W.write_str_gives f.old result (Some (fault_text fault.now why)) f.new }
{
    write!(f, " {fault} ({why})")
}

/// Writes that something of definitions is at fault, by its name.
fn write_named<W: fmt::Write>(
    f: &mut fmt::Formatter<W>,
    file: &str,
    kind: &str,
    name: &str,
    fault: &str,
    why: u32,
) -> fmt::Result
    ensures { DisplaysOnOk W.write_str_gives f.old result (Some (named_line file.now kind.now name.now fault.now why)) f.new }
{
    let (file, name) = (Spelt(file), Spelt(name));
    write!(f, "{file}: {kind} {name}")?;
    write_fault(f, fault, why)
}

/// Writes that something which a module has is at fault.
fn write_had<W: fmt::Write>(
    f: &mut fmt::Formatter<W>,
    file: &str,
    owner: &str,
    has: &str,
    name: &str,
    fault: &str,
    why: u32,
) -> fmt::Result
    ensures { DisplaysOnOk W.write_str_gives f.old result (Some (had_line file.now owner.now has.now name.now fault.now why)) f.new }
{
    let (file, owner, name) = (Spelt(file), Spelt(owner), Spelt(name));
    write!(f, "{file}: module {owner}")?;
    write!(f, " {has} {name}, which")?;
    write_fault(f, fault, why)
}

/// Writes which field definitions do not have.
fn write_field<W: fmt::Write>(
    f: &mut fmt::Formatter<W>,
    file: &str,
    kind: FieldKind,
    owner: &Text,
    field: &Text,
    why: u32,
) -> fmt::Result
    ensures { DisplaysOnOk W.write_str_gives f.old result (Some (field_line file.now kind owner.now field.now why)) f.new }
{
    let (owner, field) = (owner.as_str(), field.as_str());
    let fault = "is unknown or has a bad value";
    match kind {
        FieldKind::OfFile => write_named(f, file, "the field", field, fault, why),
        FieldKind::IsModule => write_named(f, file, "module", owner, "is no table", why),
        FieldKind::OfModule => write_had(f, file, owner, "has the field", field, fault, why),
    }
}

/// Writes which rule definitions break, with the module and the field.
fn write_breach<W: fmt::Write>(
    f: &mut fmt::Formatter<W>,
    file: &str,
    breach: &CatalogError,
    why: u32,
) -> fmt::Result
    ensures { DisplaysOnOk W.write_str_gives f.old result (Some (breach_line file.now breach.now why)) f.new }
{
    match breach {
        CatalogError::UnknownField {
            kind,
            module: owner,
            field,
        } => write_field(f, file, *kind, owner, field, why),
        CatalogError::BadName { text } => {
            write_named(f, file, "the name", text.as_str(), "breaks its rule", why)
        }
        CatalogError::BadDependency {
            module: owner,
            name,
        } => write_had(
            f,
            file,
            owner.as_str(),
            "depends on",
            name.as_str(),
            "is no module",
            why,
        ),
        CatalogError::NoFile {
            module: owner,
            file: listed,
        } => write_had(
            f,
            file,
            owner.as_str(),
            "lists the file",
            listed.as_str(),
            "is not there",
            why,
        ),
        CatalogError::BadChain { language } => write_named(
            f,
            file,
            "the language",
            language.as_str(),
            "has bad fallbacks",
            why,
        ),
        CatalogError::BadSource { module: owner } => write_named(
            f,
            file,
            "module",
            owner.as_str(),
            "has an unknown source",
            why,
        ),
        CatalogError::NotToml | CatalogError::TooMany { .. } | CatalogError::NoMemory => {
            write_rule(f, file, 0, why)
        }
    }
}

/// Writes what is wrong with a file.
fn write_input<W: fmt::Write>(
    f: &mut fmt::Formatter<W>,
    file: &str,
    breach: &Option<CatalogError>,
    line: u32,
    why: u32,
) -> fmt::Result
    ensures { DisplaysOnOk W.write_str_gives f.old result (Some (input_line file.now breach.now line why)) f.new }
{
    match breach {
        Some(breach) => write_breach(f, file, breach, why),
        None => write_rule(f, file, line, why),
    }
}

/// Writes how many there are, and how many there may be.
fn write_limit<W: fmt::Write>(
    f: &mut fmt::Formatter<W>,
    word: &str,
    count: u64,
    unit: &str,
    limit: u64,
) -> fmt::Result
    ensures { DisplaysOnOk W.write_str_gives f.old result (Some (limit_line word.now count unit.now limit)) f.new }
{
    let word = Spelt(word);
    write!(f, "{word}: {count} {unit}")?;
    write!(f, ", and there may be {limit}")
}

/// Writes that there is more of something than its limit allows.
fn write_count<W: fmt::Write>(
    f: &mut fmt::Formatter<W>,
    word: &str,
    what: Counted,
    count: u64,
) -> fmt::Result
    ensures { DisplaysOnOk W.write_str_gives f.old result (Some (count_line word.now what count)) f.new }
{
    write_limit(f, word, count, what.unit(), what.limit())
}

/// Writes the system's reason, where it is known.
fn write_reason<W: fmt::Write>(f: &mut fmt::Formatter<W>, reason: Option<Reason>) -> fmt::Result
    ensures { DisplaysOnOk W.write_str_gives f.old result (Some (reason_text reason)) f.new }
{
    match reason {
        Some(reason) => {
            let words = reason.words();
            write!(f, ": {words}")
        }
        None => f.write_str(""),
    }
}

/// Writes that the output could not be written.
fn write_unwritten<W: fmt::Write>(f: &mut fmt::Formatter<W>, reason: Option<Reason>) -> fmt::Result
    ensures { DisplaysOnOk W.write_str_gives f.old result (Some (unwritten_line reason)) f.new }
{
    f.write_str("the output could not be written")?;
    write_reason(f, reason)
}

/// Writes that a file could not be read.
fn write_unread<W: fmt::Write>(
    f: &mut fmt::Formatter<W>,
    file: &str,
    reason: Option<Reason>,
) -> fmt::Result
    ensures { DisplaysOnOk W.write_str_gives f.old result (Some (unread_line file.now reason)) f.new }
{
    write_name(f, file)?;
    f.write_str(": could not be read")?;
    write_reason(f, reason)
}

/// Writes a name as it is spelt.
fn write_name<W: fmt::Write>(f: &mut fmt::Formatter<W>, name: &str) -> fmt::Result
    ensures { DisplaysOnOk W.write_str_gives f.old result (Some (spelt name.now)) f.new }
{
    let name = Spelt(name);
    write!(f, "{name}")
}

/// Why a name does not resolve.
fn unresolved_words(why: Unresolved) -> &'static str
    ensures { result.now ≡ unresolved_words why }
{
    match why {
        Unresolved::Unknown => "is unknown",
        Unresolved::Cycle => "depends on itself",
    }
}

/// What a module that is to blame has done.
fn blame_words(blame: Blame) -> &'static str
    ensures { result.now ≡ blame_words blame }
{
    match blame {
        Blame::Unanswered => "was not answered",
        Blame::Missing => "is missing",
        Blame::Error => "is in error",
        Blame::Threw => "threw",
    }
}

/// Writes what a step needs, and what is wrong with it.
fn write_cause<W: fmt::Write>(f: &mut fmt::Formatter<W>, name: &str, fault: &str) -> fmt::Result
    ensures { DisplaysOnOk W.write_str_gives f.old result (Some (cause_text name.now fault.now)) f.new }
{
    let name = Spelt(name);
    write!(f, " needs module {name}, which {fault}")
}

/// Writes which step was refused, or dropped a name, and the name to blame.
fn write_refused<W: fmt::Write>(
    f: &mut fmt::Formatter<W>,
    file: &str,
    step: u64,
    name: &str,
    why: Unresolved,
) -> fmt::Result
    ensures { DisplaysOnOk W.write_str_gives f.old result (Some (refused_line file.now step name.now why)) f.new }
{
    let fault = unresolved_words(why);
    let file = Spelt(file);
    write!(f, "{file}: step {step}")?;
    write_cause(f, name, fault)
}

/// Writes what a module has done that another needs.
fn write_needed<W: fmt::Write>(f: &mut fmt::Formatter<W>, member: &str, done: &str) -> fmt::Result
    ensures { DisplaysOnOk W.write_str_gives f.old result (Some (needed_text member.now done.now)) f.new }
{
    let member = Spelt(member);
    write!(f, "{member}, which it needs, {done}")
}

/// Writes what a module, or one that it needs, has done.
fn write_blamed<W: fmt::Write>(
    f: &mut fmt::Formatter<W>,
    name: &str,
    member: &str,
    blame: Blame,
) -> fmt::Result
    ensures { DisplaysOnOk W.write_str_gives f.old result (Some (blamed_text name.now member.now blame)) f.new }
{
    let done = blame_words(blame);
    if member == name {
        write!(f, "it {done}")
    } else {
        write_needed(f, member, done)
    }
}

/// Writes which module is not ready.
fn write_state<W: fmt::Write>(
    f: &mut fmt::Formatter<W>,
    file: &str,
    name: &str,
    state: &str,
) -> fmt::Result
    ensures { DisplaysOnOk W.write_str_gives f.old result (Some (state_text file.now name.now state.now)) f.new }
{
    let (file, name) = (Spelt(file), Spelt(name));
    write!(f, "{file}: module {name}")?;
    write!(f, " is not ready ({state}): ")
}

/// Writes which module is not ready, and what is to blame.
fn write_held<W: fmt::Write>(
    f: &mut fmt::Formatter<W>,
    file: &str,
    name: &str,
    state: Phase,
    member: &str,
    blame: Blame,
) -> fmt::Result
    ensures { DisplaysOnOk W.write_str_gives f.old result (Some (held_line file.now name.now state member.now blame)) f.new }
{
    let word = state_word(state);
    write_state(f, file, name, word)?;
    write_blamed(f, name, member, blame)
}

/// Writes why not everything was served that a file requests.
fn write_unready<W: fmt::Write>(
    f: &mut fmt::Formatter<W>,
    file: &str,
    unready: &Option<Unready>,
) -> fmt::Result
    ensures { DisplaysOnOk W.write_str_gives f.old result (Some (unready_line file.now unready.now)) f.new }
{
    match unready {
        None => f.write_str("a request was refused, or a requested module is not ready"),
        Some(Unready::Refused { step, name, why }) => {
            write_refused(f, file, *step, name.as_str(), *why)
        }
        Some(
            Unready::NotReady {
                name,
                state,
                member,
                blame,
            },
        ) => write_held(f, file, name.as_str(), *state, member.as_str(), *blame),
    }
}

impl<'a> fmt::Display for Report<'a> {
    ghost use Rattle.std.specs.Prelude.{Some};
    ghost use Rattle.rl_cli.specs.Told.{told_line};
    ghost use Rattle.rl_cli.specs.Words.{texts};

    ghost output = { λ r. Some (told_line (texts r.words.now) r.status r.word r.breach r.unready r.reason) };

    fn fmt<W: fmt::Write>(&self, f: &mut fmt::Formatter<W>) -> fmt::Result {
        match self.status {
            Status::Done => f.write_str("done"),
            Status::BadWords => f.write_str(
                "no command has these words; `loader --help` lists them",
            ),
            Status::BadInput { word, line, why } => {
                write_input(f, word_at(self.words, word), &self.breach, line, why)
            }
            Status::TooLarge { what, count } => {
                write_count(f, word_at(self.words, self.word), what, count)
            }
            Status::NotReady => write_unready(f, word_at(self.words, self.word), &self.unready),
            Status::ReadFault => write_unread(f, word_at(self.words, self.word), self.reason),
            Status::WriteFault => write_unwritten(f, self.reason),
            Status::NoMemory => f.write_str("out of memory"),
        }
    }
}
