//! What a command makes of the bytes of its files.
ghost use Rattle.std.specs.Prelude.{◌≡◌, [], IfOk, Ok, Err, false, option_map};
ghost use Rattle.rl_names.specs.Meant.{ButForMemory, Gives};
ghost use Rattle.rl_script_spec.specs.Script.{verdict_of};
ghost use Rattle.rl_script_spec.specs.Unready.{unready_in};
ghost use Rattle.rl_view.specs.Heard.{throws_by};
ghost use Rattle.rl_drive.specs.Hearing.{executions_in};
ghost use Rattle.rl_defs.specs.Breach.{reading};
ghost use Rattle.rl_defs.specs.Refusal.{refusal_told as breach_told};
ghost use Rattle.rl_build.specs.Context.{context_of};
ghost use Rattle.rl_build.specs.Sight.{sight};
ghost use Rattle.rl_loadphp.specs.Refusal.{refusal_told as query_told};
ghost use Rattle.rl_steps.specs.Script.{refusal as lines_told};
ghost use Rattle.rl_startup.specs.Registry.{startup_text_of};
ghost use Rattle.rl_cli.specs.Meant.{meant};
ghost use Rattle.rl_cli.specs.Verdict.{
  IsHeard,
  executed_by,
  fault_told,
  file_at,
  of_breach as fault_of_breach,
  of_check,
  of_lines as fault_of_lines,
  of_load,
  of_query as fault_of_query,
  of_script,
  of_start,
  steps_in,
  verdict_on,
  wiki_in,
};

use crate::check::check_text;
use crate::pages::take_steps;
use crate::words::Command;
use rl_base::Hears;
use rl_build::Context;
use rl_defs::{Catalog, CatalogError};
use rl_drive::{DriveError, drive};
use rl_loadphp::AnswerError;
use rl_names::{Blob, Counted, NoMemory, Text};
use rl_pages::Viewer;
use rl_script_spec::Unready;
use rl_steps::{Kinds, ScriptError, Step, read_script};
use rl_wiki::Wiki;
use std::alloc::Global;

/// What a command prints.
#[derive(Drop)]
pub struct Printed {
    pub text: Blob,
    /// Whether every requested name is ready at the end, where the command has requests.
    pub ready: bool,
    /// The place of the word whose file has the requests; 0 where the command has none.
    pub word: u32,
    /// Why not everything that was requested was served.
    pub unready: Option<Unready>,
}

/// Why a command prints nothing.
#[derive(Drop)]
pub enum WorkError {
    /// The file of this word breaks the rule of a number, in a line, where 0 stands for the file as a
    /// whole. Of definitions it is told what breaks it.
    Breaks {
        word: u32,
        line: u32,
        why: u32,
        breach: Option<CatalogError>,
    },
    /// There is more of something, at this word, than its limit allows.
    Exceeds {
        word: u32,
        what: Counted,
        count: u64,
    },
    NoMemory,
}

/// What a command makes of the bytes of its files, one for each of its places.
pub fn work<H: Hears>(
    alloc: Global,
    command: &Command,
    files: &[Blob],
    observers: &mut H,
) -> Result<Printed, WorkError>
    ensures gives { Gives fault_told result (verdict_on (throws_by (H.says observers.old)) (meant command.now) files.now) }
    ensures heard { IsHeard result (executed_by (throws_by (H.says observers.old)) (meant command.now) files.now)
        (H.told observers.old) (H.told observers.new) }
    ensures same { (first : H) → H.same first observers.old → H.same first observers.new }
{
    match command {
        Command::Drive => play_script(alloc, bytes_of(files, 0), 1, observers),
        Command::Load {
            paged,
            viewer,
            query,
        } => load(alloc, *paged, files, viewer, query),
        Command::Startup {
            paged,
            viewer,
            lang,
            skin,
        } => startup(alloc, *paged, files, viewer, lang, skin),
        Command::Check { paged } => check(alloc, *paged, files),
    }
}

/// The bytes of the file of a number, counted from 0.
fn bytes_of(files: &[Blob], number: usize) -> &[u8]
    ensures { result.now ≡ file_at files.now number }
{
    match files.get(number) {
        Some(file) => file.as_bytes(),
        None => &[],
    }
}

/// Plays a script, which the word of this place names.
fn play_script<H: Hears>(
    alloc: Global,
    bytes: &[u8],
    word: u32,
    observers: &mut H,
) -> Result<Printed, WorkError>
    ensures gives { Gives fault_told result (of_script word (unready_in (throws_by (H.says observers.old)) bytes.now)
        (verdict_of (throws_by (H.says observers.old)) bytes.now)) }
    ensures heard { IsHeard result (executions_in (throws_by (H.says observers.old)) bytes.now) (H.told observers.old) (H.told observers.new) }
    ensures same { (first : H) → H.same first observers.old → H.same first observers.new }
{
    match drive(alloc, bytes, observers) {
        Ok(driven) => Ok(Printed {
            text: Blob::from_vec(driven.text),
            ready: driven.ready,
            word,
            unready: driven.unready,
        }),
        Err(DriveError::BadInput { line, why }) => Err(WorkError::Breaks {
            word,
            line,
            why,
            breach: None,
        }),
        Err(DriveError::TooLarge { what, count }) => Err(WorkError::Exceeds { word, what, count }),
        Err(DriveError::NoMemory) => Err(WorkError::NoMemory),
    }
}

/// The fault of definitions, which the word of this place names.
fn of_breach(word: u32, breach: CatalogError) -> WorkError
    ensures { fault_told result ≡ option_map (fault_of_breach word) (breach_told breach) }
{
    match breach {
        CatalogError::TooMany { what, count } => WorkError::Exceeds { word, what, count },
        CatalogError::NoMemory => WorkError::NoMemory,
        breach => {
            let why = match breach.rule() {
                Some(rule) => rule.number(),
                None => 0,
            };
            WorkError::Breaks {
                word,
                line: 0,
                why,
                breach: Some(breach),
            }
        }
    }
}

/// The fault of a query, which is the word of this place.
fn of_query(word: u32, error: AnswerError) -> WorkError
    ensures { fault_told result ≡ option_map (fault_of_query word) (query_told error) }
{
    let (what, count) = match error {
        AnswerError::QueryTooLong { len } => (Counted::QueryBytes, len),
        AnswerError::TooManyNames { count } => (Counted::Names, count),
        AnswerError::AnswerTooLong { len } => (Counted::AnswerBytes, len),
        AnswerError::NoMemory => return WorkError::NoMemory,
    };
    WorkError::Exceeds { word, what, count }
}

/// The fault of a script of pages, which the word of this place names.
fn of_lines(word: u32, error: ScriptError) -> WorkError
    ensures { fault_told result ≡ option_map (fault_of_lines word) (lines_told error) }
{
    match error {
        ScriptError::BadLine { line, why } => WorkError::Breaks {
            word,
            line,
            why,
            breach: None,
        },
        ScriptError::TooMany { count } => WorkError::Exceeds {
            word,
            what: Counted::Steps,
            count,
        },
        ScriptError::NoMemory => WorkError::NoMemory,
    }
}

/// The steps of the file of pages, if there is one.
fn read_steps(alloc: Global, paged: bool, files: &[Blob]) -> Result<Vec<Step>, WorkError>
    ensures { ButForMemory fault_told (λ steps. steps_in paged files.now ≡ Ok steps.items)
        (λ fault. (why : _) × (steps_in paged files.now ≡ Err why) × (fault ≡ fault_of_lines 2 why)) result }
{
    if !paged {
        return Ok(Vec::new(alloc));
    }
    match read_script(alloc, bytes_of(files, 1), Kinds::Pages) {
        Ok(steps) => Ok(steps),
        Err(error) => Err(of_lines(2, error)),
    }
}

/// A wiki without pages, by definitions, which word 1 names.
fn open(alloc: Global, definitions: &[u8]) -> Result<Wiki, WorkError>
    ensures { ButForMemory fault_told (λ w. (reading definitions.now ≡ Ok w.catalogue) × (w.entries ≡ []))
        (λ fault. (breach : _) × (reading definitions.now ≡ Err breach) × (fault ≡ fault_of_breach 1 breach)) result }
{
    let catalog = match Catalog::read(alloc, definitions) {
        Ok(catalog) => catalog,
        Err(breach) => return Err(of_breach(1, breach)),
    };
    match Wiki::open(alloc, catalog) {
        Ok(wiki) => Ok(wiki),
        Err(NoMemory) => Err(WorkError::NoMemory),
    }
}

/// The wiki that the files make: definitions, which word 1 names, and a file of pages, which word 2 names.
fn wiki_of(alloc: Global, paged: bool, files: &[Blob]) -> Result<Wiki, WorkError>
    ensures { Gives fault_told result (wiki_in paged files.now) }
{
    let mut wiki = open(alloc, bytes_of(files, 0))?;
    let steps = read_steps(alloc, paged, files)?;
    match take_steps(alloc, &mut wiki, steps.as_slice()) {
        Ok(()) => Ok(wiki),
        Err(NoMemory) => Err(WorkError::NoMemory),
    }
}

/// The body that answers a query of a viewer, which is word 4.
fn load(
    alloc: Global,
    paged: bool,
    files: &[Blob],
    viewer: &Viewer,
    query: &str,
) -> Result<Printed, WorkError>
    ensures { Gives fault_told result (of_load viewer.now query.now (wiki_in paged files.now)) }
{
    let wiki = wiki_of(alloc, paged, files)?;
    match wiki.answer(alloc, viewer, query.as_bytes()) {
        Ok(answer) => Ok(Printed {
            text: Blob::from_vec(answer.body.into_string().into_bytes()),
            ready: true,
            word: 0,
            unready: None,
        }),
        Err(error) => Err(of_query(4, error)),
    }
}

/// The startup text of a viewer, in a language and with a skin.
fn startup_of(
    alloc: Global,
    wiki: &Wiki,
    viewer: &Viewer,
    lang: &str,
    skin: &str,
) -> Result<Text, NoMemory>
    ensures { IfOk result (λ t. t ≡ startup_text_of (sight wiki.now.catalogue wiki.now.entries viewer.now)
        (context_of wiki.now.catalogue lang.now skin.now false)) }
{
    let ctx = Context::read(
        alloc,
        wiki.catalog(),
        lang.as_bytes(),
        skin.as_bytes(),
        false,
    )?;
    wiki.startup(alloc, viewer, &ctx)
}

/// What a client of a viewer starts from.
fn startup(
    alloc: Global,
    paged: bool,
    files: &[Blob],
    viewer: &Viewer,
    lang: &str,
    skin: &str,
) -> Result<Printed, WorkError>
    ensures { Gives fault_told result (of_start viewer.now lang.now skin.now (wiki_in paged files.now)) }
{
    let wiki = wiki_of(alloc, paged, files)?;
    match startup_of(alloc, &wiki, viewer, lang, skin) {
        Ok(text) => Ok(Printed {
            text: Blob::from_vec(text.into_string().into_bytes()),
            ready: true,
            word: 0,
            unready: None,
        }),
        Err(NoMemory) => Err(WorkError::NoMemory),
    }
}

/// What an author is told of a wiki.
fn check(alloc: Global, paged: bool, files: &[Blob]) -> Result<Printed, WorkError>
    ensures { Gives fault_told result (of_check (wiki_in paged files.now)) }
{
    let wiki = wiki_of(alloc, paged, files)?;
    match check_text(alloc, &wiki) {
        Ok(text) => Ok(Printed {
            text: Blob::from_vec(text),
            ready: true,
            word: 0,
            unready: None,
        }),
        Err(NoMemory) => Err(WorkError::NoMemory),
    }
}
