//! The words of a call: which command they are, and which of them name files.
ghost use Rattle.std.specs.Prelude.{◌≡◌, IfOk, option_map};
ghost use Rattle.rl_cli.specs.Words.{command_of, check_of, drive_of, load_of, startup_of, is_file, viewer_named, files_with, texts, files_of, word_at as word_of};
ghost use Rattle.rl_cli.specs.Meant.{meant};

use rl_names::{NoMemory, Text, UserName, UserNameError};
use rl_pages::Viewer;
use std::alloc::Global;

/// What the words ask for. The words that name files are told by their places ([`Command::files`]).
#[derive(Drop)]
pub enum Command<'a> {
    /// `drive SCRIPT`: what the client machine prints for a script.
    Drive,
    /// `load DEFS PAGES VIEWER QUERY`: what a wiki of these definitions and pages answers to a query of a viewer.
    Load {
        paged: bool,
        viewer: Viewer,
        query: &'a str,
    },
    /// `startup DEFS PAGES VIEWER LANG SKIN`: what a client of a viewer starts from, in this language and with this skin.
    Startup {
        paged: bool,
        viewer: Viewer,
        lang: &'a str,
        skin: &'a str,
    },
    /// `check DEFS PAGES`: what an author is told of a wiki of these definitions and pages.
    Check {
        paged: bool,
    },
}

/// The words `drive SCRIPT`.
fn drive_words<'a>(words: &[&'a str]) -> Option<Command<'a>>
    ensures { option_map meant result ≡ drive_of (texts words.now) }
{
    let [word, _script] = words else {
        return None;
    };
    if *word == "drive" {
        Some(Command::Drive)
    } else {
        None
    }
}

/// Whether there is a file of pages: `-` stands for none.
fn is_file(pages: &str) -> bool
    ensures { result ≡ is_file pages.now }
{
    pages != "-"
}

/// The viewer whom a word names, if it names one: `-` stands for nobody.
fn viewer_named(alloc: Global, word: &str) -> Result<Option<Viewer>, NoMemory>
    ensures { IfOk result (λ viewer. viewer ≡ viewer_named word.now) }
{
    if word == "-" {
        return Ok(Some(Viewer::Anon));
    }
    match UserName::read(alloc, word.as_bytes()) {
        Ok(name) => Ok(Some(Viewer::User(Text::from_string(name.into_string())))),
        Err(UserNameError::BadUserName) => Ok(None),
        Err(UserNameError::NoMemory) => Err(NoMemory),
    }
}

/// The words `load DEFS PAGES VIEWER QUERY`.
fn load_words<'a>(alloc: Global, words: &[&'a str]) -> Result<Option<Command<'a>>, NoMemory>
    ensures { IfOk result (λ command. option_map meant command ≡ load_of (texts words.now)) }
{
    let [word, _definitions, pages, viewer, query] = words else {
        return Ok(None);
    };
    if *word != "load" {
        return Ok(None);
    }
    let paged = is_file(pages);
    match viewer_named(alloc, viewer)? {
        Some(viewer) => Ok(Some(Command::Load {
            paged,
            viewer,
            query,
        })),
        None => Ok(None),
    }
}

/// The words `startup DEFS PAGES VIEWER LANG SKIN`.
fn startup_words<'a>(alloc: Global, words: &[&'a str]) -> Result<Option<Command<'a>>, NoMemory>
    ensures { IfOk result (λ command. option_map meant command ≡ startup_of (texts words.now)) }
{
    let [word, _definitions, pages, viewer, lang, skin] = words else {
        return Ok(None);
    };
    if *word != "startup" {
        return Ok(None);
    }
    let paged = is_file(pages);
    match viewer_named(alloc, viewer)? {
        Some(viewer) => Ok(Some(Command::Startup {
            paged,
            viewer,
            lang,
            skin,
        })),
        None => Ok(None),
    }
}

/// The words `check DEFS PAGES`.
fn check_words<'a>(words: &[&'a str]) -> Option<Command<'a>>
    ensures { option_map meant result ≡ check_of (texts words.now) }
{
    let [word, _definitions, pages] = words else {
        return None;
    };
    if *word == "check" {
        let paged = is_file(pages);
        Some(Command::Check { paged })
    } else {
        None
    }
}

/// The places of the definitions and of the pages.
fn files_with(paged: bool) -> &'static [u32]
    ensures { result.now ≡ files_with paged }
{
    if paged { &[1, 2] } else { &[1] }
}

impl<'a> Command<'a> {
    /// The command of the words, if they have one.
    pub fn read(alloc: Global, words: &[&'a str]) -> Result<Option<Command<'a>>, NoMemory>
        ensures { IfOk result (λ command. option_map meant command ≡ command_of (texts words.now)) }
    {
        if let Some(command) = drive_words(words) {
            return Ok(Some(command));
        }
        if let Some(command) = load_words(alloc, words)? {
            return Ok(Some(command));
        }
        if let Some(command) = startup_words(alloc, words)? {
            return Ok(Some(command));
        }
        Ok(check_words(words))
    }

    /// The places of the words that name its files, in their order. The word of the command has
    /// place 0.
    pub fn files(&self) -> &'static [u32]
        ensures { result.now ≡ files_of (meant self.now) }
    {
        match self {
            Command::Drive => &[1],
            Command::Load { paged, .. }
            | Command::Startup { paged, .. }
            | Command::Check { paged } => files_with(*paged),
        }
    }
}

/// The word of a place.
pub fn word_at<'a>(words: &[&'a str], place: u32) -> &'a str
    ensures { result.now ≡ word_of (texts words.now) place }
{
    match words.get(place as usize) {
        Some(word) => word,
        None => "",
    }
}
