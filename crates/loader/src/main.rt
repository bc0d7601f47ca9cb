//! The program `loader`: the top call over the files of the system and standard output.
#![tactic(auto)]

mod end;
mod serve;

use crate::end::End;
use rl_base::{DirTree, Observer, Recorder, StdSink};
use rl_cli::{Report, Status, run};
use rl_names::{Name, NameError};
use std::alloc::{AllocError, Global};
use std::env;
use std::io::ErrorKind;
use std::net::{Net, TcpListener, TcpStream};
use std::process::ExitCode;
use std::sync::Wait;

const VERSION: &str = "loader 0.1.0\n";

const HELP: &str = "\
loader: both ends of a wiki's loader of scripts

  loader drive SCRIPT                            what the client does with the rows, requests and parts of a script
  loader load DEFS PAGES VIEWER QUERY            what a wiki answers to a query of a viewer
  loader startup DEFS PAGES VIEWER LANG SKIN     what a client of a viewer starts from, in a language and with a skin
  loader check DEFS PAGES                        what an author is told of a wiki: how much it has, and which gadget lines count
  loader serve DB DEFS PORT                      the wiki of a database over HTTP, on a port of this machine
  loader --help                                  this text
  loader --version                               the version of the program

DEFS is the wiki's file of definitions, PAGES a file of edits and options, or - for none, and VIEWER the
name of a user, or - for nobody.

Before the words of a command there may be options, any number of times:

  --throw NAME                        the script of the module NAME throws where it executes
  --idle SECONDS                      before `serve`, once: a peer may be silent for so long, and not for 10 seconds

A file word may lead anywhere that the user may read; one that does not begin with `/`
leads from the current folder. The status is 0, or 2 where words or a file are at fault,
3 where something requested is not ready, 4 where reading or writing failed, and 5 for
want of memory.
";

/// Prints a text of the program's own.
fn print(rt: &HostRuntime, text: &str) -> End {
    match print!(rt; "{text}") {
        Ok(()) => End::plain(Status::Done),
        Err(_) => End::plain(Status::WriteFault),
    }
}

/// Does what the words say. What executes throws for the modules of these names.
fn answer(rt: &HostRuntime, words: &[&str], thrown: Vec<Name>) -> Result<End, AllocError> {
    match words.first() {
        Some(&"--help") => Ok(print(rt, HELP)),
        Some(&"--version") => Ok(print(rt, VERSION)),
        _ => {
            let alloc = rt.alloc();
            let mut tree = DirTree::new(rt, alloc);
            let mut out = StdSink::new(rt);
            let mut observers: Vec<Box<dyn Observer + Send>> = Vec::new(alloc);
            if !thrown.is_empty() {
                observers.push(Box::new(alloc, Recorder::new(alloc, thrown))?)?;
            }
            let ended = run(alloc, words, &mut tree, &mut out, observers);
            let reason = match ended.status {
                Status::ReadFault => tree.reason(),
                Status::WriteFault => out.reason(),
                _ => None,
            };
            Ok(End {
                status: ended.status,
                word: ended.word,
                breach: ended.breach,
                unready: ended.unready,
                reason,
            })
        }
    }
}

/// The name of an option `--throw`, if these words are one.
fn thrown_name(alloc: Global, words: &[String]) -> Result<Option<Name>, AllocError> {
    let [option, name] = words else {
        return Ok(None);
    };
    if option.as_str() != "--throw" {
        return Ok(None);
    }
    match Name::read(alloc, name.as_bytes()) {
        Ok(name) => Ok(Some(name)),
        Err(NameError::NoMemory) => Err(AllocError),
        Err(_) => Ok(None),
    }
}

/// The names of the options `--throw` at the front of the words. The first that is no such option, or whose name is
/// missing or bad, ends them.
fn thrown_names(alloc: Global, words: &[String]) -> Result<Vec<Name>, AllocError> {
    let mut names = Vec::new(alloc);
    for pair in words.chunks_exact(2) {
        match thrown_name(alloc, pair)? {
            Some(name) => names.push(name)?,
            None => return Ok(names),
        }
    }
    Ok(names)
}

/// Says on standard error what is wrong, if anything is, and gives the exit code.
fn ended(rt: &HostRuntime, words: &[&str], end: End) -> ExitCode {
    let End {
        status,
        word,
        breach,
        unready,
        reason,
    } = end;
    if status != Status::Done {
        let report = Report {
            words,
            status,
            word,
            breach,
            unready,
            reason,
        };
        // Where standard error takes nothing either, the code still tells.
        let _ = eprintln!(rt; "loader: {report}");
    }
    ExitCode::from(status.code())
}

/// The seconds of the option `--idle`, where one stands before `serve`, and the words from `serve` on.
fn served_words<'a, 'b>(words: &'b [&'a str]) -> Option<(u64, &'b [&'a str])> {
    match words {
        ["serve", ..] => Some((serve::IDLE, words)),
        ["--idle", seconds, "serve", ..] => {
            match seconds.parse::<u64>() {
                Ok(seconds) if seconds > 0 => Some((seconds, &words[2..])),
                _ => None,
            }
        }
        _ => None,
    }
}

/// Answers the words of a command line.
fn answered<L>(rt: &HostRuntime, live: &L, texts: &[String]) -> Result<ExitCode, AllocError>
where
    L: Wait + Net<Listener = TcpListener, Stream = TcpStream>,
{
    let thrown = thrown_names(rt.alloc(), texts)?;
    let mut words = Vec::with_capacity(rt.alloc(), texts.len())?;
    for text in texts.iter().skip(thrown.len().saturating_mul(2)) {
        words.push(text.as_str())?;
    }
    if let Some((idle, words)) = served_words(words.as_slice()) {
        return match serve::serve(rt, live, words, idle) {
            Ok(status) => Ok(ExitCode::from(status.code())),
            Err(end) => Ok(ended(rt, words, end)),
        };
    }
    let end = answer(rt, words.as_slice(), thrown)?;
    Ok(ended(rt, words.as_slice(), end))
}

fn main(rt: HostRuntime) -> ExitCode {
    let texts = match env::args(&rt) {
        Ok(args) => args.skip(1).collect::<Vec<String>>(rt.alloc()),
        Err(error) if error.kind() == ErrorKind::OutOfMemory => Err(AllocError),
        // A word is not UTF-8.
        Err(_) => return ended(&rt, &[], End::plain(Status::BadWords)),
    };
    match texts {
        Ok(texts) => match answered(&rt, &rt, texts.as_slice()) {
            Ok(code) => code,
            Err(AllocError) => ended(&rt, &[], End::plain(Status::NoMemory)),
        },
        Err(AllocError) => ended(&rt, &[], End::plain(Status::NoMemory)),
    }
}
