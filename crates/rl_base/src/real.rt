//! The real forms: files of the system, and standard output. Each hands on what the system's reader or
//! writer gave, and tells no contents.
ghost use Rattle.std.specs.Prelude.{◌≡◌, ◌≢◌, ◌≤◌, [], None, IfOk, OnErr, IsErrOf, IfSome, length, take};
ghost use Rattle.std.specs.Io.KnownBytes.{Appends, Keeps};
ghost use Rattle.rl_base.specs.Causes.{Rose};

use crate::fault::{Faults, Reason};
use crate::sink::{Sink, SinkError};
use crate::tree::{FetchError, Tree};
use rl_names::{Blob, Text};
use std::alloc::Global;
use std::fs::File;
use std::io;
use std::io::{ErrorKind, Read, Write};
use std::rt::Files;

/// The files of the system, by the paths that a user may give; one that does not begin with `/` leads
/// from the current folder. They are not told, so a file that is not there is a fault like any other.
#[derive(Drop)]
pub struct DirTree<R> {
    rt: R,
    alloc: Global,
    faults: Faults,
    blamed: Option<Text>,
}

impl<R: Files> DirTree<R> {
    /// The files as the system has them.
    pub fn new(rt: R, alloc: Global) -> DirTree<R>
        ensures faults { ⟦<DirTree<R> as Tree>⟧.faults result ≡ 0 }
        ensures blamed { ⟦<DirTree<R> as Tree>⟧.blamed result ≡ None }
    {
        DirTree {
            rt,
            alloc,
            faults: Faults::none(),
            blamed: None,
        }
    }

    /// Why the last fetch that failed did, where the system says.
    pub fn reason(&self) -> Option<Reason>
        ensures { result ≡ self.now.faults.reason }
    {
        self.faults.reason
    }
}

/// The first `max` bytes that a reader gives.
pub(crate) fn read_front<F: Read + Drop>(reader: F, alloc: Global, max: u64) -> io::Result<Vec<u8>>
    ensures front { IfOk result (λ bytes. IfSome (F.remaining reader) (λ left. bytes.items ≡ take max left)) }
    ensures most { IfOk result (λ bytes. length bytes.items ≤ max) }
{
    let mut bytes = Vec::new(alloc);
    reader.take(max).read_to_end(&mut bytes)?;
    bytes.truncate(max as usize);
    Ok(bytes)
}

/// The first `max` bytes of a file of the system.
fn open_front<R: Files>(rt: &R, alloc: Global, name: &str, max: u64) -> io::Result<Vec<u8>>
    ensures { IfOk result (λ bytes. length bytes.items ≤ max) }
{
    read_front(File::open(rt, name)?, alloc, max)
}

impl<R: Files> Tree for DirTree<R> {
    ghost use Rattle.std.specs.Prelude.{None};

    ghost files = { λ _. None };

    ghost blamed = { λ t. t.blamed };

    ghost faults = { λ t. t.faults.count };

    fn fetch(&mut self, name: &str, max: u64) -> Result<Blob, FetchError> {
        let Ok(blamed) = Text::of(self.alloc, name) else {
            return Err(FetchError::NoMemory);
        };
        match open_front(&self.rt, self.alloc, name, max) {
            Ok(bytes) => Ok(Blob::from_vec(bytes)),
            Err(error) if error.kind() == ErrorKind::OutOfMemory => Err(FetchError::NoMemory),
            Err(error) => {
                self.blamed = Some(blamed);
                self.faults.add(&error);
                Err(FetchError::Failed)
            }
        }
    }
}

/// Standard output. What was written is not told.
#[derive(Drop)]
pub struct StdSink<R> {
    rt: R,
    faults: Faults,
}

impl<R: Print> StdSink<R> {
    /// Standard output as the system has it.
    pub fn new(rt: R) -> StdSink<R>
        ensures { ⟦<StdSink<R> as Sink>⟧.faults result ≡ 0 }
    {
        StdSink {
            rt,
            faults: Faults::none(),
        }
    }

    /// Why the last write that failed did, where the system says.
    pub fn reason(&self) -> Option<Reason>
        ensures { result ≡ self.now.faults.reason }
    {
        self.faults.reason
    }
}

/// Hands a piece to a writer, and answers how many of its bytes the writer took.
pub fn hand<W: Write>(writer: &mut W, bytes: &[u8], faults: &mut Faults) -> Result<usize, SinkError>
    ensures most { IfOk result (λ count. count ≤ length bytes.now) }
    ensures takes { IfOk result (λ count. Appends (W.contents writer.old) (W.contents writer.new) (take count bytes.now)) }
    ensures nothing { IfOk result (λ count. count ≡ 0 → bytes.now ≢ [] → Rose faults.old.count faults.new.count) }
    ensures failed { IsErrOf result SinkError.Failed → Rose faults.old.count faults.new.count }
    ensures refused { OnErr result (Keeps (W.contents writer.old) (W.contents writer.new)) }
    ensures never_falls { faults.old.count ≤ faults.new.count }
{
    match writer.write(bytes) {
        Ok(0) if !bytes.is_empty() => {
            faults.add_silent();
            Ok(0)
        }
        Ok(count) => Ok(count),
        Err(error) => {
            faults.add(&error);
            Err(SinkError::Failed)
        }
    }
}

impl<R: Print> Sink for StdSink<R> {
    ghost use Rattle.std.specs.Prelude.{None};

    ghost written = { λ _. None };

    ghost faults = { λ s. s.faults.count };

    fn write(&mut self, bytes: &[u8]) -> Result<usize, SinkError> {
        hand(&mut io::writer(&self.rt), bytes, &mut self.faults)
    }
}
