//! The memory forms, which tell what they hold.
ghost use Rattle.std.specs.Prelude.{◌≡◌, ◌≢◌, ◌≤◌, [], take, Some, None, Err, IfOk, IfErr, IsErrOf, IsSomeAnd, option_map};
ghost use Rattle.std.specs.FinMap as map;
ghost use Rattle.rl_base.specs.Files.{IsFrontOf};
ghost use Rattle.rl_base.specs.Memory.{file_of, told_files, fetched, after_fetch, taken, after_write};

use crate::sink::{Sink, SinkError};
use crate::tree::{FetchError, Tree};
use rl_names::{Blob, NoMemory, Text};
use std::alloc::Global;
use std::marker::Model;

/// Files in memory, told by name. Where a name stands twice, its first file counts.
#[derive(Drop)]
pub struct MemTree {
    alloc: Global,
    files: Vec<(Text, Blob)>,
    failing: Vec<u64>,
    calls: u64,
    faults: u64,
    blamed: Option<Text>,
}

impl Model for MemTree {
    ghost use Rattle.rl_base.specs.Memory.{FilesInMemory};

    ghost Value = { FilesInMemory };

    ghost view = { λ t. record { files = t.files.items; failing = t.failing.items; calls = t.calls; faults = t.faults; blamed = t.blamed } };
}

impl MemTree {
    /// A tree of these files. The calls whose numbers, counted from 0, are among `failing` fail.
    pub fn new(
        alloc: Global,
        files: Vec<(Text, Blob)>,
        failing: Vec<u64>,
    ) -> Result<MemTree, NoMemory>
        ensures { IfOk result (λ tree. tree ≡ record { files = files.items; failing = failing.items; calls = 0; faults = 0; blamed = None }) }
    {
        Ok(MemTree {
            alloc,
            files,
            failing,
            calls: 0,
            faults: 0,
            blamed: None,
        })
    }
}

/// The file of a name.
fn find<'a>(files: &'a [(Text, Blob)], name: &str) -> Option<&'a Blob>
    ensures { option_map (λ bytes. bytes.now) result ≡ file_of files.now name.now }
{
    files
        .iter()
        .find(|file| name == file.0.as_str())
        .map(|file| &file.1)
}

/// The first `max` bytes of a file.
fn front(alloc: Global, bytes: &[u8], max: u64) -> Result<Blob, FetchError>
    ensures bytes { IfOk result (λ front. front ≡ take max bytes.now) }
    ensures memory { IfErr result (λ e. e ≡ FetchError.NoMemory) }
{
    let len = bytes.len().min(max as usize);
    match Blob::of(alloc, &bytes[..len]) {
        Ok(front) => Ok(front),
        Err(NoMemory) => Err(FetchError::NoMemory),
    }
}

impl Tree for MemTree {
    ghost use Rattle.std.specs.Prelude.{Some};
    ghost use Rattle.rl_base.specs.Memory.{told_files};

    ghost files = { λ t. Some (told_files t.files) };

    ghost blamed = { λ t. t.blamed };

    ghost faults = { λ t. t.faults };

    #[tactic(auto, using(crate::proofs::FilesLemmas::get_file))]
    fn fetch(&mut self, name: &str, max: u64) -> Result<Blob, FetchError>
        ensures front { IfOk result (λ bytes. IsFrontOf (Some (told_files self.old.files)) name.now max bytes) }
        ensures absent { IsErrOf result FetchError.Absent → IsSomeAnd (Some (told_files self.old.files)) (λ told. map.get told name.now ≡ None) }
        ensures never_falls { self.old.faults ≤ self.new.faults }
        ensures exact { result ≢ Err FetchError.NoMemory → result ≡ fetched self.old name.now max }
        ensures after { self.new ≡ after_fetch self.old name.now result }
    {
        let call = self.calls;
        self.calls = call.saturating_add(1);
        if self.failing.contains(&call) {
            let Ok(name) = Text::of(self.alloc, name) else {
                return Err(FetchError::NoMemory);
            };
            self.blamed = Some(name);
            self.faults = self.faults.saturating_add(1);
            return Err(FetchError::Failed);
        }
        match find(self.files.as_slice(), name) {
            None => Err(FetchError::Absent),
            Some(bytes) => front(self.alloc, bytes.as_bytes(), max),
        }
    }
}

/// An output in memory.
#[derive(Drop)]
pub struct MemSink {
    written: Vec<u8>,
    failing: Vec<u64>,
    calls: u64,
    faults: u64,
}

impl Model for MemSink {
    ghost use Rattle.rl_base.specs.Memory.{OutputInMemory};

    ghost Value = { OutputInMemory };

    ghost view = { λ s. record { written = s.written.items; failing = s.failing.items; calls = s.calls; faults = s.faults } };
}

impl MemSink {
    /// A sink that nothing was written to. The calls whose numbers, counted from 0, are among
    /// `failing` fail.
    pub fn new(alloc: Global, failing: Vec<u64>) -> Result<MemSink, NoMemory>
        ensures { IfOk result (λ sink. sink ≡ record { written = []; failing = failing.items; calls = 0; faults = 0 }) }
    {
        Ok(MemSink {
            written: Vec::new(alloc),
            failing,
            calls: 0,
            faults: 0,
        })
    }

    /// All that was written.
    pub fn written(&self) -> &[u8]
        ensures { result.now ≡ self.now.written }
    {
        self.written.as_slice()
    }
}

impl Sink for MemSink {
    ghost use Rattle.std.specs.Prelude.{Some};

    ghost written = { λ s. Some s.written };

    ghost faults = { λ s. s.faults };

    fn write(&mut self, bytes: &[u8]) -> Result<usize, SinkError>
        ensures never_falls { self.old.faults ≤ self.new.faults }
        ensures exact { result ≢ Err SinkError.NoMemory → result ≡ taken self.old bytes.now }
        ensures after { self.new ≡ after_write self.old bytes.now result }
    {
        let call = self.calls;
        self.calls = call.saturating_add(1);
        if self.failing.contains(&call) {
            self.faults = self.faults.saturating_add(1);
            return Err(SinkError::Failed);
        }
        match self.written.extend_from_slice(bytes) {
            Ok(()) => Ok(bytes.len()),
            Err(_) => Err(SinkError::NoMemory),
        }
    }
}
