//! Entries in memory.
ghost use Rattle.std.specs.Prelude.{◌≡◌, ◌≢◌, ◌≤◌, Some, Err, IfOk, IfErr};
ghost use Rattle.rl_keeper.specs.Memory.{appended, after_append, read_from, after_read};

use crate::keeper::{Keeper, KeeperError};
use rl_names::NoMemory;
use rl_pages::Entry;
use std::alloc::Global;
use std::marker::Model;

/// Entries in memory, which are told. Calls that are chosen beforehand fail.
#[derive(Drop)]
pub struct MemKeeper {
    alloc: Global,
    entries: Vec<Entry>,

    /// The numbers of the calls that fail, counted from 0 over `append` and `read_all` together.
    failing: Vec<u64>,

    /// How many calls there were.
    calls: u64,

    faults: u64,
}

impl Model for MemKeeper {
    ghost use Rattle.rl_keeper.specs.Memory.{EntriesInMemory};

    ghost Value = { EntriesInMemory };

    ghost view = { λ k. record { entries = k.entries.items; failing = k.failing.items; calls = k.calls; faults = k.faults } };
}

fn copies(alloc: Global, entries: &[Entry]) -> Result<Vec<Entry>, NoMemory>
    ensures { IfOk result (λ v. v.items ≡ entries.now) }
{
    let mut copies = Vec::with_capacity(alloc, entries.len())?;
    'entries: for entry in entries {
        copies.push(entry.copy()?)?;
    }
    Ok(copies)
}

impl MemKeeper {
    /// A keeper of these entries. The calls whose numbers, counted from 0, are among `failing` fail.
    pub fn new(alloc: Global, entries: Vec<Entry>, failing: Vec<u64>) -> Result<MemKeeper, NoMemory>
        ensures { IfOk result (λ keeper. keeper ≡ record { entries = entries.items; failing = failing.items; calls = 0; faults = 0 }) }
    {
        Ok(MemKeeper {
            alloc,
            entries,
            failing,
            calls: 0,
            faults: 0,
        })
    }
}

impl Keeper for MemKeeper {
    ghost use Rattle.std.specs.Prelude.{Some};

    ghost entries = { λ k. Some k.entries };

    ghost faults = { λ k. k.faults };

    fn append(&mut self, number: u64, entry: &Entry) -> Result<(), KeeperError>
        ensures never_falls { self.old.faults ≤ self.new.faults }
        ensures exact { result ≢ Err KeeperError.NoMemory → result ≡ appended self.old }
        ensures after { self.new ≡ after_append self.old entry.now result }
    {
        let _number = number;
        let call = self.calls;
        self.calls = call.saturating_add(1);
        if self.failing.contains(&call) {
            self.faults = self.faults.saturating_add(1);
            return Err(KeeperError::Failed);
        }
        let Ok(copy) = entry.copy() else {
            return Err(KeeperError::NoMemory);
        };
        match self.entries.push(copy) {
            Ok(()) => Ok(()),
            Err(_) => Err(KeeperError::NoMemory),
        }
    }

    fn read_all(&mut self) -> Result<Vec<Entry>, KeeperError>
        ensures never_falls { self.old.faults ≤ self.new.faults }
        ensures all { IfOk result (λ read. read.items ≡ self.old.entries) }
        ensures exact { IfErr result (λ e. e ≢ KeeperError.NoMemory → read_from self.old ≡ Some e) }
        ensures after { self.new ≡ after_read self.old }
    {
        let call = self.calls;
        self.calls = call.saturating_add(1);
        if self.failing.contains(&call) {
            self.faults = self.faults.saturating_add(1);
            return Err(KeeperError::Failed);
        }
        Ok(copies(self.alloc, self.entries.as_slice())?)
    }

    fn fault_count(&self) -> u64 {
        self.faults
    }
}
