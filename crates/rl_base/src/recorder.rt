//! The observer that keeps what it is told.
ghost use Rattle.std.specs.Prelude.{◌≡◌, ◌-◌, ◌^◌, ◌<◌, [], None, Some, IfOk, IfSome, length, min, option_map, slice_get, bytes_eq};
ghost use Rattle.rl_base.specs.Recorded.{throws_in};

use crate::observer::Observer;
use rl_names::{Blob, Key, Name, NoMemory};
use std::alloc::Global;
use std::marker::Model;

/// Keeps what it is told, and throws for the modules of some names.
#[derive(Drop)]
pub struct Recorder {
    alloc: Global,
    names: Vec<Name>,
    ran: Vec<(Key, Blob)>,
    room: Option<(Key, Blob)>,
}

impl Model for Recorder {
    ghost use Rattle.std.specs.Prelude.{IsSome, ◌<◌, vec_len, vec_capacity};
    ghost use Rattle.rl_base.specs.Recorded.{Recorded};

    ghost Value = { Recorded };

    ghost view = { λ r. record { names = r.names.items; ran = r.ran.items; room = r.room } };

    ghost invariant = { λ r. IsSome r.room → vec_len r.ran < vec_capacity r.ran };
}

impl Recorder {
    /// One that was told nothing, and throws for these names.
    pub fn new(alloc: Global, throws: Vec<Name>) -> Recorder
        ensures { result ≡ record { names = throws.items; ran = []; room = None } }
    {
        Recorder {
            alloc,
            names: throws,
            ran: Vec::new(alloc),
            room: None,
        }
    }

    /// How often it was told of an execution. A count above 2^32 - 1 is given as 2^32 - 1.
    pub fn count(&self) -> u32
        ensures { result ≡ min (length self.now.ran) (2 ^ 32 - 1) }
    {
        self.ran.len().min(u32::MAX as usize) as u32
    }

    /// The key of an execution, counted from 0.
    pub fn key_at(&self, at: u32) -> &Key
        requires { at < length self.now.ran }
        ensures { IfSome (slice_get self.now.ran at) (λ execution. result.now ≡ execution.0) }
    {
        &self.ran[at as usize].0
    }
}

/// A copy of a key.
fn copy_key(key: &Key) -> Result<Key, NoMemory>
    ensures { IfOk result (λ copy. copy ≡ key.now) }
{
    let name = key.name.copy()?;
    Ok(Key {
        name,
        version: key.version,
    })
}

impl Observer for Recorder {
    ghost ran = { λ r. r.ran };

    ghost throws = { λ r k s. throws_in r.names k.name };

    ghost room_for = { λ r. r.room };

    fn make_room(&mut self, key: &Key, script: &[u8]) -> Result<(), NoMemory> {
        let copy = copy_key(key)?;
        let script = Blob::of(self.alloc, script)?;
        self.ran.reserve(1)?;
        self.room = Some((copy, script));
        Ok(())
    }

    fn execute(&mut self, key: &Key, _script: &[u8]) -> bool {
        let threw = throws(self.names.as_slice(), &key.name);
        if let Some(execution) = self.room.take() {
            self.ran.push_reserved(execution);
        }
        threw
    }

    fn recorder(&self) -> Option<&Recorder>
        ensures ran { IfSome result (λ recorder. recorder.now.ran ≡ self.now.ran) }
        ensures itself { option_map (λ recorder. recorder.now) result ≡ Some self.now }
    {
        Some(self)
    }
}

/// Whether a name is one of these.
fn throws(names: &[Name], name: &Name) -> bool
    ensures { result ≡ throws_in names.now name.now }
{
    names.iter().any(|other| is_same(other, name))
}

/// Whether two names are one.
fn is_same(one: &Name, other: &Name) -> bool
    ensures { result ≡ bytes_eq one.now other.now }
{
    one.as_bytes() == other.as_bytes()
}
