//! The connection in memory, which tells what comes and what was written.
ghost use Rattle.std.specs.Prelude.{◌≡◌, ◌≢◌, ◌≤◌, ◌<◌, ◌^◌, ◌-◌, ◌++◌, [], IfOk, IfSome, Err, length, take, drop, Some};
ghost use Rattle.rl_base.specs.Connection.{after_front, came, after_read, sent, after_sent};

use crate::conn::{Conn, ConnError};
use rl_names::{Blob, NoMemory};
use std::alloc::Global;
use std::marker::Model;

/// A connection in memory.
#[derive(Drop)]
pub struct MemConn {
    input: Blob,
    at: usize,
    written: Vec<u8>,
    most: usize,
    failing: Vec<u64>,
    calls: u64,
    faults: u64,
}

impl Model for MemConn {
    ghost use Rattle.std.specs.Prelude.{◌≤◌, ◌<◌, drop, length};
    ghost use Rattle.rl_base.specs.Connection.{ConnInMemory};

    ghost Value = { ConnInMemory };

    ghost view = { λ c. record { left = drop c.at c.input; written = c.written.items; most = c.most; failing = c.failing.items; calls = c.calls; faults = c.faults } };

    ghost invariant = { λ c. (c.at ≤ length c.input) × (0 < c.most) };
}

impl MemConn {
    /// A connection over which this input comes. The calls whose numbers, counted from 0, are among
    /// `failing` fail.
    pub fn new(alloc: Global, input: Blob, failing: Vec<u64>) -> Result<MemConn, NoMemory>
        ensures { IfOk result (λ conn. conn ≡ record { left = input; written = []; most = 2 ^ 64 - 1; failing = failing.items; calls = 0; faults = 0 }) }
    {
        MemConn::in_pieces(alloc, input, usize::MAX, failing)
    }

    /// The same, where each call reads or takes at most so many bytes.
    pub fn in_pieces(
        alloc: Global,
        input: Blob,
        most: usize,
        failing: Vec<u64>,
    ) -> Result<MemConn, NoMemory>
        requires { 0 < most }
        ensures { IfOk result (λ conn. conn ≡ record { left = input; written = []; most = most; failing = failing.items; calls = 0; faults = 0 }) }
    {
        Ok(MemConn {
            input,
            at: 0,
            written: Vec::new(alloc),
            most,
            failing,
            calls: 0,
            faults: 0,
        })
    }

    /// All that was written.
    pub fn written(&self) -> &[u8]
        ensures { result.now ≡ self.now.written }
    {
        self.written.as_slice()
    }
}

/// Copies the first bytes of what is left to the front of a buffer.
fn fill(into: &mut [u8], left: &[u8], count: usize)
    requires room { count ≤ length into.old }
    requires there { count ≤ length left.now }
    ensures front { left.now ≡ take count into.new ++ drop count left.now }
    ensures len { length into.new ≡ length into.old }
{
    into[..count].copy_from_slice(&left[..count]);
}

impl Conn for MemConn {
    ghost use Rattle.std.specs.Prelude.{Some};

    ghost left = { λ c. Some c.left };

    ghost written = { λ c. Some c.written };

    ghost faults = { λ c. c.faults };

    fn read(&mut self, into: &mut [u8]) -> Result<usize, ConnError>
        ensures comes { IfOk result (λ count. Some self.old.left ≡ after_front (take count into.new) (Some self.new.left)) }
        ensures most { IfOk result (λ count. count ≤ length into.new) }
        ensures end { IfOk result (λ count. count ≡ 0 → into.old ≢ [] → IfSome (Some self.old.left) (λ bytes. bytes ≡ [])) }
        ensures never_falls { self.old.faults ≤ self.new.faults }
        ensures exact { result ≢ Err ConnError.NoMemory → result ≡ came self.old (length into.old) }
        ensures after { self.new ≡ after_read self.old result }
    {
        let call = self.calls;
        self.calls = call.saturating_add(1);
        if self.failing.contains(&call) {
            self.faults = self.faults.saturating_add(1);
            return Err(ConnError::Failed);
        }
        let left = &self.input.as_bytes()[self.at..];
        let count = into.len().min(self.most).min(left.len());
        fill(into, left, count);
        self.at += count;
        Ok(count)
    }

    fn write(&mut self, bytes: &[u8]) -> Result<usize, ConnError>
        ensures nothing { IfOk result (λ count. count ≡ 0 → bytes.now ≢ [] → self.old.faults ≢ self.old.faults) }
        ensures never_falls { self.old.faults ≤ self.new.faults }
        ensures exact { result ≢ Err ConnError.NoMemory → result ≡ sent self.old (length bytes.now) }
        ensures after { self.new ≡ after_sent self.old bytes.now result }
    {
        let call = self.calls;
        self.calls = call.saturating_add(1);
        if self.failing.contains(&call) {
            self.faults = self.faults.saturating_add(1);
            return Err(ConnError::Failed);
        }
        let count = bytes.len().min(self.most);
        match self.written.extend_from_slice(&bytes[..count]) {
            Ok(()) => Ok(count),
            Err(_) => Err(ConnError::NoMemory),
        }
    }
}
