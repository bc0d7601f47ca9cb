//! The bytes of a connection that came and were not used up yet.
ghost use Rattle.std.specs.Prelude.{◌≡◌, ◌+◌, ◌≤◌, ◌<◌, ℕ, List, [], IfOk, OnErr, IsErrOf, length, drop};
ghost use Rattle.rl_base.specs.Causes.{Rose};
ghost use Rattle.rl_base.specs.Connection.{after_front};
ghost use Rattle.rl_http.specs.Serving.{IsAtEnd};

use rl_base::{Conn, ConnError};
use std::alloc::Global;
use std::marker::Model;

/// Bytes that came, from the first one that is not used up.
#[derive(Drop)]
pub struct Inbox {
    bytes: Vec<u8>,
    at: usize,
}

impl Model for Inbox {
    ghost use Rattle.std.specs.Prelude.{◌≤◌, ℕ, List, length, drop};

    ghost Value = { List ℕ };

    ghost view = { λ i. drop i.at i.bytes.items };

    ghost invariant = { λ i. i.at ≤ length i.bytes.items };
}

impl Inbox {
    pub fn new(alloc: Global) -> Inbox
        ensures { result ≡ [] }
    {
        Inbox {
            bytes: Vec::new(alloc),
            at: 0,
        }
    }

    /// The bytes that are not used up.
    pub fn rest(&self) -> &[u8]
        ensures { result.now ≡ self.now }
    {
        &self.bytes[self.at..]
    }

    /// Uses up so many of them.
    pub fn pass(&mut self, count: usize)
        requires { count ≤ length self.old }
        ensures { self.new ≡ drop count self.old }
    {
        self.at += count;
    }

    /// Lets go of the bytes that are used up, so that no more room is taken than for what is not.
    fn settle(&mut self)
        ensures { self.new ≡ self.old }
    {
        self.bytes.drain(..self.at);
        self.at = 0;
    }

    /// Reads more bytes, by way of a buffer, and answers how many; none of them means the end.
    pub fn fetch<C: Conn>(&mut self, conn: &mut C, chunk: &mut [u8]) -> Result<usize, ConnError>
        requires { 0 < length chunk.old }
        ensures took { after_front self.old (C.left conn.old) ≡ after_front self.new (C.left conn.new) }
        ensures none { IfOk result (λ count. count ≡ 0 → (self.new ≡ self.old) × IsAtEnd (C.left conn.new)) }
        ensures failed { IsErrOf result ConnError.Failed → Rose (C.faults conn.old) (C.faults conn.new) }
        ensures never_falls { C.faults conn.old ≤ C.faults conn.new }
        ensures written_stays { C.written conn.new ≡ C.written conn.old }
        ensures room { length chunk.new ≡ length chunk.old }
    {
        self.settle();
        if self.bytes.reserve(chunk.len()).is_err() {
            return Err(ConnError::NoMemory);
        }
        let count = conn.read(chunk)?;
        match self.bytes.extend_from_slice(&chunk[..count]) {
            Ok(()) => Ok(count),
            Err(_) => unreachable!(),
        }
    }
}
