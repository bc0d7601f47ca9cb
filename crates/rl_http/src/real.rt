//! The connection over the system's TCP.
ghost use Rattle.std.specs.Prelude.{◌≡◌};

use rl_base::{Conn, ConnError};
use std::io::{Read, Write};
use std::net::TcpStream;

/// A connection over the system's TCP. It tells neither what is to come nor what was written; a call that takes
/// longer than the stream's limits of time fails.
#[derive(Drop)]
pub struct TcpConn {
    stream: TcpStream,
    faults: u64,
}

impl TcpConn {
    /// The connection over a stream, with no fault yet.
    pub fn over(stream: TcpStream) -> TcpConn
        ensures { ⟦<TcpConn as Conn>⟧.faults result ≡ 0 }
    {
        TcpConn { stream, faults: 0 }
    }

    /// The stream, once the connection is served.
    pub fn into_stream(self) -> TcpStream {
        self.stream
    }
}

impl Conn for TcpConn {
    ghost use Rattle.std.specs.Prelude.{None};

    ghost left = { λ _. None };

    ghost written = { λ _. None };

    ghost faults = { λ c. c.faults };

    fn read(&mut self, into: &mut [u8]) -> Result<usize, ConnError> {
        match self.stream.read(into) {
            Ok(count) => Ok(count),
            Err(_) => {
                self.faults = self.faults.saturating_add(1);
                Err(ConnError::Failed)
            }
        }
    }

    fn write(&mut self, bytes: &[u8]) -> Result<usize, ConnError> {
        match self.stream.write(bytes) {
            Ok(0) if !bytes.is_empty() => {
                self.faults = self.faults.saturating_add(1);
                Ok(0)
            }
            Ok(count) => Ok(count),
            Err(_) => {
                self.faults = self.faults.saturating_add(1);
                Err(ConnError::Failed)
            }
        }
    }
}
