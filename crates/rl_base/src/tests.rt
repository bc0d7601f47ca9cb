//! What the real forms hand on of a reader and a writer that go byte by byte, what a recorder is told, and a
//! connection in memory.

use crate::conn::{Conn, ConnError};
use crate::fault::{Faults, Reason};
use crate::mem_conn::MemConn;
use crate::observer::Observer;
use crate::real::{hand, read_front};
use crate::recorder::Recorder;
use crate::sink::SinkError;
use rl_names::{Blob, Key, Name};
use std::io;
use std::io::{ErrorKind, Read, Write};
use std::test::Fail;

/// Takes one byte a call, and fails once it holds three.
#[derive(Drop)]
struct Slow {
    taken: Vec<u8>,
}

impl Write for Slow {
    fn write(&mut self, bytes: &[u8]) -> io::Result<usize> {
        match bytes.first() {
            Some(_) if self.taken.len() >= 3 => Err(ErrorKind::StorageFull.into()),
            Some(byte) => {
                self.taken.push(*byte)?;
                Ok(1)
            }
            None => Ok(0),
        }
    }

    fn flush(&mut self) -> io::Result<()> {
        Ok(())
    }
}

/// Gives one byte a call.
#[derive(Drop)]
struct Drip<'a> {
    left: &'a [u8],
}

impl Read for Drip<'_> {
    fn read(&mut self, into: &mut [u8]) -> io::Result<usize> {
        let (Some(byte), Some(place)) = (self.left.first(), into.first_mut()) else {
            return Ok(0);
        };
        *place = *byte;
        self.left = &self.left[1..];
        Ok(1)
    }
}

#[test]
fn counts_are_those_of_the_writer(rt: HostRuntime) -> Result<(), Fail> {
    let mut faults = Faults::none();
    let mut writer = Slow {
        taken: Vec::new(rt.alloc()),
    };
    assert_eq!(rt; hand(&mut writer, b"abc", &mut faults), Ok(1));
    assert_eq!(rt; hand(&mut writer, b"bc", &mut faults), Ok(1));
    assert_eq!(rt; hand(&mut writer, b"", &mut faults), Ok(0));
    assert_eq!(rt; hand(&mut writer, b"c", &mut faults), Ok(1));
    assert_eq!(rt; (faults.count, faults.reason), (0, None));
    assert_eq!(rt;
        hand(&mut writer, b"d", &mut faults),
        Err(SinkError::Failed)
    );
    assert_eq!(rt; (faults.count, faults.reason), (1, Some(Reason::NoSpace)));
    assert_eq!(rt; writer.taken.as_slice(), b"abc".as_slice());
    Ok(())
}

#[test]
fn bytes_are_those_of_the_reader(rt: HostRuntime) -> Result<(), Fail> {
    let bytes = read_front(Drip { left: b"abcd" }, rt.alloc(), 3)?;
    assert_eq!(rt; bytes.as_slice(), b"abc".as_slice());
    let bytes = read_front(Drip { left: b"abcd" }, rt.alloc(), 5)?;
    assert_eq!(rt; bytes.as_slice(), b"abcd".as_slice());
    Ok(())
}

/// It throws for the name that it was given, and counts what it was told.
#[test]
fn a_recorder_is_told(rt: HostRuntime) -> Result<(), Fail> {
    let alloc = rt.alloc();
    let names = vec![in alloc; Name::read(alloc, b"B")?]?;
    let key = Key::split(alloc, b"B@bbbbb")?;
    let mut recorder = Recorder::new(alloc, names);
    recorder.make_room(&key, b"b()")?;
    assert!(rt; recorder.execute(&key, b"b()"));
    assert_eq!(rt; recorder.count(), 1);
    Ok(())
}

/// It gives and takes at most so many bytes a call, and a failing call leaves both sides.
#[test]
fn a_connection_in_pieces(rt: HostRuntime) -> Result<(), Fail> {
    let alloc = rt.alloc();
    let input = Blob::of(alloc, b"abc")?;
    let failing = vec![in alloc; 1u64]?;
    let mut conn = MemConn::in_pieces(alloc, input, 2, failing)?;
    let mut room = [0u8; 4];
    assert_eq!(rt; conn.read(&mut room), Ok(2));
    assert_eq!(rt; &room[..2], b"ab".as_slice());
    assert_eq!(rt; conn.read(&mut room), Err(ConnError::Failed));
    assert_eq!(rt; conn.read(&mut room), Ok(1));
    assert_eq!(rt; conn.read(&mut room), Ok(0));
    assert_eq!(rt; conn.write(b"xyz"), Ok(2));
    assert_eq!(rt; conn.written(), b"xy".as_slice());
    Ok(())
}
