//! Answers that are collected before they are sent.
ghost use Rattle.std.specs.Prelude.{◌≡◌, ◌++◌, ◌≤◌, [], OnOk, OnErr, IsErrOf};
ghost use Rattle.rl_base.specs.Causes.{Rose};
ghost use Rattle.rl_base.specs.Written.{appended};
ghost use Rattle.rl_http.specs.Sent.{AppendsFront, Gives};

use crate::writing::write_all;
use rl_base::{Conn, ConnError};

/// From so many bytes on what was collected is sent.
const COLLECTED: usize = 65_536;

/// Sends what was collected.
pub fn flush<C: Conn>(conn: &mut C, out: &mut Vec<u8>) -> Result<(), ConnError>
    ensures whole { OnOk result (C.written conn.new ≡ appended (C.written conn.old) out.old.items) }
    ensures empty { OnOk result (out.new.items ≡ []) }
    ensures front { OnErr result (AppendsFront (C.written conn.old) out.old.items (C.written conn.new)) }
    ensures failed { IsErrOf result ConnError.Failed → Rose (C.faults conn.old) (C.faults conn.new) }
    ensures never_falls { C.faults conn.old ≤ C.faults conn.new }
    ensures left_stays { C.left conn.new ≡ C.left conn.old }
{
    write_all(conn, out.as_slice())?;
    out.clear();
    Ok(())
}

/// Gives a text to be sent behind what was collected: a short one is collected too, and before a longer
/// one all is sent, and then the text itself.
pub fn give<C: Conn>(conn: &mut C, out: &mut Vec<u8>, text: &[u8]) -> Result<(), ConnError>
    ensures whole { OnOk result (Gives (C.written conn.old) out.old.items text.now (C.written conn.new) out.new.items) }
    ensures front { OnErr result (AppendsFront (C.written conn.old) (out.old.items ++ text.now) (C.written conn.new)) }
    ensures failed { IsErrOf result ConnError.Failed → Rose (C.faults conn.old) (C.faults conn.new) }
    ensures never_falls { C.faults conn.old ≤ C.faults conn.new }
    ensures left_stays { C.left conn.new ≡ C.left conn.old }
{
    if out.len().saturating_add(text.len()) < COLLECTED {
        return match out.extend_from_slice(text) {
            Ok(()) => Ok(()),
            Err(_) => Err(ConnError::NoMemory),
        };
    }
    flush(conn, out)?;
    write_all(conn, text)
}
