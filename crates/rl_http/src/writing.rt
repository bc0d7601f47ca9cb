//! Writes a whole text to a connection.
ghost use Rattle.std.specs.Prelude.{◌≡◌, ◌≤◌, OnOk, OnErr, IsErrOf};
ghost use Rattle.rl_base.specs.Causes.{Rose};
ghost use Rattle.rl_base.specs.Written.{appended};
ghost use Rattle.rl_http.specs.Sent.{AppendsFront};

use rl_base::{Conn, ConnError};

/// Writes a whole text, piece by piece where the connection takes less than it is given.
pub fn write_all<C: Conn>(conn: &mut C, text: &[u8]) -> Result<(), ConnError>
    ensures whole { OnOk result (C.written conn.new ≡ appended (C.written conn.old) text.now) }
    ensures front { OnErr result (AppendsFront (C.written conn.old) text.now (C.written conn.new)) }
    ensures failed { IsErrOf result ConnError.Failed → Rose (C.faults conn.old) (C.faults conn.new) }
    ensures never_falls { C.faults conn.old ≤ C.faults conn.new }
    ensures left_stays { C.left conn.new ≡ C.left conn.old }
{
    let mut at = 0usize;
    while at < text.len() {
        let count = conn.write(&text[at..])?;
        if count == 0 {
            return Err(ConnError::Failed);
        }
        at += count;
    }
    Ok(())
}
