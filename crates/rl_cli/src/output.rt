//! The output, written whole.
ghost use Rattle.std.specs.Prelude.{◌≡◌, ◌≤◌, OnOk, OnErr, IsErrOf};
ghost use Rattle.rl_base.specs.Causes.{Rose};
ghost use Rattle.rl_base.specs.Written.{appended};
ghost use Rattle.rl_cli.specs.Written.{AppendsFront};

use rl_base::{Sink, SinkError};

/// Writes a whole text, piece by piece where the sink takes less than it is given.
pub fn write_all<O: Sink>(out: &mut O, text: &[u8]) -> Result<(), SinkError>
    ensures whole { OnOk result (O.written out.new ≡ appended (O.written out.old) text.now) }
    ensures front { OnErr result (AppendsFront (O.written out.old) text.now (O.written out.new)) }
    ensures failed { IsErrOf result SinkError.Failed → Rose (O.faults out.old) (O.faults out.new) }
    ensures never_falls { O.faults out.old ≤ O.faults out.new }
{
    let mut at = 0usize;
    while at < text.len() {
        let count = out.write(&text[at..])?;
        if count == 0 {
            return Err(SinkError::Failed);
        }
        at += count;
    }
    Ok(())
}
