//! A whole script, from its bytes.
ghost use Rattle.std.specs.Prelude.{◌≡◌, ℕ, List, IfOk};
ghost use Rattle.rl_names.specs.declared.name.Key.{Key};
ghost use Rattle.rl_script_spec.specs.Script.{verdict_of};
ghost use Rattle.rl_script_spec.specs.Unready.{unready_in};
ghost use Rattle.rl_view.specs.Heard.{throws_by};
ghost use Rattle.rl_drive.specs.Drives.{Concludes};
ghost use Rattle.rl_drive.specs.Hearing.{AreHeard, executions_in};

use crate::steps::{Driven, play};
use rl_base::Hears;
use rl_names::{Counted, NoMemory, Rule};
use rl_registry::{Registry, RegistryError};
use rl_script::{Script, ScriptError, read_script};
use std::alloc::Global;
use std::str;
use thiserror::Error;

/// Why a script came to nothing.
#[derive(Clone, Copy, Debug, PartialEq, Eq, Error)]
pub enum DriveError {
    /// The first fault of the script, by the number of the rule that is broken: a line that is not of the grammar, a row or
    /// features after a step, bytes that are not UTF-8, or rows that have one name. Lines are counted from 1, and 0 stands
    /// for the script as a whole.
    #[error("line {line} is bad ({why})")]
    BadInput { line: u32, why: u32 },
    /// More steps or rows than a script may have, or more dependencies than a row may.
    #[error("too many {what:?}: {count}")]
    TooLarge { what: Counted, count: u64 },
    #[error("out of memory")]
    NoMemory,
}

impl From<NoMemory> for DriveError {
    ghost use Rattle.std.specs.Prelude.{◌≡◌};
    ghost use Rattle.rl_drive.specs.declared.script.DriveError.TheVariants.{NoMemory};

    ghost from_gives = { λ _ e. e ≡ NoMemory };

    fn from(_error: NoMemory) -> Self {
        DriveError::NoMemory
    }
}

impl From<ScriptError> for DriveError {
    ghost use Rattle.std.specs.Prelude.{◌≡◌};
    ghost use Rattle.rl_drive.specs.Errors.{of_script};

    ghost from_gives = { λ error e. e ≡ of_script error };

    fn from(error: ScriptError) -> Self {
        match error {
            ScriptError::BadLine { line, why } => DriveError::BadInput { line, why },
            ScriptError::TooMany { count } => DriveError::TooLarge {
                what: Counted::Steps,
                count,
            },
            ScriptError::NoMemory => DriveError::NoMemory,
        }
    }
}

impl From<RegistryError> for DriveError {
    ghost use Rattle.std.specs.Prelude.{◌≡◌};
    ghost use Rattle.rl_drive.specs.Errors.{of_registry};

    ghost from_gives = { λ error e. e ≡ of_registry error };

    fn from(error: RegistryError) -> Self {
        match error {
            RegistryError::TooMany { what, count } => DriveError::TooLarge { what, count },
            RegistryError::Duplicate { .. } => DriveError::BadInput {
                line: 0,
                why: Rule::Duplicate.number(),
            },
            RegistryError::BadIndex { .. } => DriveError::BadInput {
                line: 0,
                why: Rule::BadIndex.number(),
            },
            RegistryError::NoMemory => DriveError::NoMemory,
        }
    }
}

/// Reads a script and plays its steps on a view of its rows. The observers are told of each execution, in their order: each
/// makes room for it, and then each is told, also after one threw. A row threw where one of them throws, which they do as
/// they did when the call began. Each of them then heard the executions of the script, after what it had heard; where
/// memory ran out a front of these; and of a script that is refused nothing. Where not everything was served, it is told why.
pub fn drive<O: Hears>(alloc: Global, bytes: &[u8], observers: &mut O) -> Result<Driven, DriveError>
    ensures verdict { Concludes result (verdict_of (throws_by (O.says observers.old)) bytes.now) }
    ensures unready { IfOk result (λ driven. driven.unready ≡ unready_in (throws_by (O.says observers.old)) bytes.now) }
    ensures heard { AreHeard result (executions_in (throws_by (O.says observers.old)) bytes.now) (O.told observers.old) (O.told observers.new) }
    ensures fixed { (k : Key) (s : List ℕ) → O.says observers.new k s ≡ O.says observers.old k s }
    ensures same { (first : O) → O.same first observers.old → O.same first observers.new }
{
    let Ok(text) = str::from_utf8(bytes) else {
        return Err(DriveError::BadInput {
            line: 0,
            why: Rule::NotUtf8.number(),
        });
    };
    let Script {
        rows,
        features,
        steps,
    } = read_script(alloc, text)?;
    let registry = Registry::read(alloc, rows, features.as_slice())?;
    let driven = play(alloc, registry, steps.as_slice(), observers)?;
    Ok(driven)
}
