//! What executes for a row.
ghost use Rattle.std.specs.Prelude.{IfOk, IsTrue, Some};
ghost use Rattle.rl_view_spec.specs.View.{is_implementation};
ghost use Rattle.rl_book_spec.specs.Opening.{answer_of};
ghost use Rattle.rl_book.specs.Calls.{Executing};

use crate::answer::Run;
use rl_book_spec::Origin;
use rl_names::{Key, NoMemory};
use rl_wire::Part;

/// The execution of a row that was answered with this part, an implementation, before any observer was told of it.
pub(crate) fn run_with(row: u32, part: &Part, origin: Origin) -> Result<Run, NoMemory>
    requires { IsTrue (is_implementation (Some (answer_of part.now))) }
    ensures { IfOk result (λ run. Executing row part.now origin run) }
{
    match part {
        Part::Impl {
            name,
            version,
            script,
            ..
        } => Ok(Run {
            row,
            key: Key {
                name: name.copy()?,
                version: *version,
            },
            script: script.copy()?,
            threw: false,
            origin,
        }),
        Part::State { .. } => unreachable!(),
    }
}
