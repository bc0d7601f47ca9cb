//! What rows were given.
ghost use Rattle.std.specs.Prelude.{◌≡◌, IfOk, None, map};
ghost use Rattle.rl_view_spec.specs.Progress.{HasDistinctNames};
ghost use Rattle.rl_drive.specs.Given.{execution_in};

use rl_names::{Key, NoMemory, Text};
use rl_registry::Registry;
use std::alloc::Global;

/// The implementation that a row was given: a script, under its key.
#[derive(Clone, Copy)]
pub struct Given<'a> {
    pub key: &'a Key,
    pub script: &'a Text,
}

/// For each row that nothing was given.
pub fn nothing_given<'a>(
    alloc: Global,
    registry: &Registry,
) -> Result<Vec<Option<Given<'a>>>, NoMemory>
    ensures given { IfOk result (λ given. map execution_in given.items ≡ map (λ row. None) registry.now.rows) }
    ensures distinct { HasDistinctNames registry.now }
{
    let given = vec![in alloc; None; registry.count() as usize]?;
    Ok(given)
}
