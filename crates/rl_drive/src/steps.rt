//! All steps of a script.
ghost use Rattle.std.specs.Prelude.{◌≡◌, ℕ, List, IfOk, reverse};
ghost use Rattle.rl_names.specs.declared.name.Key.{Key};
ghost use Rattle.rl_script_spec.specs.Output.{all_ready, events_of, output_of};
ghost use Rattle.rl_script_spec.specs.Unready.{unready_of};
ghost use Rattle.rl_view.specs.Heard.{executions, watched};
ghost use Rattle.rl_drive.specs.Hearing.{ArePlayed};

use crate::player::Player;
use rl_base::Hears;
use rl_names::NoMemory;
use rl_registry::Registry;
use rl_script_spec::{Step, Unready};
use std::alloc::Global;

/// What a script came to.
#[derive(Drop)]
pub struct Driven {
    /// The replies and the summary.
    pub text: Vec<u8>,
    /// No request was refused, no name was dropped, and each name that was requested is ready in the end.
    pub ready: bool,
    /// Why not, where that does not hold.
    pub unready: Option<Unready>,
}

/// Plays the steps, in order, on a view of the registry, whose observers are told of each run before it counts: a row threw
/// where one of them throws. Where memory runs out they were told of the first runs.
pub fn play<O: Hears>(
    alloc: Global,
    registry: Registry,
    steps: &[Step],
    observers: &mut O,
) -> Result<Driven, NoMemory>
    ensures text { IfOk result (λ driven. driven.text.items ≡ output_of (watched (O.says observers.old) registry) (reverse steps.now)) }
    ensures ready { IfOk result (λ driven. driven.ready ≡ all_ready (watched (O.says observers.old) registry) (reverse steps.now)) }
    ensures unready { IfOk result (λ driven. driven.unready ≡ unready_of (watched (O.says observers.old) registry) (reverse steps.now)) }
    ensures heard { ArePlayed result (executions (watched (O.says observers.old) registry) (events_of registry (reverse steps.now)))
        (O.told observers.old) (O.told observers.new) }
    ensures fixed { (k : Key) (s : List ℕ) → O.says observers.new k s ≡ O.says observers.old k s }
    ensures same { (first : O) → O.same first observers.old → O.same first observers.new }
{
    let mut player = Player::open(alloc, registry)?;
    let mut text = Vec::new(alloc);
    for step in steps {
        player.step(step, observers, &mut text)?;
    }
    player.summary(&mut text)?;
    let unready = player.unready(steps)?;
    Ok(Driven {
        text,
        ready: unready.is_none(),
        unready,
    })
}
