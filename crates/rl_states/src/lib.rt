//! The states of rows, and which row runs next.
#![tactic(auto)]

ghost use Rattle.rl_states.specs.Bound.{StepsAreBounded};

mod cell;
mod cells;
mod counted;
mod spoiled;
mod standing;
pub mod table;
#[cfg(test)]
mod tests;

pub use counted::Steps;
pub use rl_view_spec::{Outcome, Phase};
pub use table::Table;

/// Over a whole view the calls of a table make at most 64 steps for each row, 8 for each dependency, 160 for each call
/// that counts, and 8 for each row that is given to `touch`.
pub fn step_laws()
    ensures bounded { StepsAreBounded }
{}
