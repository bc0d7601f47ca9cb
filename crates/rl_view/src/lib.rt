//! How a table of states stands for the history of a view: a page's or a script's, under any observers.
#![tactic(auto)]

mod counting;
pub mod uncounted;

ghost use Rattle.rl_view.specs.Laws.{Begins, Touches, Answers, PassesOver, RunsOn, RunsSame, TellsStates};

pub use counting::counts;

/// A fresh table stands for a view to which nothing happened; requests and answers lead it on.
pub fn event_laws()
    ensures begins { Begins }
    ensures touches { Touches }
    ensures answers { Answers }
    ensures passes { PassesOver }
{}

/// Runs lead it on, whether or not an observer throws, and it tells the states.
pub fn run_laws()
    ensures runs { RunsOn }
    ensures same { RunsSame }
    ensures states { TellsStates }
{}
