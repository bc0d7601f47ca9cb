//! What a client view is, as definitions that the crates above cite.
#![tactic(auto)]

ghost use Rattle.std.specs.Prelude.{◌↔◌, IsTrue};
ghost use Rattle.rl_view_spec.specs.Closure.{Registered, Text, InClosure, in_closure};
ghost use Rattle.rl_view_spec.specs.Reach.{EdgesLead, ClosedHasClosure, RankedIsAcyclic};
ghost use Rattle.rl_view_spec.specs.Steps.{RunsStay, TouchesRequested, AnswersOnce, RunsOneMore, LoopEnds, LoopIsFront, LoopIsShort};
ghost use Rattle.rl_view_spec.specs.Laws.{DirectIsClosure, RunsDirectly, DoneIsClosure, RanDirectlyStays, ViewsRanDirectly, DirectByDeps, RunOnceAndAfter};
ghost use Rattle.rl_view_spec.specs.Laws.{RunsOut, LogGrows, LogHoldsWhatBelongs, ProgressTellsStates, HeadlineHolds, AnsweredIsDecided, AcceptedWhereResolved};
ghost use Rattle.rl_view_spec.specs.Laws.{UnknownIsLeast, CycleIsLeast};
ghost use Rattle.rl_view_spec.specs.Order.{SameStates, SameRows, OnlyRunsThrow};
ghost use Rattle.rl_view_spec.specs.Versions.{AlikeButForVersions, AlikeProgress};

/// The state of a row.
#[derive(Clone, Copy, Debug, PartialEq, Eq)]
pub enum Phase {
    Registered,
    Loading,
    Loaded,
    Executing,
    Ready,
    Error,
    Missing,
}

/// What a row was answered with: its first outcome.
#[derive(Clone, Copy, Debug, PartialEq, Eq)]
pub enum Outcome {
    Impl,
    Missing,
    Error,
    GivenUp,
}

/// The closure is what chains of dependencies lead to.
pub fn closure_by_chains()
    ensures { (r : Registered) (name member : Text) → IsTrue (in_closure r name member) ↔ InClosure r name member }
{}

/// A row's direct dependencies are done exactly where all else of its closure is, so they tell what may run.
pub fn direct_is_closure()
    ensures closure { DirectIsClosure }
    ensures runs { RunsDirectly }
    ensures done { DoneIsClosure }
    ensures stays { RanDirectlyStays }
    ensures views { ViewsRanDirectly }
    ensures deps { DirectByDeps }
{}

/// No row runs twice, each runs after what it needs, and after each event all that may run did.
pub fn log_laws()
    ensures after { RunOnceAndAfter }
    ensures out { RunsOut }
    ensures grows { LogGrows }
    ensures holds { LogHoldsWhatBelongs }
{}

/// The table tells the states; a touched name is ready exactly where all that it needs is good; and once each touched
/// row is answered it is ready, in error or missing.
pub fn state_laws()
    ensures states { ProgressTellsStates }
    ensures headline { HeadlineHolds }
    ensures decided { AnsweredIsDecided }
{}

/// Versions of rows change nothing that requests and progress look at.
pub fn version_laws()
    ensures alike { AlikeButForVersions }
    ensures progress { AlikeProgress }
{}

/// A request is refused exactly where a name of it does not resolve, with the least name to blame.
pub fn refusal_laws()
    ensures accepted { AcceptedWhereResolved }
    ensures unknown { UnknownIsLeast }
    ensures cycle { CycleIsLeast }
{}

/// With the same outcomes every order of events gives the same states and the same executed rows.
pub fn order_laws()
    ensures states { SameStates }
    ensures rows { SameRows }
    ensures observers { OnlyRunsThrow }
{}

/// How a table goes from one event to the next, and that a loop which runs the next row until there is none comes to the log.
pub fn step_laws()
    ensures ran { RunsStay }
    ensures touched { TouchesRequested }
    ensures answered { AnswersOnce }
    ensures more { RunsOneMore }
    ensures ends { LoopEnds }
    ensures front { LoopIsFront }
    ensures short { LoopIsShort }
{}

/// How a walk over the rows finds a closure, and shows that nothing there leads back to itself.
pub fn walk_laws()
    ensures edges { EdgesLead }
    ensures closed { ClosedHasClosure }
    ensures ranked { RankedIsAcyclic }
{}
