//! What the lines of a script say and what is printed for them, as definitions.
#![tactic(auto)]

ghost use Rattle.rl_script_spec.specs.Laws.{SameSummaries, StepsAreLawful, ScriptsHold, RowsAreRegistrable, PrintedHolds, RepliesTellLog};
ghost use Rattle.rl_script_spec.specs.Laws.{ToldWhereNotServed, BlamedIsLeast};

use rl_names::{Key, Row, Seq, StateKind, Text};
use rl_view_spec::Phase;

/// A step of a `drive` script.
#[derive(Drop)]
pub enum Step {
    Using { names: Seq<Text> },
    Load { names: Seq<Text> },
    Impl { key: Key, script: Text },
    State { name: Text, kind: StateKind },
}

/// What a line of a `drive` script says.
#[derive(Drop)]
pub enum Line {
    Registers(Row),
    HasFeatures(Seq<Text>),
    Does(Step),
    Faulty,
}

/// Why a name does not resolve.
#[derive(Clone, Copy, Debug, PartialEq, Eq)]
pub enum Unresolved {
    /// No row has it.
    Unknown,
    /// It depends on itself, directly or through others.
    Cycle,
}

/// What is wrong with a member of a closure by itself.
#[derive(Clone, Copy, Debug, PartialEq, Eq)]
pub enum Blame {
    /// Nothing answered it.
    Unanswered,
    /// It was answered as missing.
    Missing,
    /// It was answered with an error, or nothing can bring it.
    Error,
    /// It ran and threw.
    Threw,
}

/// Why not everything that a script requests was served.
#[derive(Drop)]
pub enum Unready {
    /// The first step that was refused, or of which a name was dropped. Steps are counted from 1. Of the names that its
    /// requests lead to, `name` is the least in byte order that no row has, or else the least that depends on itself.
    Refused {
        step: u64,
        name: Text,
        why: Unresolved,
    },
    /// The first requested name that is not ready, with its state, and of its closure the least name in byte order that is
    /// to blame by itself.
    NotReady {
        name: Text,
        state: Phase,
        member: Text,
        blame: Blame,
    },
}

/// The steps of every script are lawful and its rows fit a registry, so the headline stands of every script that is
/// printed; and with the same outcomes every order of steps gives the same summary. Why not everything was served is told
/// exactly where something was not; and a name that is blamed is the least of the closure that is to blame by itself.
pub fn script_laws()
    ensures summaries { SameSummaries }
    ensures lawful { StepsAreLawful }
    ensures scripts { ScriptsHold }
    ensures registrable { RowsAreRegistrable }
    ensures printed { PrintedHolds }
    ensures told { RepliesTellLog }
    ensures unready { ToldWhereNotServed }
    ensures blamed { BlamedIsLeast }
{}
