//! A view of which steps are played.
ghost use Rattle.std.specs.Prelude.{◌≡◌, ◌++◌, ◌<◌, [], ℕ, List, None, All, IfOk, OnOk, OnErr, codes, length, option_to_list};
ghost use Rattle.std.specs.List.{list_all};
ghost use Rattle.rl_names.specs.declared.name.Key.{Key};
ghost use Rattle.rl_view_spec.specs.Closure.{resolves};
ghost use Rattle.rl_view_spec.specs.Progress.{next_row};
ghost use Rattle.rl_view_spec.specs.Requests.{accepted_each};
ghost use Rattle.rl_view_spec.specs.View.{View, kind_of};
ghost use Rattle.rl_script_spec.specs.Output.{answer_of, events_of, line, summary_of};
ghost use Rattle.rl_script_spec.specs.declared.Step.{Step};
ghost use Rattle.rl_view.specs.Heard.{after_hearing};
ghost use Rattle.rl_view.specs.Seen.{counting_row};
ghost use Rattle.rl_drive.specs.Played.{executed_lines, execution_at, is_private_at, is_ready_at, is_served_at, key_at, run_at, run_word};
ghost use Rattle.rl_drive.specs.Played.{script_length, state_at, state_lines, throws_for_run};

use crate::given::{Given, nothing_given};
use rl_base::Hears;
use rl_names::{Group, Key, NoMemory, StateKind, Text};
use rl_registry::{Registry, ResolveError};
use rl_reply::{state_word, write, write_key, write_line, write_number};
use rl_script_spec::Step;
use rl_states::{Outcome, Phase, Table};
use rl_view::{counts, uncounted};
use std::alloc::Global;
use std::marker::Brand;
use std::slice;
use std::sync::ledger::Blank;

/// A view of which some steps were played.
#[derive(Drop)]
pub struct Player<'a> {
    pub(crate) alloc: Global,
    pub(crate) table: Table,
    /// The implementation of each row.
    pub(crate) given: Vec<Option<Given<'a>>>,
    ghost idle: { table.executing ≡ None },
    ghost long: { length given.items ≡ length table.registered.rows },
}

impl<'a> Player<'a> {
    ghost use Rattle.rl_drive.specs.Player.{HasPlayed, Plays, RefusesAll, RefusesPrivate, Requests, RunsDue, RunsNext, StopsDue, StopsStep, TakesIn, held};

    /// A view of which no step was played.
    pub fn open(alloc: Global, registry: Registry) -> Result<Player<'a>, NoMemory>
        ensures rest { IfOk result (λ player. next_row player.table ≡ None) }
        ensures played { IfOk result (λ player. (v : View) → v.registered ≡ registry → HasPlayed v [] player) }
    {
        let given = nothing_given(alloc, &registry)?;
        let table = Table::open(alloc, registry)?;
        Ok(Player {
            alloc,
            table,
            given,
        })
    }

    /// Plays a step: adds its reply, and then, for each run that it made due, tells the observers and adds a line.
    pub fn step<O: Hears>(
        &mut self,
        step: &'a Step,
        observers: &mut O,
        out: &mut Vec<u8>,
    ) -> Result<(), NoMemory>
        ensures plays { OnOk result (Plays (O.says observers.old) step.now self.old self.new out.old.items out.new.items
            (O.told observers.old) (O.told observers.new)) }
        ensures stops { OnErr result (StopsStep (O.says observers.old) step.now self.old (O.told observers.old) (O.told observers.new)) }
        ensures fixed { (k : Key) (s : List ℕ) → O.says observers.new k s ≡ O.says observers.old k s }
        ensures same { (first : O) → O.same first observers.old → O.same first observers.new }
    {
        self.take_in(step, out)?;
        self.run_due(observers, out)
    }

    /// Does what a step asks for, and adds the reply.
    fn take_in(&mut self, step: &'a Step, out: &mut Vec<u8>) -> Result<(), NoMemory>
        ensures { OnOk result (TakesIn step.now self.old self.new out.old.items out.new.items) }
    {
        match step {
            Step::Using { names } => self.using(names.as_slice(), out),
            Step::Load { names } => self.load(names.as_slice(), out),
            Step::Impl { key, script } => self.give(key, script, out),
            Step::State { name, kind } => self.settle(name, *kind, out),
        }
    }

    fn is_private(&self, row: u32) -> bool
        requires { row < length self.now.table.registered.rows }
        ensures { result ≡ is_private_at self.now.table row }
    {
        matches!(self.table.registry().row_at(row).group, Group::Private)
    }

    /// Answers a private row with an error, where it counts.
    fn refuse(&mut self, row: u32)
        requires { row < length self.old.table.registered.rows }
        ensures { RefusesPrivate row self.old self.new }
    {
        if self.is_private(row) && counts(&self.table, row) {
            uncounted::outcome::<Brand>(&mut self.table, row, Outcome::Error, Blank::new(1));
        }
    }

    /// Answers the private ones of these rows with an error, where they count.
    fn refuse_all(&mut self, rows: &[u32])
        requires { All (λ row. row < length self.old.table.registered.rows) rows.now }
        ensures { RefusesAll rows.now self.old self.new }
    {
        for row in rows {
            self.refuse(*row);
        }
    }

    /// Touches the closures of the names, and answers the private rows of them; or refuses them all.
    fn request(&mut self, names: &[Text]) -> Result<(), ResolveError>
        ensures { Requests result names.now self.old self.new }
    {
        let rows = self.table.registry().resolve_all(names)?;
        uncounted::touch::<Brand>(&mut self.table, rows.as_slice(), Blank::new(1));
        self.refuse_all(rows.as_slice());
        Ok(())
    }

    /// Requests names together.
    fn using(&mut self, names: &[Text], out: &mut Vec<u8>) -> Result<(), NoMemory>
        ensures { OnOk result (TakesIn (Step.Using names.now) self.old self.new out.old.items out.new.items) }
    {
        match self.request(names) {
            Ok(()) => write_line(out, "using ok"),
            Err(ResolveError::Unknown { name }) => {
                write(out, "using unknown ")?;
                write_line(out, name.as_str())
            }
            Err(ResolveError::Cycle { name }) => {
                write(out, "using cycle ")?;
                write_line(out, name.as_str())
            }
            Err(ResolveError::NoMemory) => Err(NoMemory),
        }
    }

    /// Whether a name resolves.
    fn resolves(&self, name: &Text) -> Result<bool, NoMemory>
        ensures { IfOk result (λ answer. answer ≡ resolves self.now.table.registered name.now) }
    {
        match self.table.registry().resolve_all(slice::from_ref(name)) {
            Ok(_) => Ok(true),
            Err(ResolveError::Unknown { .. }) => Ok(false),
            Err(ResolveError::Cycle { .. }) => Ok(false),
            Err(ResolveError::NoMemory) => Err(NoMemory),
        }
    }

    /// Those of the names that resolve.
    fn accepted(&self, names: &[Text]) -> Result<Vec<Text>, NoMemory>
        ensures { IfOk result (λ accepted. accepted.items ≡ accepted_each self.now.table.registered names.now) }
    {
        let mut accepted = Vec::new(self.alloc);
        for name in names {
            if self.resolves(name)? {
                accepted.push(name.copy()?)?;
            }
        }
        Ok(accepted)
    }

    /// Requests each name that resolves, and counts the others.
    fn load(&mut self, names: &[Text], out: &mut Vec<u8>) -> Result<(), NoMemory>
        ensures { OnOk result (TakesIn (Step.Load names.now) self.old self.new out.old.items out.new.items) }
    {
        let accepted = self.accepted(names)?;
        match self.request(accepted.as_slice()) {
            Ok(()) => {}
            Err(ResolveError::Unknown { .. }) => unreachable!(),
            Err(ResolveError::Cycle { .. }) => unreachable!(),
            Err(ResolveError::NoMemory) => return Err(NoMemory),
        }
        write(out, "load dropped ")?;
        write_number(out, names.len().saturating_sub(accepted.len()) as u64)?;
        write_line(out, "")
    }

    /// The row for which a part of this name counts: it is touched, is not skipped and has no outcome.
    fn counting_row(&self, name: &[u8]) -> Option<u32>
        ensures { result ≡ counting_row self.now.table name.now }
    {
        let row = self.table.registry().find(name)?;
        if counts(&self.table, row) {
            Some(row)
        } else {
            None
        }
    }

    /// Gives the row of a key its implementation.
    fn give(&mut self, key: &'a Key, script: &'a Text, out: &mut Vec<u8>) -> Result<(), NoMemory>
        ensures { OnOk result (TakesIn (Step.Impl key.now script.now) self.old self.new out.old.items out.new.items) }
    {
        let Some(row) = self.counting_row(key.name.as_bytes()) else {
            return write_line(out, "passed");
        };
        uncounted::outcome::<Brand>(&mut self.table, row, Outcome::Impl, Blank::new(1));
        self.table.registry_mut(row, key.version);
        self.given[row as usize] = Some(Given { key, script });
        write_line(out, "used")
    }

    /// Answers a row without an implementation.
    fn settle(&mut self, name: &Text, kind: StateKind, out: &mut Vec<u8>) -> Result<(), NoMemory>
        ensures { OnOk result (TakesIn (Step.State name.now kind) self.old self.new out.old.items out.new.items) }
    {
        let Some(row) = self.counting_row(name.as_bytes()) else {
            return write_line(out, "passed");
        };
        uncounted::outcome::<Brand>(&mut self.table, row, outcome_of(kind), Blank::new(1));
        write_line(out, "used")
    }

    /// Tells the observers that a row runs, and answers whether one throws. Of a row that was given nothing none is told.
    fn tell<O: Hears>(&self, row: u32, observers: &mut O) -> Result<bool, NoMemory>
        requires { row < length self.now.table.registered.rows }
        ensures threw { IfOk result (λ threw. threw ≡ throws_for_run (O.says observers.old) (execution_at (held self.now) row)) }
        ensures told { OnOk result (O.told observers.new
            ≡ after_hearing (option_to_list (execution_at (held self.now) row)) (O.told observers.old)) }
        ensures refused { OnErr result (O.told observers.new ≡ O.told observers.old) }
        ensures fixed { (k : Key) (s : List ℕ) → O.says observers.new k s ≡ O.says observers.old k s }
        ensures same { (first : O) → O.same first observers.old → O.same first observers.new }
    {
        match self.given[row as usize] {
            Some(given) => observers.hear(given.key, given.script.as_bytes()),
            None => Ok(false),
        }
    }

    /// Runs the row of least number that may run, if there is one, and answers whether it threw. The observers are told
    /// first; where they have no room nothing runs.
    fn run_next<O: Hears>(&mut self, observers: &mut O) -> Result<Option<(u32, bool)>, NoMemory>
        ensures runs { RunsNext (O.says observers.old) result self.old self.new (O.told observers.old) (O.told observers.new) }
        ensures fixed { (k : Key) (s : List ℕ) → O.says observers.new k s ≡ O.says observers.old k s }
        ensures same { (first : O) → O.same first observers.old → O.same first observers.new }
    {
        let Some(row) = uncounted::first_run::<Brand>(&self.table, Blank::new(1)) else {
            return Ok(None);
        };
        let threw = self.tell(row, observers)?;
        uncounted::run::<Brand>(&mut self.table, row, threw, Blank::new(1));
        Ok(Some((row, threw)))
    }

    /// Runs all that may run, the row of least number first, tells the observers of each run, and adds a line for it.
    fn run_due<O: Hears>(&mut self, observers: &mut O, out: &mut Vec<u8>) -> Result<(), NoMemory>
        ensures runs { OnOk result (RunsDue (O.says observers.old) self.old self.new out.old.items out.new.items
            (O.told observers.old) (O.told observers.new)) }
        ensures stops { OnErr result (StopsDue (O.says observers.old) self.old (O.told observers.old) (O.told observers.new)) }
        ensures fixed { (k : Key) (s : List ℕ) → O.says observers.new k s ≡ O.says observers.old k s }
        ensures same { (first : O) → O.same first observers.old → O.same first observers.new }
    {
        'runs: while let Some((row, threw)) = self.run_next(observers)? {
            self.write_run(word_of(threw), row, out)?;
        }
        Ok(())
    }

    /// Adds the key of a row.
    fn write_row(&self, row: u32, out: &mut Vec<u8>) -> Result<(), NoMemory>
        requires { row < length self.now.table.registered.rows }
        ensures { OnOk result (out.new.items ≡ out.old.items ++ key_at self.now.table row) }
    {
        let row = self.table.registry().row_at(row);
        write_key(out, row.name.as_str(), &row.version)
    }

    /// How many bytes the script of a row has; 0 where it has none.
    fn script_length(&self, row: u32) -> usize
        requires { row < length self.now.table.registered.rows }
        ensures { result ≡ script_length (execution_at (held self.now) row) }
    {
        match self.given[row as usize] {
            Some(given) => given.script.as_bytes().len(),
            None => 0,
        }
    }

    /// Adds a line with a word, the key of a row and the length of its script.
    fn write_run(&self, word: &str, row: u32, out: &mut Vec<u8>) -> Result<(), NoMemory>
        requires { row < length self.now.table.registered.rows }
        ensures { OnOk result (out.new.items ≡ out.old.items ++ line (word.now ++ run_at self.now.table (held self.now) row)) }
    {
        write(out, word)?;
        self.write_row(row, out)?;
        write(out, " ")?;
        write_number(out, self.script_length(row) as u64)?;
        write_line(out, "")
    }

    /// Adds a line with the state of a row and its key.
    fn write_state(&self, row: u32, out: &mut Vec<u8>) -> Result<(), NoMemory>
        requires within { row < length self.now.table.registered.rows }
        requires rest { next_row self.now.table ≡ None }
        ensures { OnOk result (out.new.items ≡ out.old.items ++ state_at self.now.table row) }
    {
        write(out, state_word(self.table.state(row)))?;
        write(out, " ")?;
        self.write_row(row, out)?;
        write_line(out, "")
    }

    /// Adds the touched rows with their states.
    fn write_states(&self, out: &mut Vec<u8>) -> Result<(), NoMemory>
        requires { next_row self.now.table ≡ None }
        ensures { OnOk result (out.new.items ≡ out.old.items ++ state_lines self.now.table) }
    {
        for row in 0..self.table.registry().count() {
            if self.table.touched(row) {
                self.write_state(row, out)?;
            }
        }
        Ok(())
    }

    /// Adds the rows that ran, in row order.
    fn write_executed(&self, out: &mut Vec<u8>) -> Result<(), NoMemory>
        ensures { OnOk result (out.new.items ≡ out.old.items ++ executed_lines self.now.table (held self.now)) }
    {
        for row in 0..self.table.registry().count() {
            if self.table.has_run(row) {
                self.write_run("executed ", row, out)?;
            }
        }
        Ok(())
    }

    /// Adds the summary.
    pub fn summary(&self, out: &mut Vec<u8>) -> Result<(), NoMemory>
        requires { next_row self.now.table ≡ None }
        ensures { OnOk result ((v : View) (past : List Step) → HasPlayed v past self.now
            → out.new.items ≡ out.old.items ++ line (codes "summary") ++ summary_of 0 v (events_of v.registered past)) }
    {
        write_line(out, "summary")?;
        write(out, "view ")?;
        write_number(out, 0)?;
        write_line(out, "")?;
        self.write_states(out)?;
        self.write_executed(out)
    }

    /// Whether a name has a row that is ready.
    pub(crate) fn is_ready(&self, name: &Text) -> bool
        requires { next_row self.now.table ≡ None }
        ensures { result ≡ is_ready_at self.now.table name.now }
    {
        match self.table.registry().find(name.as_bytes()) {
            Some(row) => self.table.state(row) == Phase::Ready,
            None => false,
        }
    }

    pub(crate) fn are_ready(&self, names: &[Text]) -> bool
        requires { next_row self.now.table ≡ None }
        ensures { result ≡ list_all (is_ready_at self.now.table) names.now }
    {
        names.iter().all(|name| self.is_ready(name))
    }

    /// Whether each name that a step requests is ready. A name that was refused or dropped never is.
    pub(crate) fn is_served(&self, step: &Step) -> bool
        requires { next_row self.now.table ≡ None }
        ensures { result ≡ is_served_at self.now.table step.now }
    {
        match step {
            Step::Using { names } | Step::Load { names } => self.are_ready(names.as_slice()),
            Step::Impl { .. } | Step::State { .. } => true,
        }
    }
}

/// What a `state` line answers with.
fn outcome_of(kind: StateKind) -> Outcome
    ensures { result ≡ kind_of (answer_of kind) }
{
    match kind {
        StateKind::Missing => Outcome::Missing,
        StateKind::Error => Outcome::Error,
    }
}

/// What is printed before a run.
fn word_of(threw: bool) -> &'static str
    ensures { result.now ≡ run_word threw }
{
    if threw { "threw " } else { "ran " }
}
