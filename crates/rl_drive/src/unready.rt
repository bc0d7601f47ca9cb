//! Why not everything that the steps requested was served.
ghost use Rattle.std.specs.Prelude.{◌≡◌, ◌<◌, ◌∷◌, [], All, IfOk, None, find, flat_map, is_some, length, not, option_map, reverse};
ghost use Rattle.rl_view_spec.specs.Closure.{refusal_of};
ghost use Rattle.rl_view_spec.specs.Numbers.{closure_numbers};
ghost use Rattle.rl_view_spec.specs.Progress.{next_row};
ghost use Rattle.rl_view_spec.specs.View.{View};
ghost use Rattle.rl_rows.specs.Least.{least_from};
ghost use Rattle.rl_script_spec.specs.Unready.{first_refused, held_up, names_of as requested, refused, unready_of};
ghost use Rattle.rl_drive.specs.Blamed.{AsSeen, IsPlayed, blame_at, blame_named, blamed_at, is_to_blame_at, phase_named};
ghost use Rattle.rl_drive.specs.Played.{execution_at, is_ready_at, is_served_at};
ghost use Rattle.rl_drive.specs.Player.{HasPlayed, held};

use crate::player::Player;
use rl_names::{NoMemory, Text};
use rl_registry::ResolveError;
use rl_rows::lesser;
use rl_script_spec::{Blame, Step, Unready, Unresolved};
use rl_states::Phase;
use std::slice;

/// The names that a step requests.
fn names_of(step: &Step) -> &[Text]
    ensures { result.now ≡ requested step.now }
{
    match step {
        Step::Using { names } | Step::Load { names } => names.as_slice(),
        Step::Impl { .. } | Step::State { .. } => &[],
    }
}

impl<'a> Player<'a> {
    /// Whether a row was given an implementation.
    fn is_given(&self, row: u32) -> bool
        requires { row < length self.now.table.registered.rows }
        ensures { result ≡ is_some (execution_at (held self.now) row) }
    {
        self.given[row as usize].is_some()
    }

    /// Whether a row is to blame by itself.
    fn is_to_blame(&self, row: u32) -> bool
        requires within { row < length self.now.table.registered.rows }
        requires rest { next_row self.now.table ≡ None }
        ensures { result ≡ is_to_blame_at self.now.table (held self.now) row }
    {
        if self.table.registry().skipped(row) {
            return false;
        }
        !self.is_given(row) || (self.table.has_run(row) && self.table.state(row) == Phase::Error)
    }

    /// What a row that is to blame has done.
    fn blame(&self, row: u32) -> Blame
        requires within { row < length self.now.table.registered.rows }
        requires rest { next_row self.now.table ≡ None }
        ensures { result ≡ blame_at self.now.table (held self.now) row }
    {
        if self.is_given(row) {
            Blame::Threw
        } else if !self.table.has_outcome(row) {
            Blame::Unanswered
        } else if self.table.state(row) == Phase::Missing {
            Blame::Missing
        } else {
            Blame::Error
        }
    }

    /// What the row of a name has done.
    fn blame_named(&self, name: &[u8]) -> Blame
        requires { next_row self.now.table ≡ None }
        ensures { result ≡ blame_named self.now.table (held self.now) name.now }
    {
        match self.table.registry().find(name) {
            Some(row) => self.blame(row),
            None => Blame::Unanswered,
        }
    }

    /// The state of the row of a name.
    fn state_named(&self, name: &[u8]) -> Phase
        requires { next_row self.now.table ≡ None }
        ensures { result ≡ phase_named self.now.table name.now }
    {
        match self.table.registry().find(name) {
            Some(row) => self.table.state(row),
            None => Phase::Registered,
        }
    }

    /// The least name of those of these rows that are to blame.
    fn least_blamed(&self, rows: &[u32]) -> Option<&str>
        requires within { All (λ row. row < length self.now.table.registered.rows) rows.now }
        requires rest { next_row self.now.table ≡ None }
        ensures { option_map (λ name. name.now) result ≡ least_from None (blamed_at self.now.table (held self.now) rows.now) }
    {
        let mut found = None;
        for row in rows {
            if self.is_to_blame(*row) {
                let name = self.table.registry().row_at(*row).name.as_str();
                found = Some(lesser(name, found));
            }
        }
        found
    }

    /// The rows of the closure of a name that resolves.
    fn closure(&self, name: &Text) -> Result<Vec<u32>, NoMemory>
        requires { refusal_of self.now.table.registered (name.now ∷ []) ≡ None }
        ensures { IfOk result (λ rows. rows.items ≡ closure_numbers self.now.table.registered (name.now ∷ [])) }
    {
        match self.table.registry().resolve_all(slice::from_ref(name)) {
            Ok(rows) => Ok(rows),
            Err(ResolveError::Unknown { .. }) => unreachable!(),
            Err(ResolveError::Cycle { .. }) => unreachable!(),
            Err(ResolveError::NoMemory) => Err(NoMemory),
        }
    }

    /// The state of a name that resolves, and the least of its closure that is to blame, if there is one.
    fn held_up(&self, name: &Text) -> Result<Option<Unready>, NoMemory>
        requires rest { next_row self.now.table ≡ None }
        requires resolved { refusal_of self.now.table.registered (name.now ∷ []) ≡ None }
        ensures { IfOk result (λ told. AsSeen self.now (λ v past. told ≡ held_up v past name.now)) }
    {
        let rows = self.closure(name)?;
        let Some(member) = self.least_blamed(rows.as_slice()) else {
            return Ok(None);
        };
        Ok(Some(Unready::NotReady {
            name: name.copy()?,
            state: self.state_named(name.as_bytes()),
            member: Text::of(self.alloc, member)?,
            blame: self.blame_named(member.as_bytes()),
        }))
    }

    /// Why a step of this number was refused, or a name of it dropped, if it was.
    fn refused(&self, number: u64, step: &Step) -> Result<Option<Unready>, NoMemory>
        requires { next_row self.now.table ≡ None }
        ensures { IfOk result (λ told. AsSeen self.now (λ v past.
            told ≡ option_map (refused number) (refusal_of v.registered (requested step.now)))) }
    {
        let names = names_of(step);
        if self.are_ready(names) {
            return Ok(None);
        }
        match self.table.registry().resolve_all(names) {
            Ok(_) => Ok(None),
            Err(ResolveError::Unknown { name }) => Ok(Some(Unready::Refused {
                step: number,
                name,
                why: Unresolved::Unknown,
            })),
            Err(ResolveError::Cycle { name }) => Ok(Some(Unready::Refused {
                step: number,
                name,
                why: Unresolved::Cycle,
            })),
            Err(ResolveError::NoMemory) => Err(NoMemory),
        }
    }

    /// The first step that was refused, or of which a name was dropped.
    fn first_refused(&self, steps: &[Step]) -> Result<Option<Unready>, NoMemory>
        requires { next_row self.now.table ≡ None }
        ensures { IfOk result (λ told. AsSeen self.now (λ v past. told ≡ first_refused v.registered 1 steps.now)) }
    {
        for (index, step) in steps.iter().enumerate() {
            if let Some(told) = self.refused(index as u64 + 1, step)? {
                return Ok(Some(told));
            }
        }
        Ok(None)
    }

    /// The first step of which a requested name is not ready.
    fn first_unserved<'s>(&self, steps: &'s [Step]) -> Option<&'s Step>
        requires { next_row self.now.table ≡ None }
        ensures { option_map (λ step. step.now) result ≡ find (λ step. not (is_served_at self.now.table step)) steps.now }
    {
        steps.iter().find(|step| !self.is_served(step))
    }

    /// The first of the names that is not ready.
    fn first_unready_of<'s>(&self, names: &'s [Text]) -> Option<&'s Text>
        requires { next_row self.now.table ≡ None }
        ensures { option_map (λ name. name.now) result ≡ find (λ name. not (is_ready_at self.now.table name)) names.now }
    {
        names.iter().find(|name| !self.is_ready(name))
    }

    /// The first requested name that is not ready.
    fn first_unready<'s>(&self, steps: &'s [Step]) -> Option<&'s Text>
        requires { next_row self.now.table ≡ None }
        ensures { option_map (λ name. name.now) result
            ≡ find (λ name. not (is_ready_at self.now.table name)) (flat_map requested steps.now) }
    {
        match self.first_unserved(steps) {
            Some(step) => self.first_unready_of(names_of(step)),
            None => None,
        }
    }

    /// Why not everything that the steps requested was served. The work is the same as that of the steps that were not.
    pub fn unready(&self, steps: &[Step]) -> Result<Option<Unready>, NoMemory>
        requires rest { next_row self.now.table ≡ None }
        requires played { IsPlayed steps.now self.now }
        ensures { IfOk result (λ told. (v : View) → HasPlayed v (reverse steps.now) self.now → told ≡ unready_of v (reverse steps.now)) }
    {
        if let Some(told) = self.first_refused(steps)? {
            return Ok(Some(told));
        }
        match self.first_unready(steps) {
            Some(name) => self.held_up(name),
            None => Ok(None),
        }
    }
}
