//! A whole script of steps, line by line.
ghost use Rattle.std.specs.Prelude.{◌≡◌, ◌++◌, option_map, if◌then◌else◌, IfOk, Ok, Err, Some, None};
ghost use Rattle.rl_names.specs.Meant.{ButForMemory, Checks};
ghost use Rattle.rl_names.specs.Rules.{number_of};
ghost use Rattle.rl_script_spec.specs.Script.{trimmed, is_ignored};
ghost use Rattle.rl_script.specs.declared.script.ScriptError.TheVariants.{BadLine};
ghost use Rattle.rl_steps.specs.Grammar.{step_of};
ghost use Rattle.rl_steps.specs.Script.{is_taken, is_in_plan, is_in_place, step_fault, told, first_fault, lack_of, lines_of, steps_in, script_of, refusal};
ghost use Rattle.rl_steps.specs.Reading.{TakesIn};

use crate::line::read_step;
use crate::step::Step;
use rl_names::{MAX_STEPS, NoMemory, Rule};
use rl_script::{ScriptError, is_ignored, trimmed};
use std::alloc::Global;
use std::str;

/// The scripts that commands take.
#[derive(Clone, Copy, Debug, PartialEq, Eq)]
pub enum Kinds {
    /// All steps but an embedded text.
    All,
    /// What is done while others take, serve and deliver: edits, options, the clock, views, requests and closes.
    Race,
    /// Edits and options.
    Pages,
    /// The plan of a page: one view, then at most one embedded text, then requests.
    Page,
}

impl Kinds {
    /// Whether a command takes a step.
    fn takes(self, step: &Step) -> bool
        ensures { result ≡ is_taken self step.now }
    {
        match step {
            Step::Edit { .. } | Step::Choice { .. } => match self {
                Kinds::All | Kinds::Race | Kinds::Pages => true,
                Kinds::Page => false,
            },
            Step::View { .. } | Step::Using { .. } | Step::Load { .. } => match self {
                Kinds::All | Kinds::Race | Kinds::Page => true,
                Kinds::Pages => false,
            },
            Step::Clock { .. } | Step::Close => match self {
                Kinds::All | Kinds::Race => true,
                Kinds::Pages | Kinds::Page => false,
            },
            Step::Take | Step::Serve { .. } | Step::Deliver { .. } | Step::Lose { .. } => {
                match self {
                    Kinds::All => true,
                    Kinds::Race | Kinds::Pages | Kinds::Page => false,
                }
            }
            Step::Embed { .. } => match self {
                Kinds::Page => true,
                Kinds::All | Kinds::Race | Kinds::Pages => false,
            },
        }
    }

    /// Whether a step is in its place behind so many others.
    fn places(self, before: usize, step: &Step) -> bool
        ensures { result ≡ is_in_place self before step.now }
    {
        match self {
            Kinds::All | Kinds::Race | Kinds::Pages => true,
            Kinds::Page => is_in_plan(before, step),
        }
    }
}

/// Whether a step is in its place in a plan, behind so many others.
fn is_in_plan(before: usize, step: &Step) -> bool
    ensures { result ≡ is_in_plan before step.now }
{
    match step {
        Step::View { .. } => before == 0,
        Step::Embed { .. } => before == 1,
        Step::Edit { .. }
        | Step::Choice { .. }
        | Step::Clock { .. }
        | Step::Using { .. }
        | Step::Load { .. }
        | Step::Take
        | Step::Serve { .. }
        | Step::Deliver { .. }
        | Step::Lose { .. }
        | Step::Close => before >= 1,
    }
}

/// The refusal of a line that breaks a rule.
fn bad(line: u32, rule: Rule) -> ScriptError
    ensures { result ≡ BadLine line (number_of rule) }
{
    ScriptError::BadLine {
        line,
        why: rule.number(),
    }
}

/// Checks that a step may stand on the line of this number, behind so many others.
fn check(kinds: Kinds, line: u32, before: usize, step: &Step) -> Result<(), ScriptError>
    ensures { Checks refusal result (option_map (told line) (step_fault kinds before step.now)) }
{
    if before as u64 >= MAX_STEPS {
        return Err(ScriptError::TooMany {
            count: MAX_STEPS + 1,
        });
    }
    if !kinds.takes(step) {
        return Err(bad(line, Rule::WrongStep));
    }
    if !kinds.places(before, step) {
        return Err(bad(line, Rule::OutOfPlace));
    }
    Ok(())
}

/// Takes in the step that the line of this number says.
fn take_in(
    steps: &mut Vec<Step>,
    kinds: Kinds,
    line: u32,
    said: Option<Step>,
) -> Result<(), ScriptError>
    ensures { TakesIn kinds line said result steps.old.items steps.new.items }
{
    let Some(step) = said else {
        return Err(bad(line, Rule::Grammar));
    };
    check(kinds, line, steps.len(), &step)?;
    Ok(steps.push(step)?)
}

/// The step that a line says, or none where it is not of the grammar; nothing where the line is ignored.
fn read_said(alloc: Global, line: &str) -> Result<Option<Option<Step>>, NoMemory>
    ensures { IfOk result (λ said. said ≡ (if is_ignored (trimmed line.now) then None else Some (step_of (trimmed line.now)))) }
{
    let line = trimmed(line);
    if is_ignored(line) {
        return Ok(None);
    }
    Ok(Some(read_step(alloc, line)?))
}

/// The steps of all lines, or the first line at fault.
fn read_lines(alloc: Global, text: &str, kinds: Kinds) -> Result<Vec<Step>, ScriptError>
    ensures { ButForMemory refusal
        (λ steps. (first_fault kinds 0 (lines_of text.now) ≡ None) × (steps.items ≡ steps_in (lines_of text.now)))
        (λ why. first_fault kinds 0 (lines_of text.now) ≡ Some why) result }
{
    let mut steps = Vec::new(alloc);
    let mut number: u32 = 0;
    for line in text.split('\n') {
        number = number.saturating_add(1);
        if let Some(said) = read_said(alloc, line)? {
            take_in(&mut steps, kinds, number, said)?;
        }
    }
    Ok(steps)
}

/// Checks that a plan has steps.
fn check_whole(kinds: Kinds, steps: &[Step]) -> Result<(), ScriptError>
    ensures { Checks refusal result (lack_of kinds steps.now) }
{
    match kinds {
        Kinds::Page if steps.is_empty() => Err(bad(0, Rule::OutOfPlace)),
        Kinds::Page | Kinds::All | Kinds::Race | Kinds::Pages => Ok(()),
    }
}

/// Reads a script of the steps that a command takes: a step for each line that is not ignored, in order, or the first fault.
/// Line 0 stands for the script as a whole: it is not UTF-8, or it is a plan without steps.
pub fn read_script(alloc: Global, bytes: &[u8], kinds: Kinds) -> Result<Vec<Step>, ScriptError>
    ensures { ButForMemory refusal (λ steps. script_of kinds bytes.now ≡ Ok steps.items) (λ why. script_of kinds bytes.now ≡ Err why) result }
{
    let Ok(text) = str::from_utf8(bytes) else {
        return Err(bad(0, Rule::NotUtf8));
    };
    let steps = read_lines(alloc, text, kinds)?;
    check_whole(kinds, steps.as_slice())?;
    Ok(steps)
}
