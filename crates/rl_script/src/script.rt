//! A whole script, line by line.
ghost use Rattle.std.specs.Prelude.{◌≡◌, ◌+◌, IfOk};
ghost use Rattle.rl_view_spec.specs.Rows.{AreRegistrable};
ghost use Rattle.rl_script_spec.specs.Script.{trimmed, is_ignored, said_of, lines_of};
ghost use Rattle.rl_script.specs.Reads.{Reads, TakesIn};
ghost use Rattle.rl_script.specs.declared.script.ScriptError.TheVariants.{NoMemory};

use crate::line::read_line;
use rl_names::{MAX_STEPS, NoMemory, Row, Rule, Text};
use rl_script_spec::{Line, Step};
use std::alloc::{AllocError, AllocFailed, Global};
use thiserror::Error;

/// What a script says: the rows of the registry, the features of the view, which are those of the last line that names
/// any, and the steps in order.
#[derive(Drop)]
pub struct Script {
    pub rows: Vec<Row>,
    pub features: Vec<Text>,
    pub steps: Vec<Step>,
}

/// Why a text is no script.
#[derive(Clone, Copy, Debug, PartialEq, Eq, Error)]
pub enum ScriptError {
    /// The first line at fault, counted from 1, and the number of the rule that it breaks: it is not of the grammar, or is
    /// a row or features after a step.
    #[error("line {line} may not stand there ({why})")]
    BadLine { line: u32, why: u32 },
    /// A step after as many others as there may be. No more is read, so the count is always one more than the limit.
    #[error("{count} steps are too many")]
    TooMany { count: u64 },
    #[error("out of memory")]
    NoMemory,
}

impl From<NoMemory> for ScriptError {
    ghost from_gives = { λ _ e. e ≡ NoMemory };

    fn from(_error: NoMemory) -> Self {
        ScriptError::NoMemory
    }
}

impl<T: Drop> From<AllocFailed<T>> for ScriptError {
    ghost from_gives = { λ _ e. e ≡ NoMemory };

    fn from(_failed: AllocFailed<T>) -> Self {
        ScriptError::NoMemory
    }
}

impl Script {
    /// Takes in what the line of this number says.
    fn take_in(&mut self, number: u32, line: Line) -> Result<(), ScriptError>
        ensures { TakesIn self.old (number, line) result self.new }
    {
        match line {
            Line::Faulty => Err(ScriptError::BadLine {
                line: number,
                why: Rule::Grammar.number(),
            }),
            Line::Registers(_) | Line::HasFeatures(_) if !self.steps.is_empty() => {
                Err(ScriptError::BadLine {
                    line: number,
                    why: Rule::OutOfPlace.number(),
                })
            }
            Line::Registers(row) => Ok(self.rows.push(row)?),
            Line::HasFeatures(features) => {
                self.features = features.into_vec();
                Ok(())
            }
            Line::Does(_) if self.steps.len() as u64 >= MAX_STEPS => Err(ScriptError::TooMany {
                count: MAX_STEPS + 1,
            }),
            Line::Does(step) => Ok(self.steps.push(step)?),
        }
    }
}

/// A line without one carriage return at its end.
pub fn trimmed(line: &str) -> &str
    ensures { result.now ≡ trimmed line.now }
{
    line.strip_suffix('\r').unwrap_or(line)
}

/// Whether a line says nothing.
pub fn is_ignored(line: &str) -> bool
    ensures { result ≡ is_ignored line.now }
{
    line.is_empty() || line.starts_with('#')
}

/// What a line says, where it is not ignored.
fn read_said(alloc: Global, line: &str) -> Result<Option<Line>, NoMemory>
    ensures { IfOk result (λ said. said ≡ said_of line.now) }
{
    let line = trimmed(line);
    if is_ignored(line) {
        return Ok(None);
    }
    Ok(Some(read_line(alloc, line)?))
}

/// Reads a script, line by line.
pub fn read_script(alloc: Global, text: &str) -> Result<Script, ScriptError>
    ensures answer { Reads result (lines_of text.now) }

    // Its rows are such as a registry takes.
    ensures registrable { IfOk result (λ script. AreRegistrable script.rows.items) }
{
    let mut script = Script {
        rows: Vec::new(alloc),
        features: Vec::new(alloc),
        steps: Vec::new(alloc),
    };
    let mut number: u32 = 0;
    for line in text.split('\n') {
        number = number.saturating_add(1);
        if let Some(said) = read_said(alloc, line)? {
            script.take_in(number, said)?;
        }
    }
    Ok(script)
}
