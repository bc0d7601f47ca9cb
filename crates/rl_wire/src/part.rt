//! Parts, and the answers that they make.
ghost use Rattle.std.specs.Prelude.{◌≡◌, ◌++◌, OnOk, IfOk, IsTrue, Some, Ok, string_bytes};
ghost use Rattle.std.specs.List.{AllByRecursion};
ghost use Rattle.rl_names.specs.Name.{is_name};
ghost use Rattle.rl_wire.specs.Line.{kind_text, part_text, wire_text, IsInOrder, AreInOrder, IsPart, ReadBack};
ghost use Rattle.rl_wire.specs.Reading.{part_in, answer_of};

use crate::line::{add_implementation, add_state};
use rl_names::{Message, Name, NoMemory, Seq, StateKind, Text, Version};
use std::alloc::Global;

/// What an answer says of one module.
#[derive(Drop)]
pub enum Part {
    /// The module itself: the texts that it brings, of which its version is the hash.
    Impl {
        name: Name,
        version: Version,
        script: Text,
        styles: Text,
        messages: Seq<Message>,
    },
    /// That no module of this name is served, and why.
    State {
        name: Text,
        kind: StateKind,
    },
}

fn word_of(kind: StateKind) -> &'static str
    ensures { result.now ≡ kind_text kind }
{
    match kind {
        StateKind::Missing => "missing",
        StateKind::Error => "error",
    }
}

/// The text of a name, with what is known of each name.
pub(crate) fn name_text(name: &Name) -> &str
    ensures value { result.now ≡ name.now }
    ensures name { IsTrue (is_name name.now) }
{
    let _bytes = name.as_bytes();
    name.as_str()
}

/// Adds the line of a part, without its end.
pub(crate) fn add_part(alloc: Global, out: &mut String, part: &Part) -> Result<(), NoMemory>
    requires { IsInOrder part.now }
    ensures text { OnOk result (string_bytes out.new ≡ string_bytes out.old ++ part_text part.now) }
    ensures part { OnOk result (IsPart part.now) }
{
    match part {
        Part::Impl {
            name,
            version,
            script,
            styles,
            messages,
        } => add_implementation(
            alloc,
            out,
            name_text(name),
            version.as_str(),
            script.as_str(),
            styles.as_str(),
            messages.as_slice(),
        ),
        Part::State { name, kind } => add_state(alloc, out, name.as_str(), word_of(*kind)),
    }
}

/// The line of a part, without its end.
pub fn write_part(alloc: Global, part: &Part) -> Result<Text, NoMemory>
    requires { IsInOrder part.now }
    ensures text { IfOk result (λ t. t ≡ part_text part.now) }

    // A reader gets the part back: put between brackets, the arguments are JSON, and the line says this part.
    ensures reads_back { IfOk result (λ _. ReadBack part.now) }
    ensures again { IfOk result (λ t. part_in t ≡ Some part.now) }
{
    let mut out = String::new(alloc);
    add_part(alloc, &mut out, part)?;
    Ok(Text::from_string(out))
}

/// An answer: the lines of its parts, each with its end.
pub fn write_answer(alloc: Global, parts: &[Part]) -> Result<Text, NoMemory>
    requires { AreInOrder parts.now }
    ensures text { IfOk result (λ t. t ≡ wire_text parts.now) }

    // A reader gets the parts back, each as from its own line.
    ensures reads_back { IfOk result (λ _. AllByRecursion ReadBack parts.now) }
    ensures again { IfOk result (λ t. answer_of t ≡ Ok parts.now) }
{
    let mut out = String::new(alloc);
    'parts: for part in parts {
        add_part(alloc, &mut out, part)?;
        out.push_str("\n")?;
    }
    Ok(Text::from_string(out))
}
