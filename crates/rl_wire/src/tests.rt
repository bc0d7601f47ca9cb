//! What is written, and what of it is read again.
mod answers;
mod startups;

ghost use Rattle.std.specs.Prelude.{◌<◌, length, IfOk};
ghost use Rattle.rl_wire.specs.Line.{IsInOrder};
ghost use Rattle.rl_wire.specs.Message.{AreAscending};

use crate::{
    Message, Part, StateKind, payload_text, push_implementation, push_payload, push_state,
    write_answer, write_part,
};
use rl_names::{Name, NoMemory, Seq, Text, Version};
use std::alloc::Global;
use std::test::Fail;

/// Texts, and each as a JSON string.
const QUOTED: [(&str, &str); 7] = [
    ("", "\"\""),
    ("a()\n", "\"a()\\n\""),
    ("f(\"\\\\d\")", "\"f(\\\"\\\\\\\\d\\\")\""),
    ("\u{8}\t\n\u{c}\r", "\"\\b\\t\\n\\f\\r\""),
    (
        "\0\u{1}\u{b}\u{1f} \u{7f}",
        "\"\\u0000\\u0001\\u000b\\u001f \u{7f}\"",
    ),
    ("</script>\u{2028}\u{2029}", "\"</script>\u{2028}\u{2029}\""),
    ("\u{e9}\u{29fc}\u{1d49e}", "\"\u{e9}\u{29fc}\u{1d49e}\""),
];

#[test]
fn texts_are_json_strings(rt: HostRuntime) -> Result<(), Fail> {
    let alloc = rt.alloc();
    for (text, quoted) in QUOTED {
        let payload = payload_text(alloc, text, "", &[])?;
        let wanted = format!(in alloc; "[{quoted},{{}},{{}}]")?;
        assert_eq!(rt; payload.as_str(), wanted.as_str());
        let payload = payload_text(alloc, "b()\n", text, &[])?;
        let wanted = if text.is_empty() {
            format!(in alloc; "[\"b()\\n\",{{}},{{}}]")?
        } else {
            format!(in alloc; "[\"b()\\n\",{{\"css\":[{quoted}]}},{{}}]")?
        };
        assert_eq!(rt; payload.as_str(), wanted.as_str());
        let mut line = String::from_str(alloc, "before ")?;
        push_state(alloc, &mut line, text, "ready")?;
        let wanted = format!(in alloc; "before mw.loader.state({{{quoted}:\"ready\"}});\n")?;
        assert_eq!(rt; line.as_str(), wanted.as_str());
    }
    Ok(())
}

const MODULE_LINE: &str = "mw.loader.implement(\"a@96okj\",\"a()\\n\",{},{});";

const MESSAGES_LINE: &str =
    "mw.loader.implement(\"m\\\"@y3ph2\",\"\",{\"css\":[\"b{}\\n\"]},{\"gone\":\"\u{29fc}gone\u{29fd}\",\"greet\":\"Hello\"});";

const STATE_LINE: &str = "mw.loader.state({\"zz\":\"missing\"});";

/// Two messages with the keys `gone` and `greet`.
fn two_messages(alloc: Global) -> Result<Vec<Message>, NoMemory>
    ensures { IfOk result (λ v. AreAscending v.items) }
{
    let mut messages = Vec::new(alloc);
    messages.push(Message {
        key: Text::of(alloc, "gone")?,
        text: Text::of(alloc, "\u{29fc}gone\u{29fd}")?,
    })?;
    messages.push(Message {
        key: Text::of(alloc, "greet")?,
        text: Text::of(alloc, "Hello")?,
    })?;
    Ok(messages)
}

/// The module `a`, which brings a script alone.
fn module_a(alloc: Global) -> Result<Part, Fail>
    ensures { IfOk result IsInOrder }
{
    Ok(Part::Impl {
        name: Name::of(alloc, "a")?,
        version: Version::read(b"96okj").ok_or("no version")?,
        script: Text::of(alloc, "a()\n")?,
        styles: Text::of(alloc, "")?,
        messages: Seq::of(Vec::new(alloc)),
    })
}

/// A module whose name has a quotation mark, with styles and messages.
fn module_m(alloc: Global) -> Result<Part, Fail>
    ensures { IfOk result IsInOrder }
{
    Ok(Part::Impl {
        name: Name::of(alloc, "m\"")?,
        version: Version::read(b"y3ph2").ok_or("no version")?,
        script: Text::of(alloc, "")?,
        styles: Text::of(alloc, "b{}\n")?,
        messages: Seq::of(two_messages(alloc)?),
    })
}

fn state(alloc: Global, name: &str, kind: StateKind) -> Result<Part, Fail>
    ensures { IfOk result IsInOrder }
{
    Ok(Part::State {
        name: Text::of(alloc, name)?,
        kind,
    })
}

#[test]
fn parts_are_lines(rt: HostRuntime) -> Result<(), Fail> {
    let alloc = rt.alloc();
    let a = module_a(alloc)?;
    let m = module_m(alloc)?;
    let missing = state(alloc, "zz", StateKind::Missing)?;
    let bad = state(alloc, "", StateKind::Error)?;
    assert_eq!(rt; write_part(alloc, &a)?.as_str(), MODULE_LINE);
    assert_eq!(rt; write_part(alloc, &m)?.as_str(), MESSAGES_LINE);
    assert_eq!(rt; write_part(alloc, &missing)?.as_str(), STATE_LINE);
    let answer = write_answer(alloc, &[a, m, missing, bad])?;
    let wanted = format!(in alloc;
        "{MODULE_LINE}\n{MESSAGES_LINE}\n{STATE_LINE}\nmw.loader.state({{\"\":\"error\"}});\n"
    )?;
    assert_eq!(rt; answer.as_str(), wanted.as_str());
    Ok(())
}

#[test]
fn an_implementation_goes_last(rt: HostRuntime) -> Result<(), Fail> {
    let alloc = rt.alloc();
    let version = Version::read(b"96okj").ok_or("no version")?;
    let mut body = String::from_str(alloc, "before\n")?;
    push_implementation(alloc, &mut body, "a", version, "a()\n", "", &[])?;
    let wanted = format!(in alloc; "before\n{MODULE_LINE}\n")?;
    assert_eq!(rt; body.as_str(), wanted.as_str());
    Ok(())
}

#[test]
fn a_payload_goes_into_its_line(rt: HostRuntime) -> Result<(), Fail> {
    let alloc = rt.alloc();
    let version = Version::read(b"y3ph2").ok_or("no version")?;
    let messages = two_messages(alloc)?;
    let payload = payload_text(alloc, "", "b{}\n", messages.as_slice())?;
    let mut body = String::from_str(alloc, "before\n")?;
    push_payload(alloc, &mut body, "m\"", version, payload.as_str())?;
    let wanted = format!(in alloc; "before\n{MESSAGES_LINE}\n")?;
    assert_eq!(rt; body.as_str(), wanted.as_str());
    Ok(())
}

/// The bytes with others in the place of the one at `at`.
fn spliced(alloc: Global, bytes: &[u8], at: usize, put: &[u8]) -> Result<Vec<u8>, NoMemory>
    requires { at < length bytes.now }
{
    let mut made = Vec::from_slice(alloc, &bytes[..at])?;
    made.extend_from_slice(put)?;
    made.extend_from_slice(&bytes[at + 1..])?;
    Ok(made)
}

/// The number of the line in which the byte at `at` stands, counted from 1.
fn line_at(bytes: &[u8], at: usize) -> usize
    requires { at < length bytes.now }
{
    let before = bytes[..at].iter().filter(|b| **b == b'\n').count();
    before.saturating_add(1)
}
