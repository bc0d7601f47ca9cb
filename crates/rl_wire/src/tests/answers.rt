//! Answers: read again, damaged, and cut.
use super::{MESSAGES_LINE, MODULE_LINE, STATE_LINE, line_at, spliced};
use crate::{Part, StateKind, WireError, read_answer, read_part, write_answer};
use std::alloc::Global;
use std::test::Fail;

/// What is read of bytes, written again, or the bad line.
fn again(alloc: Global, bytes: &[u8]) -> Result<String, Fail> {
    match read_answer(alloc, bytes) {
        Ok(parts) => Ok(write_answer(alloc, &parts)?.into_string()),
        Err(WireError::BadLine { line }) => Ok(format!(in alloc; "bad {line}")?),
        Err(WireError::NoMemory) => Ok(String::from_str(alloc, "no memory")?),
    }
}

#[test]
fn answers_are_read_as_they_were_written(rt: HostRuntime) -> Result<(), Fail> {
    let alloc = rt.alloc();
    let all = format!(in alloc; "{MODULE_LINE}\n{MESSAGES_LINE}\n{STATE_LINE}\n")?;
    for text in ["", "mw.loader.state({\"\":\"error\"});\n", all.as_str()] {
        assert_eq!(rt; again(alloc, text.as_bytes())?.as_str(), text);
    }
    let parts = read_answer(alloc, all.as_bytes()).ok().ok_or("an answer")?;
    assert_eq!(rt; parts.len(), 3);
    Ok(())
}

/// Bytes that are no answer, and the first bad line.
const REFUSED: [(&[u8], u32); 20] = [
    (b"mw.loader.state({\"zz\": \"missing\"});\n", 1),
    (b" mw.loader.state({\"zz\":\"missing\"});\n", 1),
    (b"mw.loader.state({\"zz\":\"missing\"}); \n", 1),
    (b"mw.loader.state({\"zz\":\"missing\"});\r\n", 1),
    (b"mw.loader.state({\"zz\":\"missing\"});", 1),
    (
        b"mw.loader.state({\"zz\":\"missing\"});\nmw.loader.state({\"zz\":\"error\"});",
        2,
    ),
    (b"mw.loader.state({\"zz\":\"missing\"});\n\n", 2),
    (b"\n", 1),
    (b"mw.loader.state({\"zz\":\"ready\"});\n", 1),
    (b"mw.loader.state({\"\\u007a\":\"missing\"});\n", 1),
    (
        b"mw.loader.state({\"a\":\"missing\",\"b\":\"missing\"});\n",
        1,
    ),
    (
        b"mw.loader.state({\"a\":\"missing\",\"a\":\"missing\"});\n",
        1,
    ),
    (b"mw.loader.state({});\n", 1),
    (b"mw.loader.state({\"\xFF\":\"missing\"});\n", 1),
    (b"mw.loader.implement(\"a\",\"\",{},{});\n", 1),
    (b"mw.loader.implement(\"a,b@96okj\",\"\",{},{});\n", 1),
    (
        b"mw.loader.implement(\"a@96okj\",\"\",{\"css\":[\"\"]},{});\n",
        1,
    ),
    (
        b"mw.loader.implement(\"a@96okj\",\"\",{\"css\":[]},{});\n",
        1,
    ),
    (
        b"mw.loader.state({\"zz\":\"missing\"});\nmw.loader.implement(\"a@96okj\",\"\",{},{\"b\":\"\",\"a\":\"\"});\n",
        2,
    ),
    (b"mw.loader.implement(\"a@96okj\",\"\",{},{},0);\n", 1),
];

#[test]
fn damaged_texts_are_refused(rt: HostRuntime) -> Result<(), Fail> {
    let alloc = rt.alloc();
    for (bytes, line) in REFUSED {
        let wanted = format!(in alloc; "bad {line}")?;
        assert_eq!(rt; again(alloc, bytes)?.as_str(), wanted.as_str());
    }
    Ok(())
}

/// Whether bytes are refused for this line, or are the text of what is read of them.
fn is_told(alloc: Global, bytes: &[u8], line: usize) -> Result<bool, Fail> {
    let told = again(alloc, bytes)?;
    let bad = format!(in alloc; "bad {line}")?;
    Ok(told.as_bytes() == bytes || told.as_str() == bad.as_str())
}

#[test]
fn each_byte_of_an_answer_counts(rt: HostRuntime) -> Result<(), Fail> {
    let alloc = rt.alloc();
    let text = format!(in alloc; "{MESSAGES_LINE}\n{STATE_LINE}\n")?;
    let bytes = text.as_bytes();
    for at in 0..bytes.len() {
        let byte = bytes[at];
        let line = line_at(bytes, at);
        let after = if byte == b'\n' {
            line.saturating_add(1)
        } else {
            line
        };
        assert!(rt; is_told(alloc, &spliced(alloc, bytes, at, &[])?, line)?);
        assert!(rt; is_told(alloc, &spliced(alloc, bytes, at, &[byte ^ 1])?, line)?);
        assert!(rt; is_told(alloc, &spliced(alloc, bytes, at, &[byte, byte])?, after)?);
    }
    Ok(())
}

#[test]
fn a_line_is_read_without_its_end(rt: HostRuntime) -> Result<(), Fail> {
    let alloc = rt.alloc();
    let part = read_part(alloc, STATE_LINE.as_bytes())?.ok_or("a part")?;
    let Part::State { name, kind } = part else {
        return Err("a state".into());
    };
    assert_eq!(rt; name.as_str(), "zz");
    assert_eq!(rt; kind, StateKind::Missing);
    for line in [
        "mw.loader.state({\"zz\": \"missing\"});",
        "mw.loader.state({\"zz\":\"missing\"});\n",
        "",
    ] {
        assert!(rt; read_part(alloc, line.as_bytes())?.is_none());
    }
    Ok(())
}
