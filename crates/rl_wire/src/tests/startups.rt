//! Startup texts: read again, damaged, and cut.
use super::{line_at, spliced};
use crate::{Startup, WireError, is_writable, read_startup, write_startup};
use rl_names::{Group, Name, Row, Seq, Text, Version};
use std::alloc::Global;
use std::test::Fail;

/// What is read of bytes, written again, or the bad line.
fn again(alloc: Global, bytes: &[u8]) -> Result<String, Fail> {
    match read_startup(alloc, bytes) {
        Ok(startup) => Ok(write_startup(alloc, &startup)?.into_string()),
        Err(WireError::BadLine { line }) => Ok(format!(in alloc; "bad {line}")?),
        Err(WireError::NoMemory) => Ok(String::from_str(alloc, "no memory")?),
    }
}

/// The startup text of a small wiki.
const TINY: &str =
    "mw.loader.addSource({\"local\":\"/load.php\"});\nmw.loader.register([[\"a\",\"96okj\"],[\"b\",\"wn61g\",[],2],[\"m\",\"y3ph2\"],[\"p\",\"\",[],1],[\"site\",\"186z7\",[5]],[\"site.styles\",\"186z7\",[],3],[\"user\",\"186z7\",[],0],[\"user.options\",\"\",[],1],[\"user.styles\",\"186z7\",[],0]]);\n";

const EMPTY: &str = "mw.loader.addSource({});\nmw.loader.register([]);\n";

/// Each field alone and behind others that are empty; a number above that of the last row.
const FIELDS: &str =
    "mw.loader.addSource({\"\":\"\",\"a\":\"/a\",\"local\":\"\u{e9}\\n\"});\nmw.loader.register([[\"d\",\"aaaaa\",[0,\"zz\",4294967295,\"\"]],[\"g\",\"aaaaa\",[],4294967295],[\"s\",\"aaaaa\",[],null,\"x\"],[\"f\",\"aaaaa\",[],null,null,\"\u{e9}\"],[\"p\",\"\",[1],1,\"x\",\"f\"]]);\n";

#[test]
fn startup_of_tiny(rt: HostRuntime) -> Result<(), Fail> {
    let alloc = rt.alloc();
    for text in [TINY, EMPTY, FIELDS] {
        assert_eq!(rt; again(alloc, text.as_bytes())?.as_str(), text);
    }
    let startup = read_startup(alloc, TINY.as_bytes())
        .ok()
        .ok_or("a startup")?;
    let mut names = String::new(alloc);
    for row in startup.rows.as_slice() {
        names.push_str(row.name.as_str())?;
        names.push_str(" ")?;
    }
    assert_eq!(rt;
        names.as_str(),
        "a b m p site site.styles user user.options user.styles "
    );
    let empty = Startup {
        sources: Seq::of(Vec::new(alloc)),
        rows: Seq::of(Vec::new(alloc)),
    };
    assert_eq!(rt; write_startup(alloc, &empty)?.as_str(), EMPTY);
    Ok(())
}

/// First lines that are refused, before a good second one.
const FIRST_LINES: [&str; 8] = [
    "",
    "mw.loader.addSource({} );\n",
    "mw.loader.addSource({\"a\": \"/a\"});\n",
    "mw.loader.addSource({\"b\":\"/b\",\"a\":\"/a\"});\n",
    "mw.loader.addSource({\"a\":\"/a\",\"a\":\"/a\"});\n",
    "mw.loader.addSource({\"a\":0});\n",
    "mw.loader.addSource([]);\n",
    "mw.loader.addSource({},{});\n",
];

/// Rows that are refused.
const ROWS: [&str; 22] = [
    "[]",
    "[\"a\"]",
    "[\"a\",\"\"]",
    "[\"a\",\"aaaa\"]",
    "[\"a\",null]",
    "[\".a\",\"aaaaa\"]",
    "[\"a\",\"aaaaa\",[]]",
    "[\"a\",\"aaaaa\",[],null]",
    "[\"a\",\"aaaaa\",null,2]",
    "[\"a\",\"aaaaa\",[4294967296]]",
    "[\"a\",\"aaaaa\",[1.0]]",
    "[\"a\",\"aaaaa\",[-0]]",
    "[\"a\",\"aaaaa\",[null]]",
    "[\"a\",\"aaaaa\",[],1]",
    "[\"a\",\"aaaaa\",[],\"2\"]",
    "[\"a\",\"aaaaa\",[],null,\"local\"]",
    "[\"a\",\"aaaaa\",[],null,\"\"]",
    "[\"a\",\"aaaaa\",[],null,null,\"\"]",
    "[\"a\",\"aaaaa\",[],null,\"x\",null]",
    "[\"a\",\"aaaaa\",[],null,null,\"f\",0]",
    "[\"a\", \"aaaaa\"]",
    "0",
];

#[test]
fn damaged_startups_are_refused(rt: HostRuntime) -> Result<(), Fail> {
    let alloc = rt.alloc();
    for line in FIRST_LINES {
        let text = format!(in alloc; "{line}mw.loader.register([]);\n")?;
        assert_eq!(rt; again(alloc, text.as_bytes())?.as_str(), "bad 1");
    }
    for row in ROWS {
        let text = format!(in alloc;
            "mw.loader.addSource({{}});\nmw.loader.register([[\"p\",\"\",[],1],{row}]);\n"
        )?;
        assert_eq!(rt; again(alloc, text.as_bytes())?.as_str(), "bad 2");
    }
    assert_eq!(rt;
        again(alloc, b"mw.loader.addSource({});")?.as_str(),
        "bad 1"
    );
    assert_eq!(rt;
        again(alloc, b"mw.loader.addSource({});\n")?.as_str(),
        "bad 2"
    );
    assert_eq!(rt;
        again(alloc, b"mw.loader.addSource({});\nmw.loader.register([]);")?.as_str(),
        "bad 2"
    );
    assert_eq!(rt;
        again(
            alloc,
            b"mw.loader.addSource({});\nmw.loader.register([]);\n\n"
        )?
        .as_str(),
        "bad 2"
    );
    Ok(())
}

/// Whether bytes are refused for this line, or are the text of what is read of them.
fn is_told(alloc: Global, bytes: &[u8], line: usize) -> Result<bool, Fail> {
    let told = again(alloc, bytes)?;
    let bad = format!(in alloc; "bad {line}")?;
    Ok(told.as_bytes() == bytes || told.as_str() == bad.as_str())
}

#[test]
fn each_byte_of_a_startup_text_counts(rt: HostRuntime) -> Result<(), Fail> {
    let alloc = rt.alloc();
    let bytes =
        b"mw.loader.addSource({\"local\":\"/l\"});\nmw.loader.register([[\"a\",\"aaaaa\",[1,\"z\"],2],[\"p\",\"\",[],1,\"x\",\"f\"]]);\n";
    for at in 0..bytes.len() {
        let byte = bytes[at];
        let line = line_at(bytes, at);
        let after = if byte == b'\n' { 2 } else { line };
        assert!(rt; is_told(alloc, &spliced(alloc, bytes, at, &[])?, line)?);
        assert!(rt; is_told(alloc, &spliced(alloc, bytes, at, &[byte ^ 1])?, line)?);
        assert!(rt; is_told(alloc, &spliced(alloc, bytes, at, &[byte, byte])?, after)?);
    }
    Ok(())
}

/// Rows of a group, with a version or none, a source and a skip, and whether each may be written.
const WRITABLE: [(Group, bool, &str, Option<&str>, bool); 10] = [
    (Group::Plain, true, "", None, true),
    (Group::Plain, false, "", None, false),
    (Group::User, true, "x", Some("f"), true),
    (Group::Private, false, "", None, true),
    (Group::Private, true, "", None, false),
    (Group::Other(2), true, "", None, true),
    (Group::Other(1), true, "", None, false),
    (Group::Other(2), false, "", None, false),
    (Group::Plain, true, "local", None, false),
    (Group::Plain, true, "", Some(""), false),
];

#[test]
fn rows_that_may_be_written(rt: HostRuntime) -> Result<(), Fail> {
    let alloc = rt.alloc();
    for (group, versioned, source, skip, wanted) in WRITABLE {
        let row = Row {
            name: Name::of(alloc, "a")?,
            version: if versioned {
                Version::read(b"aaaaa")
            } else {
                None
            },
            deps: Seq::of(Vec::new(alloc)),
            group,
            source: Text::of(alloc, source)?,
            skip: match skip {
                Some(skip) => Some(Text::of(alloc, skip)?),
                None => None,
            },
        };
        assert_eq!(rt; is_writable(&row), wanted);
    }
    Ok(())
}
