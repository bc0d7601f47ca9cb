//! An outside that fails, and the line that a person reads.
ghost use Rattle.std.specs.Prelude.{[]};

use super::tree_of;
use crate::report::Report;
use crate::{Status, run};
use rl_base::{DirTree, FetchError, MemSink, MemTree, Reason, Sink, SinkError, StdSink, Tree};
use rl_names::{Blob, Text};
use std::alloc::Global;
use std::test::Fail;

/// A sink that takes one byte a call.
#[derive(Drop)]
struct Slow {
    inner: MemSink,
}

impl Sink for Slow {
    ghost use Rattle.std.specs.Prelude.{Some};

    ghost written = { λ s. Some s.inner.written };

    ghost faults = { λ s. s.inner.faults };

    fn write(&mut self, bytes: &[u8]) -> Result<usize, SinkError> {
        if bytes.is_empty() {
            return Ok(0);
        }
        self.inner.write(&bytes[..1])
    }
}

/// A sink that takes nothing, and counts that as a fault.
#[derive(Drop)]
struct Full {
    faults: u64,
}

impl Sink for Full {
    ghost use Rattle.std.specs.Prelude.{Some, []};

    ghost written = { λ _. Some [] };

    ghost faults = { λ s. s.faults };

    fn write(&mut self, _bytes: &[u8]) -> Result<usize, SinkError> {
        self.faults = self.faults.saturating_add(1);
        Ok(0)
    }
}

const SCRIPT: &[u8] =
    b"[\"row\",\"A\",\"aaaaa\"]\n[\"using\",[\"A\"]]\n[\"impl\",\"A@aaaaa\",\"a()\"]\n";

const OUTPUT: &[u8] =
    b"using ok\nused\nran A@aaaaa 3\nsummary\nview 0\nready A@aaaaa\nexecuted A@aaaaa 3\n";

/// The status of a call over a tree and a sink.
fn status(alloc: Global, tree: &mut MemTree, out: &mut impl Sink) -> Status {
    let words = ["drive", "a.script"];
    run(alloc, &words, tree, out, Vec::new(alloc)).status
}

/// The numbers of the calls that fail.
fn failing(alloc: Global, calls: &[u64]) -> Result<Vec<u64>, Fail> {
    Ok(Vec::from_slice(alloc, calls)?)
}

#[test]
fn faults_of_the_outside(rt: HostRuntime) -> Result<(), Fail> {
    let alloc = rt.alloc();
    let mut out = MemSink::new(alloc, Vec::new(alloc))?;

    let mut tree = tree_of(alloc, "b.script", SCRIPT)?;
    assert_eq!(rt;
        status(alloc, &mut tree, &mut out),
        Status::ReadFault,
        "no such file"
    );

    let mut tree = MemTree::new(alloc, Vec::new(alloc), failing(alloc, &[0])?)?;
    assert_eq!(rt;
        status(alloc, &mut tree, &mut out),
        Status::ReadFault,
        "a failing tree"
    );
    assert!(rt; out.written().is_empty(), "nothing is written");

    let mut tree = tree_of(alloc, "a.script", SCRIPT)?;
    let mut out = MemSink::new(alloc, failing(alloc, &[0])?)?;
    assert_eq!(rt;
        status(alloc, &mut tree, &mut out),
        Status::WriteFault,
        "a failing sink"
    );
    assert_eq!(rt;
        status(alloc, &mut tree, &mut out),
        Status::Done,
        "its next call"
    );
    assert_eq!(rt; out.written(), OUTPUT, "its next call");

    let mut out = Slow {
        inner: MemSink::new(alloc, Vec::new(alloc))?,
    };
    assert_eq!(rt;
        status(alloc, &mut tree, &mut out),
        Status::Done,
        "one byte a call"
    );
    assert_eq!(rt; out.inner.written(), OUTPUT, "one byte a call");

    let mut out = Slow {
        inner: MemSink::new(alloc, failing(alloc, &[12])?)?,
    };
    assert_eq!(rt;
        status(alloc, &mut tree, &mut out),
        Status::WriteFault,
        "one byte a call, then a fault"
    );
    assert_eq!(rt;
        out.inner.written(),
        b"using ok\nuse".as_slice(),
        "one byte a call, then a fault"
    );

    assert_eq!(rt;
        status(alloc, &mut tree, &mut Full { faults: 0 }),
        Status::WriteFault,
        "a full sink"
    );
    Ok(())
}

/// The real forms: a file that is not there, and an output that takes nothing of nothing.
#[test]
fn real_forms(rt: HostRuntime) -> Result<(), Fail> {
    let mut tree = DirTree::new(&rt, rt.alloc());
    assert!(rt; matches!(tree.fetch("no such file", 1), Err(FetchError::Failed)));
    assert_eq!(rt; tree.reason(), Some(Reason::NoSuchFile));
    assert!(rt; matches!(tree.fetch("/", 1), Err(FetchError::Failed)));
    assert_eq!(rt; tree.reason(), Some(Reason::IsFolder));
    let mut out = StdSink::new(&rt);
    assert_eq!(rt; out.write(b""), Ok(0));
    Ok(())
}

/// The status of a call with these words.
fn status_of_words(alloc: Global, words: &[&str]) -> Result<Status, Fail> {
    let mut tree = tree_of(alloc, "a.script", SCRIPT)?;
    let mut out = MemSink::new(alloc, Vec::new(alloc))?;
    Ok(run(alloc, words, &mut tree, &mut out, Vec::new(alloc)).status)
}

#[test]
fn words(rt: HostRuntime) -> Result<(), Fail> {
    let alloc = rt.alloc();
    assert_eq!(rt; status_of_words(alloc, &[])?, Status::BadWords);
    assert_eq!(rt; status_of_words(alloc, &["drive"])?, Status::BadWords);
    assert_eq!(rt;
        status_of_words(alloc, &["Drive", "a.script"])?,
        Status::BadWords
    );
    assert_eq!(rt;
        status_of_words(alloc, &["drive", "a.script", ""])?,
        Status::BadWords
    );
    assert_eq!(rt; status_of_words(alloc, &["--help"])?, Status::BadWords);
    assert_eq!(rt;
        status_of_words(alloc, &["load", "a.script", "-", "a|b", ""])?,
        Status::BadWords
    );
    assert_eq!(rt;
        status_of_words(alloc, &["load", "a.script", "-", "", ""])?,
        Status::BadWords
    );
    assert_eq!(rt;
        status_of_words(alloc, &["load", "a.script", "-", "-"])?,
        Status::BadWords
    );
    assert_eq!(rt; Status::BadWords.code(), 2);
    assert_eq!(rt; Status::NotReady.code(), 3);
    Ok(())
}

/// The line that a person reads of a call with these words over these files.
fn line(alloc: Global, words: &[&str], tree: &mut MemTree) -> Result<String, Fail> {
    let mut out = MemSink::new(alloc, Vec::new(alloc))?;
    let ended = run(alloc, words, tree, &mut out, Vec::new(alloc));
    let report = Report {
        words,
        status: ended.status,
        word: ended.word,
        breach: ended.breach,
        unready: ended.unready,
        reason: None,
    };
    Ok(format!(in alloc; "{report}")?)
}

/// The definitions are read once: a second fetch would fail.
#[test]
fn what_is_told_of_definitions(rt: HostRuntime) -> Result<(), Fail> {
    let alloc = rt.alloc();
    let words = ["load", "wiki.toml", "-", "-", ""];
    for (definitions, text) in [
        ("[", "\"wiki.toml\": not TOML (11)"),
        (
            "wiki.colour = 1",
            "\"wiki.toml\": the field \"colour\" is unknown or has a bad value (12)",
        ),
        (
            "modules.a = 3",
            "\"wiki.toml\": module \"a\" is no table (12)",
        ),
        (
            "modules.\"\" = 3",
            "\"wiki.toml\": module \"\" is no table (12)",
        ),
        (
            "modules.\"\".x = 3",
            "\"wiki.toml\": module \"\" has the field \"x\", which is unknown or has a bad value (12)",
        ),
        (
            "modules.a.x = 3",
            "\"wiki.toml\": module \"a\" has the field \"x\", which is unknown or has a bad value (12)",
        ),
        (
            "[modules.\"a\\nb\"]",
            "\"wiki.toml\": the name \"a\\nb\" breaks its rule (13)",
        ),
        (
            "modules.a.dependencies = [\"b\"]",
            "\"wiki.toml\": module \"a\" depends on \"b\", which is no module (14)",
        ),
    ] {
        let mut files = Vec::new(alloc);
        files.push((
            Text::of(alloc, "wiki.toml")?,
            Blob::of(alloc, definitions.as_bytes())?,
        ))?;
        let mut tree = MemTree::new(alloc, files, failing(alloc, &[1])?)?;
        assert_eq!(rt; line(alloc, &words, &mut tree)?.as_str(), text);
    }
    Ok(())
}

#[test]
fn what_a_person_reads(rt: HostRuntime) -> Result<(), Fail> {
    let alloc = rt.alloc();
    for (words, script, text) in [
        (
            ["drive", "a.script"],
            "[\"using\",[]]\n[]",
            "\"a.script\", line 2: not a line of the grammar (1)",
        ),
        (
            ["drive", "b\n\u{1b}\u{9b}\u{e4}.script"],
            "",
            "\"b\\n\\u001b\\u009b\u{e4}.script\": could not be read",
        ),
        (
            ["play", "a.script"],
            "",
            "no command has these words; `loader --help` lists them",
        ),
        (
            ["drive", "a.script"],
            "[\"using\",[\"zz\"]]",
            "\"a.script\": step 1 needs module \"zz\", which is unknown",
        ),
    ] {
        let mut tree = tree_of(alloc, "a.script", script.as_bytes())?;
        assert_eq!(rt; line(alloc, &words, &mut tree)?.as_str(), text);
    }
    Ok(())
}

/// The lines of `a`, which needs `b`.
const TWO: &str =
    "[\"row\",\"a\",\"00001\",[\"b\"]]\n[\"row\",\"b\",\"00002\"]\n[\"using\",[\"a\"]]\n";

#[test]
fn what_is_told_of_requests(rt: HostRuntime) -> Result<(), Fail> {
    let alloc = rt.alloc();
    for (more, text) in [
        (
            "[\"impl\",\"a@00001\",\"a()\"]",
            "\"a.script\": module \"a\" is not ready (loaded): \"b\", which it needs, was not answered",
        ),
        (
            "[\"impl\",\"b@00002\",\"b()\"]\n[\"state\",\"a\",\"missing\"]",
            "\"a.script\": module \"a\" is not ready (missing): it is missing",
        ),
        (
            "[\"impl\",\"a@00001\",\"a()\"]\n[\"state\",\"b\",\"error\"]",
            "\"a.script\": module \"a\" is not ready (error): \"b\", which it needs, is in error",
        ),
    ] {
        let script = format!(in alloc; "{TWO}{more}")?;
        let mut tree = tree_of(alloc, "a.script", script.as_bytes())?;
        assert_eq!(rt;
            line(alloc, &["drive", "a.script"], &mut tree)?.as_str(),
            text
        );
    }
    Ok(())
}

/// The query is the word at fault, and its first 200 bytes are shown.
#[test]
fn what_is_told_of_a_query(rt: HostRuntime) -> Result<(), Fail> {
    let alloc = rt.alloc();
    let query = "\u{e4}".repeat(alloc, 8_193)?;
    let words = ["load", "wiki.toml", "-", "-", query.as_str()];
    let mut tree = tree_of(alloc, "wiki.toml", b"")?;
    let shown = "\u{e4}".repeat(alloc, 100)?;
    let text = format!(in alloc;
        "\"{shown}\u{2026}\": 16386 bytes in the query, and there may be 16384"
    )?;
    assert_eq!(rt; line(alloc, &words, &mut tree)?, text);
    Ok(())
}
