//! Queries that are answered, refused definitions, and answers that are too long.
use super::tree_of;
use crate::{Status, run};
use rl_base::{MemSink, MemTree};
use rl_names::{Blob, Counted, Text};
use std::alloc::Global;
use std::test::Fail;

const SHORT: &str = r#"
[wiki]
admins = ["Root"]
skins = ["vector"]
[files]
"a.js" = "a()"
"b.js" = "b()"
[modules.a]
scripts = ["a.js"]
[modules.b]
scripts = ["b.js"]
group = "late"
[modules.p]
scripts = ["a.js"]
group = "private"
"#;

/// What a command answers and writes for definitions.
fn written(alloc: Global, definitions: &str, words: &[&str]) -> Result<(Status, Vec<u8>), Fail> {
    let mut tree = tree_of(alloc, "a.toml", definitions.as_bytes())?;
    let mut out = MemSink::new(alloc, Vec::new(alloc))?;
    let ended = run(alloc, words, &mut tree, &mut out, Vec::new(alloc));
    Ok((ended.status, Vec::from_slice(alloc, out.written())?))
}

/// What `load` answers and writes for definitions and a query.
fn loaded(alloc: Global, definitions: &str, query: &str) -> Result<(Status, Vec<u8>), Fail> {
    written(alloc, definitions, &["load", "a.toml", "-", "-", query])
}

/// `modules=a`, repeated names apart, and so many bytes more.
fn long_query(alloc: Global, piece: &str, times: usize) -> Result<String, Fail> {
    let mut query = String::from_str(alloc, "modules=a")?;
    for _ in 0..times {
        query.push_str(piece)?;
    }
    Ok(query)
}

const A: &str = "mw.loader.implement(\"a@96okj\",\"a()\\n\",{},{});\n";

#[test]
fn answered(rt: HostRuntime) -> Result<(), Fail> {
    let alloc = rt.alloc();
    for (query, body) in [
        (
            "modules=a,zz,b,a",
            "mw.loader.implement(\"a@96okj\",\"a()\\n\",{},{});\n\
mw.loader.implement(\"b@wn61g\",\"b()\\n\",{},{});\n\
mw.loader.state({\"zz\":\"missing\"});\n",
        ),
        ("modules=p", "mw.loader.state({\"p\":\"missing\"});\n"),
        ("modules=a&only=styles", ""),
    ] {
        let (ended, written) = loaded(alloc, SHORT, query)?;
        assert_eq!(rt; ended, Status::Done, "{query}");
        assert_eq!(rt; written.as_slice(), body.as_bytes(), "{query}");
    }
    Ok(())
}

#[test]
fn at_limits(rt: HostRuntime) -> Result<(), Fail> {
    let alloc = rt.alloc();
    let longest = long_query(alloc, "&", 16_375)?;
    let longer = long_query(alloc, "&", 16_376)?;
    let many = long_query(alloc, ",a", 999)?;
    let more = long_query(alloc, ",a", 1_000)?;
    let (ended, written) = loaded(alloc, SHORT, longest.as_str())?;
    assert_eq!(rt; ended, Status::Done, "16384 bytes");
    assert_eq!(rt; written.as_slice(), A.as_bytes(), "16384 bytes");
    let (ended, _) = loaded(alloc, SHORT, longer.as_str())?;
    assert_eq!(rt;
        ended,
        Status::TooLarge {
            what: Counted::QueryBytes,
            count: 16_385
        }
    );
    let (ended, written) = loaded(alloc, SHORT, many.as_str())?;
    assert_eq!(rt; ended, Status::Done, "1000 names");
    assert_eq!(rt; written.as_slice(), A.as_bytes(), "1000 names");
    let (ended, _) = loaded(alloc, SHORT, more.as_str())?;
    assert_eq!(rt;
        ended,
        Status::TooLarge {
            what: Counted::Names,
            count: 1_001
        }
    );
    let (ended, _) = loaded(alloc, "[", longer.as_str())?;
    assert_eq!(rt;
        ended,
        Status::BadInput {
            word: 1,
            line: 0,
            why: 11
        },
        "bad definitions come first"
    );
    Ok(())
}

#[test]
fn refused_definitions(rt: HostRuntime) -> Result<(), Fail> {
    let alloc = rt.alloc();
    for (definitions, why) in [
        ("[", 11),
        ("[modules.a]\nx = 1", 12),
        ("[modules.user]", 13),
        ("[modules.a]\ndependencies = [\"zz\"]", 14),
        ("[modules.a]\nscripts = [\"q.js\"]", 15),
        ("[modules.a]\nsource = \"other\"", 18),
    ] {
        let (ended, written) = loaded(alloc, definitions, "modules=a")?;
        assert_eq!(rt;
            ended,
            Status::BadInput {
                word: 1,
                line: 0,
                why
            },
            "{definitions}"
        );
        assert!(rt; written.is_empty(), "{definitions}");
    }
    Ok(())
}

/// Definitions of 64 modules, named by their numbers from 10 on, which list one file of 1 MiB: as many
/// bytes as modules may list together.
fn large_wiki(alloc: Global) -> Result<String, Fail> {
    let text = "x".repeat(alloc, 1_048_576)?;
    let mut definitions = format!(in alloc; "[files]\nx = '{text}'\n")?;
    for number in 10..74 {
        let module = format!(in alloc; "[modules.{number}]\nscripts = ['x']\n")?;
        definitions.push_str(module.as_str())?;
    }
    Ok(definitions)
}

/// The line of each of these modules has 44 bytes beside those of the file.
#[test]
fn large_answer(rt: HostRuntime) -> Result<(), Fail> {
    let alloc = rt.alloc();
    let mut query = String::from_str(alloc, "modules=10")?;
    for number in 11..74 {
        query.push_str(format!(in alloc; ",{number}")?.as_str())?;
    }
    let definitions = large_wiki(alloc)?;
    let (ended, written) = loaded(alloc, definitions.as_str(), query.as_str())?;
    assert_eq!(rt;
        ended,
        Status::TooLarge {
            what: Counted::AnswerBytes,
            count: 64 * (1_048_576 + 44)
        }
    );
    assert!(rt; written.is_empty());
    Ok(())
}

const STARTUP: &str =
    "mw.loader.addSource({\"local\":\"/load.php\"});\nmw.loader.register([[\"a\",\"96okj\"],[\"b\",\"wn61g\",[],2],[\"p\",\"\",[],1],[\"site\",\"186z7\",[4]],[\"site.styles\",\"186z7\",[],3],[\"user\",\"186z7\",[],0],[\"user.options\",\"\",[],1],[\"user.styles\",\"186z7\",[],0]]);\n";

#[test]
fn startup_texts(rt: HostRuntime) -> Result<(), Fail> {
    let alloc = rt.alloc();
    for (definitions, status, text) in [
        (SHORT, Status::Done, STARTUP),
        (
            "[wiki",
            Status::BadInput {
                word: 1,
                line: 0,
                why: 11,
            },
            "",
        ),
    ] {
        let words = ["startup", "a.toml", "-", "-", "en", "vector"];
        let (ended, written) = written(alloc, definitions, &words)?;
        assert_eq!(rt; ended, status);
        assert_eq!(rt; written.as_slice(), text.as_bytes());
    }
    Ok(())
}

/// Edits by an admin and by Ann, of which the second is refused.
const PAGES: &[u8] = b"# pages of a wiki
[\"edit\",\"Root\",\"MediaWiki:Common.js\",0,\"one()\"]
[\"edit\",\"Ann\",\"MediaWiki:Common.js\",1,\"no()\"]
[\"edit\",\"Ann\",\"User:Ann/common.js\",0,\"ann()\"]
";

/// What `load` answers Ann and writes, over pages.
fn loaded_over(alloc: Global, pages: &[u8], query: &str) -> Result<(Status, Vec<u8>), Fail> {
    let mut files = Vec::new(alloc);
    files.push((
        Text::of(alloc, "a.toml")?,
        Blob::of(alloc, SHORT.as_bytes())?,
    ))?;
    files.push((Text::of(alloc, "a.pages")?, Blob::of(alloc, pages)?))?;
    let mut tree = MemTree::new(alloc, files, Vec::new(alloc))?;
    let mut out = MemSink::new(alloc, Vec::new(alloc))?;
    let words = ["load", "a.toml", "a.pages", "Ann", query];
    let ended = run(alloc, &words, &mut tree, &mut out, Vec::new(alloc));
    Ok((ended.status, Vec::from_slice(alloc, out.written())?))
}

#[test]
fn answered_over_pages(rt: HostRuntime) -> Result<(), Fail> {
    let alloc = rt.alloc();
    for (query, body) in [
        (
            "modules=site",
            "mw.loader.implement(\"site@waaz7\",\"one()\\n\",{},{});\n",
        ),
        (
            "modules=user&user=Ann",
            "mw.loader.implement(\"user@14t60\",\"ann()\\n\",{},{});\n",
        ),
        (
            "modules=user&user=Ben",
            "mw.loader.state({\"user\":\"missing\"});\n",
        ),
    ] {
        let (ended, written) = loaded_over(alloc, PAGES, query)?;
        assert_eq!(rt; ended, Status::Done, "{query}");
        assert_eq!(rt; written.as_slice(), body.as_bytes(), "{query}");
    }
    Ok(())
}

#[test]
fn pages_at_fault(rt: HostRuntime) -> Result<(), Fail> {
    let alloc = rt.alloc();
    for (pages, line, why) in [
        (b"# x\n[\"take\"]\n".as_slice(), 2, 2),
        (b"[\"edit\"]\n".as_slice(), 1, 1),
        (b"\xFF".as_slice(), 0, 4),
    ] {
        let (ended, written) = loaded_over(alloc, pages, "modules=a")?;
        assert_eq!(rt; ended, Status::BadInput { word: 2, line, why });
        assert!(rt; written.is_empty());
    }
    Ok(())
}
