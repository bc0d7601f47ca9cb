//! Answers as they are worked out by hand, and each refusal at its limit.

use crate::{Answer, AnswerError, Kind, answer, embed, read_context, read_query};
use rl_build::Context;
use rl_defs::Catalog;
use rl_names::Text;
use rl_pages::{Pages, Viewer};
use std::alloc::Global;
use std::test::Fail;

const WIKI: &str = r#"
[wiki]
skins = ["vector"]
[files]
"a.js" = "a()"
"b.js" = "b()"
[modules.a]
scripts = ["a.js"]
[modules.b]
scripts = ["b.js"]
group = "late"
[modules.both]
scripts = ["b.js", "a.js", "b.js"]
[modules.none]
[modules.p]
scripts = ["a.js"]
group = "private"
[modules.own]
scripts = ["a.js"]
group = "user"
"#;

/// Queries, each with the body and the kind of its answer.
const BODIES: [(&str, Kind, &str); 19] = [
    (
        "modules=a,zz,b,a",
        Kind::Script,
        "mw.loader.implement(\"a@96okj\",\"a()\\n\",{},{});\n\
mw.loader.implement(\"b@wn61g\",\"b()\\n\",{},{});\n\
mw.loader.state({\"zz\":\"missing\"});\n",
    ),
    (
        "modules=none|both",
        Kind::Script,
        "mw.loader.implement(\"none@186z7\",\"\",{},{});\n\
mw.loader.implement(\"both@s5ptl\",\"b()\\na()\\n\",{},{});\n",
    ),
    (
        "modules=p",
        Kind::Script,
        "mw.loader.state({\"p\":\"missing\"});\n",
    ),
    (
        "modules=own",
        Kind::Script,
        "mw.loader.implement(\"own@96okj\",\"a()\\n\",{},{});\n",
    ),
    (
        "modules=own&user=Ben",
        Kind::Script,
        "mw.loader.state({\"own\":\"missing\"});\n",
    ),
    (
        "modules=own&user=_",
        Kind::Script,
        "mw.loader.state({\"own\":\"missing\"});\n",
    ),
    (
        "modules=startup|site|ext.gadget.x",
        Kind::Script,
        "mw.loader.implement(\"site@186z7\",\"\",{},{});\n\
mw.loader.state({\"startup\":\"missing\"});\n\
mw.loader.state({\"ext.gadget.x\":\"missing\"});\n",
    ),
    (
        "modules=b,zz,a,p&only=scripts",
        Kind::Script,
        "b()\na()\n\
mw.loader.state({\"b\":\"ready\"});\n\
mw.loader.state({\"a\":\"ready\"});\n\
mw.loader.state({\"zz\":\"missing\"});\n\
mw.loader.state({\"p\":\"missing\"});\n",
    ),
    (
        "modules=startup&only=scripts",
        Kind::Script,
        "mw.loader.state({\"startup\":\"missing\"});\n",
    ),
    ("modules=b,zz&only=styles", Kind::Style, ""),
    (
        "modules=a&only=x",
        Kind::Script,
        "mw.loader.implement(\"a@96okj\",\"a()\\n\",{},{});\n",
    ),
    (
        "only=styles&modules=b&modules=a&only=",
        Kind::Script,
        "mw.loader.implement(\"a@96okj\",\"a()\\n\",{},{});\n",
    ),
    (
        "modules=a&debug=true&lang=xx&skin=yy",
        Kind::Script,
        "mw.loader.implement(\"a@96okj\",\"a()\\n\",{},{});\n",
    ),
    (
        "modules=%FFa%2Cb",
        Kind::Script,
        "mw.loader.implement(\"b@wn61g\",\"b()\\n\",{},{});\n\
mw.loader.state({\"\u{fffd}a\":\"missing\"});\n",
    ),
    (
        "modules=%22,a+b",
        Kind::Script,
        "mw.loader.state({\"\\\"\":\"missing\"});\n\
mw.loader.state({\"a b\":\"missing\"});\n",
    ),
    ("", Kind::Script, "mw.loader.state({\"\":\"missing\"});\n"),
    (
        "modules=&lang=en",
        Kind::Script,
        "mw.loader.state({\"\":\"missing\"});\n",
    ),
    (
        "modules=a,,|",
        Kind::Script,
        "mw.loader.implement(\"a@96okj\",\"a()\\n\",{},{});\n\
mw.loader.state({\"\":\"missing\"});\n",
    ),
    (
        "modules=a,b.c",
        Kind::Script,
        "mw.loader.state({\"a,b.c\":\"missing\"});\n",
    ),
];

/// What nobody is answered by a wiki without pages.
fn asked(alloc: Global, catalog: &Catalog, query: &str) -> Result<Answer, AnswerError> {
    let pages = Pages::empty(alloc)?;
    answer(alloc, catalog, &pages, &Viewer::Anon, query.as_bytes())
}

fn answered(alloc: Global, query: &str) -> Result<Answer, Fail> {
    let catalog = Catalog::read(alloc, WIKI.as_bytes())?;
    Ok(asked(alloc, &catalog, query)?)
}

#[test]
fn bodies(rt: HostRuntime) -> Result<(), Fail> {
    for (query, kind, body) in BODIES {
        let answer = answered(rt.alloc(), query)?;
        assert_eq!(rt; answer.body.as_str(), body, "{query}");
        assert_eq!(rt; answer.kind, kind, "{query}");
    }
    Ok(())
}

/// What is embedded in a page of nobody, by a wiki without pages.
fn embedded(alloc: Global) -> Result<Text, Fail> {
    let catalog = Catalog::read(alloc, WIKI.as_bytes())?;
    let pages = Pages::empty(alloc)?;
    let ctx = Context::read(alloc, &catalog, b"en", b"vector", false)?;
    Ok(embed(alloc, &catalog, &pages, &Viewer::Anon, &ctx)?)
}

#[test]
fn private_modules(rt: HostRuntime) -> Result<(), Fail> {
    let text = embedded(rt.alloc())?;
    assert_eq!(rt;
        text.as_str(),
        "mw.loader.implement(\"p@96okj\",\"a()\\n\",{},{});\n\
mw.loader.implement(\"user.options@fie8b\",\"mw.user.options.set({});\\n\",{},{});\n"
    );
    Ok(())
}

/// Queries, each with the age of its answer and whether the answer is private. The combined version
/// of `b` and `a` is `c436e`, and that of `a` and `b` is `45en3`.
const AGES: [(&str, u32, bool); 12] = [
    ("modules=b,a", 300, false),
    ("modules=b,a&version=c436e", 2_592_000, false),
    ("modules=b,a&version=45en3", 300, false),
    ("modules=a,b&version=45en3", 2_592_000, false),
    ("modules=b,zz,a,p,b&version=c436e", 2_592_000, false),
    ("modules=b,a&version=c436e&only=scripts", 2_592_000, false),
    ("modules=b,a&version=c436e&only=styles", 2_592_000, false),
    ("modules=b,a&version=45en3&only=styles", 300, false),
    ("modules=a&version=96okj", 300, false),
    ("modules=a&version=dq908&user=Ben", 2_592_000, true),
    ("modules=zz&version=ztntf", 2_592_000, false),
    ("modules=zz&version=&user=_", 300, true),
];

#[test]
fn ages(rt: HostRuntime) -> Result<(), Fail> {
    for (query, max_age, private) in AGES {
        let answer = answered(rt.alloc(), query)?;
        assert_eq!(rt; answer.max_age, max_age, "{query}");
        assert_eq!(rt; answer.private, private, "{query}");
    }
    Ok(())
}

#[test]
fn contexts(rt: HostRuntime) -> Result<(), Fail> {
    let alloc = rt.alloc();
    let catalog = Catalog::read(alloc, WIKI.as_bytes())?;
    for (query, lang, skin, debug) in [
        ("lang=en&skin=vector&debug=1", "en", "vector", true),
        ("lang=xx&skin=Vector&debug=yes", "qqx", "fallback", false),
        ("lang=en&lang=&debug=2&debug=", "qqx", "fallback", false),
    ] {
        let query = read_query(alloc, query.as_bytes())?;
        let ctx = read_context(alloc, &catalog, &query)?;
        assert_eq!(rt; ctx.lang.as_str(), lang);
        assert_eq!(rt; ctx.skin.as_str(), skin);
        assert_eq!(rt; ctx.debug, debug);
    }
    Ok(())
}

/// `modules=a`, and a piece so many times behind it.
fn long_query(alloc: Global, piece: &str, times: usize) -> Result<String, Fail> {
    let pieces = piece.repeat(alloc, times)?;
    Ok(format!(in alloc; "modules=a{pieces}")?)
}

/// How many bytes the answer has, or why there is none.
fn length(alloc: Global, catalog: &Catalog, query: &str) -> Result<usize, AnswerError> {
    let answer = asked(alloc, catalog, query)?;
    Ok(answer.body.as_str().len())
}

#[test]
fn long_queries(rt: HostRuntime) -> Result<(), Fail> {
    let alloc = rt.alloc();
    let catalog = Catalog::read(alloc, WIKI.as_bytes())?;
    for (piece, times, answered) in [
        ("&", 16_375, Ok(46)),
        ("&", 16_376, Err(AnswerError::QueryTooLong { len: 16_385 })),
        (",a", 999, Ok(46)),
        (",a", 1_000, Err(AnswerError::TooManyNames { count: 1_001 })),
        ("|a,a", 500, Err(AnswerError::TooManyNames { count: 1_001 })),
        (
            ",",
            16_375,
            Err(AnswerError::TooManyNames { count: 16_376 }),
        ),
        (",", 16_376, Err(AnswerError::QueryTooLong { len: 16_385 })),
    ] {
        let query = long_query(alloc, piece, times)?;
        assert_eq!(rt;
            length(alloc, &catalog, query.as_str()),
            answered,
            "{piece}"
        );
    }
    Ok(())
}

/// 64 modules, named by their numbers from 10 on, which list one file of 1 MiB: as many bytes as
/// modules may list together.
fn large_wiki(alloc: Global) -> Result<Catalog, Fail> {
    let text = "x".repeat(alloc, 1_048_576)?;
    let mut definitions = format!(in alloc; "[files]\nx = '{text}'\n")?;
    for number in 10..74 {
        let module = format!(in alloc; "[modules.{number}]\nscripts = ['x']\n")?;
        definitions.push_str(module.as_str())?;
    }
    Ok(Catalog::read(alloc, definitions.as_bytes())?)
}

/// The line of each of these modules has 44 bytes beside those of the file.
#[test]
fn long_answers(rt: HostRuntime) -> Result<(), Fail> {
    let alloc = rt.alloc();
    let catalog = large_wiki(alloc)?;
    let mut query = String::from_str(alloc, "modules=10")?;
    for number in 11..74 {
        query.push_str(format!(in alloc; ",{number}")?.as_str())?;
    }
    assert_eq!(rt;
        length(alloc, &catalog, query.as_str()),
        Err(AnswerError::AnswerTooLong {
            len: 64 * (1_048_576 + 44)
        })
    );
    Ok(())
}
