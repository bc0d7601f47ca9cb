//! What no clause says: worked examples, with ample memory.
ghost use Rattle.std.specs.Prelude.{IfOk, IfSome};
ghost use Rattle.rl_wire.specs.Message.{AreAscending};

use crate::{BuiltIn, Context, Payload, Sheet, group_and_source, names, payload, sheet, version};
use rl_defs::Catalog;
use rl_names::{NoMemory, Text};
use rl_pages::{Pages, Viewer};
use std::alloc::Global;
use std::test::Fail;

const WIKI: &str = r#"
[wiki]
skins = ["vector"]
[files]
"a.js" = "a()"
"b.js" = "b()"
"empty.js" = ""
"quoted.js" = "s(\"\\\\\\\"\t\u2028</script>\U0001D49E\")"
"control.js" = "\u0000\u0001\u001F\u007F\b\f\r\n"
[modules.a]
scripts = ["a.js"]
[modules.b]
scripts = ["b.js"]
group = "late"
dependencies = ["site", "a", "site", "a.both", "a"]
skip = "promise"
[modules."a.both"]
scripts = ["a.js", "b.js", "a.js", "a.js"]
[modules.none]
[modules.empty]
scripts = ["empty.js", "empty.js"]
[modules.p]
scripts = ["a.js"]
group = "private"
[modules.quoted]
scripts = ["quoted.js"]
[modules.control]
scripts = ["control.js"]
"#;

/// What is asked for, and the language and the skin that it becomes.
const CONTEXTS: [(&[u8], &[u8], &str, &str); 5] = [
    (b"en", b"vector", "en", "vector"),
    (b"qqx", b"fallback", "qqx", "fallback"),
    (b"", b"", "qqx", "fallback"),
    (b"de", b"monobook", "qqx", "fallback"),
    (b"en\xff", b"Vector", "qqx", "fallback"),
];

#[test]
fn contexts(rt: HostRuntime) -> Result<(), Fail> {
    let alloc = rt.alloc();
    let catalog = Catalog::read(alloc, WIKI.as_bytes())?;
    for (lang, skin, wanted_lang, wanted_skin) in &CONTEXTS {
        let ctx = Context::read(alloc, &catalog, lang, skin, true)?;
        assert_eq!(rt; ctx.lang.as_str(), *wanted_lang);
        assert_eq!(rt; ctx.skin.as_str(), *wanted_skin);
        assert!(rt; ctx.debug);
    }
    Ok(())
}

/// The context of a person who reads English.
fn english(alloc: Global, catalog: &Catalog) -> Result<Context, Fail> {
    Ok(Context::read(alloc, catalog, b"en", b"vector", false)?)
}

/// What a name brings to nobody by a wiki without pages.
fn payload_of(
    alloc: Global,
    catalog: &Catalog,
    ctx: &Context,
    name: &[u8],
) -> Result<Option<Payload>, NoMemory>
    ensures { IfOk result (λ found. IfSome found (λ p. AreAscending p.messages)) }
{
    let pages = Pages::empty(alloc)?;
    payload(alloc, catalog, &pages, &Viewer::Anon, ctx, name)
}

/// The sheet of a name for nobody by a wiki without pages.
fn sheet_of(
    alloc: Global,
    catalog: &Catalog,
    ctx: &Context,
    name: &[u8],
) -> Result<Option<Sheet>, NoMemory> {
    let pages = Pages::empty(alloc)?;
    sheet(alloc, catalog, &pages, &Viewer::Anon, ctx, name)
}

/// What a name brings in a line: the version, the styles, the number of messages and the script.
fn brought(alloc: Global, catalog: &Catalog, name: &[u8]) -> Result<String, Fail> {
    let ctx = english(alloc, catalog)?;
    let Some(payload) = payload_of(alloc, catalog, &ctx, name)? else {
        return Ok(String::from_str(alloc, "nothing")?);
    };
    let version = version(alloc, &payload)?;
    let (version, styles) = (version.as_str(), payload.styles.as_str());
    let (messages, script) = (payload.messages.as_slice().len(), payload.script.as_str());
    Ok(format!(in alloc; "{version} [{styles}] {messages} {script}")?)
}

/// A name, and what it brings. The version is the hash of the JSON array of the script and two
/// empty objects.
const PAYLOADS: [(&[u8], &str); 14] = [
    (b"a", "96okj [] 0 a()\n"),
    (b"b", "wn61g [] 0 b()\n"),
    (b"none", "186z7 [] 0 "),
    (b"p", "96okj [] 0 a()\n"),
    (b"a.both", "8qigq [] 0 a()\nb()\n"),
    (b"empty", "423vz [] 0 \n"),
    (
        b"quoted",
        "18c9r [] 0 s(\"\\\\\\\"\t\u{2028}</script>\u{1d49e}\")\n",
    ),
    (b"control", "1vsjo [] 0 \0\u{1}\u{1f}\u{7f}\u{8}\u{c}\r\n\n"),
    (b"zz", "nothing"),
    (b"", "nothing"),
    (b"A", "nothing"),
    (b"site", "186z7 [] 0 "),
    (b"user.options", "fie8b [] 0 mw.user.options.set({});\n"),
    (b"a\xff", "nothing"),
];

#[test]
fn payloads(rt: HostRuntime) -> Result<(), Fail> {
    let catalog = Catalog::read(rt.alloc(), WIKI.as_bytes())?;
    for (name, wanted) in &PAYLOADS {
        assert_eq!(rt; brought(rt.alloc(), &catalog, name)?.as_str(), *wanted);
    }
    Ok(())
}

/// Texts, each behind a blank.
fn texts(alloc: Global, texts: &[Text]) -> Result<String, Fail> {
    let mut out = String::new(alloc);
    for text in texts {
        out.push_str(" ")?;
        out.push_str(text.as_str())?;
    }
    Ok(out)
}

/// A sheet in a line: the group and the source, the dependencies, and the skip.
fn sheet_line(alloc: Global, catalog: &Catalog, name: &[u8]) -> Result<String, Fail> {
    let ctx = english(alloc, catalog)?;
    let Some(sheet) = sheet_of(alloc, catalog, &ctx, name)? else {
        return Ok(String::from_str(alloc, "nothing")?);
    };
    let deps = texts(alloc, sheet.deps.as_slice())?;
    let (group, source) = (sheet.group.as_str(), sheet.source.as_str());
    let skip = sheet.skip.as_ref().map_or("-", |skip| skip.as_str());
    Ok(format!(in alloc; "[{group}] {source};{deps};{skip}")?)
}

/// A name, and what its sheet says.
const SHEETS: [(&[u8], &str); 8] = [
    (b"a", "[] local;;-"),
    (b"b", "[late] local; site a a.both;promise"),
    (b"p", "[private] local;;-"),
    (b"zz", "nothing"),
    (b"", "nothing"),
    (b"site", "[] local; site.styles;-"),
    (b"user.options", "[private] local;;-"),
    (b"a\xff", "nothing"),
];

#[test]
fn sheets(rt: HostRuntime) -> Result<(), Fail> {
    let catalog = Catalog::read(rt.alloc(), WIKI.as_bytes())?;
    for (name, wanted) in &SHEETS {
        assert_eq!(rt; sheet_line(rt.alloc(), &catalog, name)?.as_str(), *wanted);
    }
    Ok(())
}

/// A name with its group and its source.
const GROUPS: [(&[u8], &str, &str); 9] = [
    (b"a", "", "local"),
    (b"b", "late", "local"),
    (b"p", "private", "local"),
    (b"zz", "-", "-"),
    (b"site", "", "local"),
    (b"site.styles", "site", "local"),
    (b"user", "user", "local"),
    (b"user.styles", "user", "local"),
    (b"user.options", "private", "local"),
];

#[test]
fn groups_and_sources(rt: HostRuntime) -> Result<(), Fail> {
    let catalog = Catalog::read(rt.alloc(), WIKI.as_bytes())?;
    let ctx = english(rt.alloc(), &catalog)?;
    let pages = Pages::empty(rt.alloc())?;
    for (name, group, source) in &GROUPS {
        let found = group_and_source(&catalog, &pages, &Viewer::Anon, &ctx, name).unwrap_or((
            "-", "-",
        ));
        assert!(rt; found.0 == *group);
        assert!(rt; found.1 == *source);
    }
    Ok(())
}

/// The names with a sheet, each behind a blank.
fn all_names(alloc: Global, catalog: &Catalog) -> Result<String, Fail> {
    let ctx = english(alloc, catalog)?;
    let mut out = String::new(alloc);
    let pages = Pages::empty(alloc)?;
    for name in &names(alloc, catalog, &pages, &Viewer::Anon, &ctx)? {
        out.push_str(" ")?;
        out.push_str(name.as_str())?;
    }
    Ok(out)
}

#[test]
fn names_in_order(rt: HostRuntime) -> Result<(), Fail> {
    let catalog = Catalog::read(rt.alloc(), WIKI.as_bytes())?;
    let wanted =
        " a a.both b control empty none p quoted site site.styles user user.options user.styles";
    assert_eq!(rt; all_names(rt.alloc(), &catalog)?.as_str(), wanted);
    Ok(())
}

#[test]
fn built_in_modules(rt: HostRuntime) -> Result<(), Fail> {
    assert!(rt; BuiltIn::named(b"site.styles") == Some(BuiltIn::SiteStyles));
    assert!(rt; BuiltIn::named(b"user.options") == Some(BuiltIn::UserOptions));
    assert!(rt; BuiltIn::named(b"site.") == None);
    assert!(rt; BuiltIn::UserStyles.name() == "user.styles");
    assert!(rt; BuiltIn::UserStyles.group() == "user");
    Ok(())
}
