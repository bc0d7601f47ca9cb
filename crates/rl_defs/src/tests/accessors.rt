//! What a catalogue that was read tells.
use crate::{Catalog, Language, ModuleDef};
use rl_names::{Name, Text};
use std::alloc::Global;
use std::test::Fail;

/// A wiki, behind a byte order mark.
const WIKI: &str = "\u{feff}
[wiki]
admins = ['Root', '_Ann__B ', 'Root']
skins = ['vector', 'monobook']
limit = 1500
storeVersion = 3
[files]
'b.js' = 'b()'
'a.js' = \"a(\\\"\\u2028\\\\\\U0001d49e\\\")\"
[modules.'b.x']
scripts = ['b.js', 'a.js', 'b.js']
dependencies = ['site', 'a', 'site']
group = 'late'
skip = 'promise'
[modules.a]
";

/// Texts, each behind a blank.
fn texts(alloc: Global, texts: &[Text]) -> Result<String, Fail> {
    let mut out = String::new(alloc);
    for text in texts {
        out.push_str(" ")?;
        out.push_str(text.as_str())?;
    }
    Ok(out)
}

/// Names, each behind a blank.
fn names(alloc: Global, names: &[Name]) -> Result<String, Fail> {
    let mut out = String::new(alloc);
    for name in names {
        out.push_str(" ")?;
        out.push_str(name.as_str())?;
    }
    Ok(out)
}

/// A line that says all of a module.
fn module_line(alloc: Global, module: &ModuleDef) -> Result<String, Fail> {
    let name = module.name.as_str();
    let scripts = texts(alloc, module.scripts.as_slice())?;
    let needs = names(alloc, module.dependencies.as_slice())?;
    let group = module.group.as_str();
    let source = module.source.as_str();
    let skip = module.skip.as_ref().map_or("-", |skip| skip.as_str());
    Ok(format!(in alloc; "{name}:{scripts};{needs};{group};{source};{skip}\n")?)
}

/// The lines of all modules.
fn module_lines(alloc: Global, catalog: &Catalog) -> Result<String, Fail> {
    let mut out = String::new(alloc);
    for at in 0..catalog.module_count() {
        let line = module_line(alloc, catalog.module_at(at))?;
        out.push_str(line.as_str())?;
    }
    Ok(out)
}

/// The codes of the languages, each behind a blank.
fn codes(alloc: Global, languages: &[Language]) -> Result<String, Fail> {
    let mut out = String::new(alloc);
    for language in languages {
        out.push_str(" ")?;
        out.push_str(language.code.as_str())?;
    }
    Ok(out)
}

/// What is known of a wiki and of its modules.
fn described(alloc: Global, file: &str) -> Result<String, Fail> {
    let catalog = Catalog::read(alloc, file.as_bytes())?;
    let admins = texts(alloc, catalog.admins())?;
    let skins = texts(alloc, catalog.skins())?;
    let languages = codes(alloc, catalog.languages())?;
    let limit = catalog.limit();
    let version = catalog.store_version();
    let modules = module_lines(alloc, &catalog)?;
    Ok(format!(in alloc; "{admins};{skins};{languages};{limit};{version}\n{modules}")?)
}

/// Files, and what is known from them.
const DESCRIBED: [(&str, &str); 4] = [
    (
        WIKI,
        " Root Ann B Root; vector monobook; en;1500;3\n\
a:;;;local;-\n\
b.x: b.js a.js b.js; site a site;late;local;promise\n",
    ),
    ("", ";; en;2000;1\n"),
    ("\u{feff}[wiki]", ";; en;2000;1\n"),
    ("[modules]\n[files]\n", ";; en;2000;1\n"),
];

#[test]
fn what_files_say(rt: HostRuntime) -> Result<(), Fail> {
    for (file, wanted) in &DESCRIBED {
        assert_eq!(rt; described(rt.alloc(), file)?.as_str(), *wanted);
    }
    Ok(())
}

/// A name, the text of the file of that name, or a dash, and the place of the module of that name,
/// or 9.
const FOUND: [(&[u8], &str, u32); 8] = [
    (b"a.js", "a(\"\u{2028}\\\u{1d49e}\")", 9),
    (b"b.js", "b()", 9),
    (b"a", "-", 0),
    (b"b.x", "-", 1),
    (b"b", "-", 9),
    (b"site", "-", 9),
    (b"", "-", 9),
    (b"a.js\xff", "-", 9),
];

#[test]
fn what_is_found(rt: HostRuntime) -> Result<(), Fail> {
    let catalog = Catalog::read(rt.alloc(), WIKI.as_bytes())?;
    for (name, text, place) in &FOUND {
        assert!(rt; catalog.file(name).unwrap_or(b"-") == text.as_bytes());
        assert!(rt; catalog.find(name).unwrap_or(9) == *place);
    }
    assert!(rt; catalog.file_text("b.js").unwrap_or("-") == "b()");
    assert!(rt; catalog.file_text("b.jsx").is_none());
    Ok(())
}
