//! What an author is told of a wiki.
use crate::{Status, run};
use rl_base::{MemSink, MemTree};
use rl_names::{Blob, NoMemory, Text};
use std::alloc::Global;
use std::test::Fail;

const WIKI: &str = r#"
[wiki]
admins = ["Root"]
skins = ["vector", "monobook"]
[modules.a]
[modules.b]
"#;

/// Definitions and pages.
fn tree(alloc: Global, definitions: &str, pages: &str) -> Result<MemTree, NoMemory> {
    let mut files = Vec::new(alloc);
    files.push((
        Text::of(alloc, "a.toml")?,
        Blob::of(alloc, definitions.as_bytes())?,
    ))?;
    files.push((
        Text::of(alloc, "a.pages")?,
        Blob::of(alloc, pages.as_bytes())?,
    ))?;
    MemTree::new(alloc, files, Vec::new(alloc))
}

/// Whether `check` ends so and writes this text.
fn is_told(alloc: Global, files: &[&str; 3], status: Status, text: &str) -> Result<bool, Fail> {
    let [definitions, pages, word] = files;
    let mut tree = tree(alloc, definitions, pages)?;
    let mut out = MemSink::new(alloc, Vec::new(alloc))?;
    let ended = run(
        alloc,
        &["check", "a.toml", word],
        &mut tree,
        &mut out,
        Vec::new(alloc),
    );
    Ok(ended.status == status && out.written() == text.as_bytes())
}

/// A gadget that is on for everybody; one without the option that it needs; a heading; one for those who choose it; and one
/// of a page that is neither a script nor a style.
const PAGES: &str =
    r#"["edit","Root","MediaWiki:Gadgets-definition",0,"* Hot Cat[ResourceLoader|default]|hc.js\n* Old|old.js\n== More ==\n* Good[ResourceLoader]|g.js|g.css\n* Late[ResourceLoader]|late.txt"]"#;

const TOLD: &str = "modules 2
languages 1
skins 2
gadget ext.gadget.Hot_Cat default
gadget ext.gadget.Good
passed 2
passed 5
";

#[test]
fn gadgets_of_pages(rt: HostRuntime) -> Result<(), Fail> {
    let alloc = rt.alloc();
    let plain = "modules 2\nlanguages 1\nskins 2\n";
    assert!(rt; is_told(alloc, &[WIKI, PAGES, "a.pages"], Status::Done, TOLD)?);
    assert!(rt; is_told(alloc, &[WIKI, PAGES, "-"], Status::Done, plain)?);
    Ok(())
}

#[test]
fn faults_of_files(rt: HostRuntime) -> Result<(), Fail> {
    let alloc = rt.alloc();
    let (word, line, why) = (2, 1, 1);
    assert!(rt;
        is_told(
            alloc,
            &[WIKI, "[", "a.pages"],
            Status::BadInput { word, line, why },
            ""
        )?
    );
    assert!(rt; is_told(alloc, &[WIKI, "", "b.pages"], Status::ReadFault, "")?);
    Ok(())
}
