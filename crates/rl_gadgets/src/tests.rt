//! Lines with ample memory.
use crate::gadget::Gadget;
use crate::line::gadget_in;
use crate::list::{GadgetList, read_gadgets};
use rl_names::{Name, Text, Title};
use std::alloc::Global;
use std::test::Fail;

/// A gadget in one text: its name, scripts, styles, dependencies, skins, and whether it is for all.
fn shown(alloc: Global, gadget: &Gadget) -> Result<String, Fail> {
    let name = gadget.name.as_str();
    let scripts = titles(alloc, gadget.scripts.as_slice())?;
    let styles = titles(alloc, gadget.styles.as_slice())?;
    let deps = names(alloc, gadget.deps.as_slice())?;
    let skins = texts(alloc, gadget.skins.as_slice())?;
    let for_all = gadget.for_all;
    Ok(format!(in alloc; "{name} {scripts} {styles} {deps} {skins} {for_all}")?)
}

fn titles(alloc: Global, titles: &[Title]) -> Result<String, Fail> {
    let mut out = String::new(alloc);
    for title in titles {
        out.push_str(title.as_str())?;
        out.push(';')?;
    }
    Ok(out)
}

fn names(alloc: Global, names: &[Name]) -> Result<String, Fail> {
    let mut out = String::new(alloc);
    for name in names {
        out.push_str(name.as_str())?;
        out.push(';')?;
    }
    Ok(out)
}

fn texts(alloc: Global, texts: &[Text]) -> Result<String, Fail> {
    let mut out = String::new(alloc);
    for text in texts {
        out.push_str(text.as_str())?;
        out.push(';')?;
    }
    Ok(out)
}

/// What a line comes to.
fn line(alloc: Global, text: &str) -> Result<String, Fail> {
    match gadget_in(alloc, 1, text)? {
        Some(gadget) => shown(alloc, &gadget),
        None => Ok(String::from_str(alloc, "-")?),
    }
}

#[test]
fn lines(rt: HostRuntime) -> Result<(), Fail> {
    let alloc = rt.alloc();
    for (text, want) in [
        (
            "Hot Cat [ResourceLoader|default|dependencies=a,m] | HotCat.js | HotCat.css",
            "ext.gadget.Hot_Cat MediaWiki:Gadget-HotCat.js; MediaWiki:Gadget-HotCat.css; a;m;  true",
        ),
        (
            "A[ ResourceLoader |dependencies=b|skins=x, y|dependencies= c |Default]|A_b.js|A b.js|A.png",
            "ext.gadget.A MediaWiki:Gadget-A b.js;  c; x;y; false",
        ),
        (
            "[ResourceLoader]|A.css",
            "ext.gadget.  MediaWiki:Gadget-A.css;   false",
        ),
        ("Old | Old.js", "-"),
        ("A [ResourceLoader | A.js", "-"),
        ("A [ResourceLoader] x | A.js", "-"),
        ("A [ResourceLoader] | A.png", "-"),
        ("A [ResourceLoader] | A#.js", "-"),
        ("A [ResourceLoader|dependencies=] | A.js", "-"),
        ("A! [ResourceLoader] | A.js", "-"),
    ] {
        let got = line(alloc, text)?;
        assert_eq!(rt; got.as_str(), want, "at {text}");
    }
    Ok(())
}

/// The names and lines of the rows, and the numbers of the lines passed over.
fn told(alloc: Global, list: &GadgetList) -> Result<String, Fail> {
    let mut out = String::new(alloc);
    for row in list.rows.as_slice() {
        let name = row.name.as_str();
        let line = row.line;
        let row = format!(in alloc; "{name}:{line} ")?;
        out.push_str(row.as_str())?;
    }
    for number in list.passed.as_slice() {
        let number = format!(in alloc; "-{number} ")?;
        out.push_str(number.as_str())?;
    }
    Ok(out)
}

fn read(alloc: Global, page: &str) -> Result<String, Fail> {
    let list = read_gadgets(alloc, page.as_bytes())?;
    told(alloc, &list)
}

/// How many rows there are, and how many lines were passed over.
fn counts(alloc: Global, page: &str) -> Result<(usize, usize), Fail> {
    let list = read_gadgets(alloc, page.as_bytes())?;
    Ok((list.rows.as_slice().len(), list.passed.as_slice().len()))
}

/// A page of so many gadgets.
fn page_of(alloc: Global, count: u32) -> Result<String, Fail> {
    let mut page = String::new(alloc);
    for n in 0..count {
        let line = format!(in alloc; "*g{n}[ResourceLoader]|a.js\n")?;
        page.push_str(line.as_str())?;
    }
    Ok(page)
}

#[test]
fn pages(rt: HostRuntime) -> Result<(), Fail> {
    let alloc = rt.alloc();
    for (page, want) in [
        ("", ""),
        (
            "== A ==\n** B [ResourceLoader] | B.js\r\n * C\n*D",
            "ext.gadget.B:2 -4 ",
        ),
        (
            "*A|A.js\n*A[ResourceLoader]|A.js\n*A[ResourceLoader]|A.css",
            "ext.gadget.A:2 -1 -3 ",
        ),
    ] {
        let got = read(alloc, page)?;
        assert_eq!(rt; got.as_str(), want, "at {page}");
    }
    Ok(())
}

#[test]
fn most_rows(rt: HostRuntime) -> Result<(), Fail> {
    let alloc = rt.alloc();
    let page = page_of(alloc, 500)?;
    let full = counts(alloc, page.as_str())?;
    assert_eq!(rt; full, (500, 0));
    let page = page_of(alloc, 501)?;
    let over = counts(alloc, page.as_str())?;
    assert_eq!(rt; over, (500, 1));
    Ok(())
}
