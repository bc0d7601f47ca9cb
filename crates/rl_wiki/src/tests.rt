//! What no clause says: worked examples on the built code, with ample memory.
use crate::{Desk, DeskChoiceError, DeskEditError, OpenError, Wiki};
use rl_build::Context;
use rl_defs::Catalog;
use rl_keeper::{Keeper, MemKeeper};
use rl_names::{NoMemory, Text, Title};
use rl_pages::{ChoiceError, EditError, Entry, Viewer};
use std::alloc::Global;
use std::test::Fail;

fn catalog(alloc: Global) -> Result<Catalog, Fail> {
    Ok(Catalog::read(alloc, b"[wiki]\nadmins = [\"Root\"]\n")?)
}

/// What an edit by this user comes to.
fn edited(
    alloc: Global,
    wiki: &mut Wiki,
    by: &[u8],
    title: &[u8],
    base: u64,
) -> Result<u64, EditError> {
    let Ok(viewer) = Viewer::read(alloc, by) else {
        return Err(EditError::NoMemory);
    };
    wiki.edit(&viewer, title, base, "text")
}

/// What a choice of this user comes to.
fn chosen(alloc: Global, wiki: &mut Wiki, by: &[u8]) -> Result<u64, ChoiceError> {
    let Ok(viewer) = Viewer::read(alloc, by) else {
        return Err(ChoiceError::NoMemory);
    };
    wiki.set_choice(&viewer, "skin", "vector")
}

#[test]
fn edits_of_a_wiki(rt: HostRuntime) -> Result<(), Fail> {
    let alloc = rt.alloc();
    let mut wiki = Wiki::open(alloc, catalog(alloc)?)?;
    for (by, title, base, want) in [
        (&b"Root"[..], &b"a|b"[..], 0, Err(EditError::BadTitle)),
        (b"", b"Talk", 0, Err(EditError::NotAllowed)),
        (b"Root", b"Talk", 5, Err(EditError::Conflict { current: 0 })),
        (b"Ann", b"User:Ann/common.js", 0, Ok(1)),
    ] {
        let answer = edited(alloc, &mut wiki, by, title, base);
        assert!(rt; answer == want);
    }
    Ok(())
}

#[test]
fn choices_of_a_wiki(rt: HostRuntime) -> Result<(), Fail> {
    let alloc = rt.alloc();
    let mut wiki = Wiki::open(alloc, catalog(alloc)?)?;
    let answer = chosen(alloc, &mut wiki, b"");
    assert!(rt; answer == Err(ChoiceError::NotAllowed));
    let answer = chosen(alloc, &mut wiki, b"Ann");
    assert!(rt; answer == Ok(1));
    assert!(rt; wiki.revisions() == 1 && wiki.pages().entry_count() == 1);
    assert!(rt; wiki.catalog().admins().len() == 1);
    Ok(())
}

/// The body of the answer to a viewer's query; it begins with `private` where only that viewer may keep it.
fn answered(alloc: Global, wiki: &Wiki, by: &[u8], query: &str) -> Result<String, Fail> {
    let viewer = Viewer::read(alloc, by)?;
    let answer = wiki.answer(alloc, &viewer, query.as_bytes())?;
    let (start, body) = (
        if answer.private { "private " } else { "" },
        answer.body.as_str(),
    );
    Ok(format!(in alloc; "{start}{body}")?)
}

/// The site, Ann and Ben get a script each.
fn edit_three(alloc: Global, wiki: &mut Wiki) -> Result<(), EditError> {
    for (by, title) in [
        (&b"Root"[..], &b"MediaWiki:Fallback.js"[..]),
        (b"Ann", b"User:Ann/common.js"),
        (b"Ben", b"User:Ben/common.js"),
    ] {
        let _number = edited(alloc, wiki, by, title, 0)?;
    }
    Ok(())
}

fn opened_wiki(alloc: Global) -> Result<Wiki, Fail> {
    let catalog = catalog(alloc)?;
    Ok(Wiki::open(alloc, catalog)?)
}

/// Who asks for what, and what they are answered. A module of another user, and the options of any, are spelt as a name
/// that is unknown.
const ANSWERS: [(&[u8], &str, &str); 6] = [
    (
        b"",
        "modules=site",
        "mw.loader.implement(\"site@27l1n\",\"text\\n\",{},{});\n",
    ),
    (
        b"",
        "modules=user",
        "mw.loader.implement(\"user@186z7\",\"\",{},{});\n",
    ),
    (
        b"Ann",
        "modules=user&user=_Ann",
        "private mw.loader.implement(\"user@27l1n\",\"text\\n\",{},{});\n",
    ),
    (
        b"Ann",
        "modules=user&user=Ben",
        "private mw.loader.state({\"user\":\"missing\"});\n",
    ),
    (
        b"Ann",
        "modules=user",
        "mw.loader.state({\"user\":\"missing\"});\n",
    ),
    (
        b"Ann",
        "modules=user.options&user=Ann",
        "private mw.loader.state({\"user.options\":\"missing\"});\n",
    ),
];

/// Whether each is answered what is wanted.
fn answers_as_wanted(alloc: Global, wiki: &Wiki) -> Result<bool, Fail> {
    let mut same = true;
    for (by, query, want) in &ANSWERS {
        let body = answered(alloc, wiki, by, query)?;
        same = same && body.as_str() == *want;
    }
    Ok(same)
}

#[test]
fn private_and_foreign_modules(rt: HostRuntime) -> Result<(), Fail> {
    let mut wiki = opened_wiki(rt.alloc())?;
    let edited = edit_three(rt.alloc(), &mut wiki);
    assert!(rt; edited == Ok(()));
    let answer = chosen(rt.alloc(), &mut wiki, b"Ann");
    assert!(rt; answer == Ok(4));
    assert!(rt; answers_as_wanted(rt.alloc(), &wiki)?);
    Ok(())
}

/// What is embedded in a page of a viewer.
fn embedded(alloc: Global, wiki: &Wiki, by: &[u8]) -> Result<Text, Fail> {
    let viewer = Viewer::read(alloc, by)?;
    let ctx = Context::read(alloc, wiki.catalog(), b"en", b"", false)?;
    Ok(wiki.embed(alloc, &viewer, &ctx)?)
}

const OF_ANN: &str = "mw.loader.implement(\"user.options@zpsgg\",\
\"mw.user.options.set({\\\"skin\\\":\\\"vector\\\"});\\n\",{},{});\n";

const OF_BEN: &str = "mw.loader.implement(\"user.options@fie8b\",\
\"mw.user.options.set({});\\n\",{},{});\n";

/// Whether what is embedded for each is what is wanted.
fn embeds_as_wanted(alloc: Global, wiki: &Wiki) -> Result<bool, Fail> {
    let ann = embedded(alloc, wiki, b"Ann")?;
    let ben = embedded(alloc, wiki, b"Ben")?;
    Ok(ann.as_str() == OF_ANN && ben.as_str() == OF_BEN)
}

#[test]
fn options_of_the_viewer(rt: HostRuntime) -> Result<(), Fail> {
    let mut wiki = opened_wiki(rt.alloc())?;
    let answer = chosen(rt.alloc(), &mut wiki, b"Ann");
    assert!(rt; answer == Ok(1));
    assert!(rt; embeds_as_wanted(rt.alloc(), &wiki)?);
    Ok(())
}

fn choice(alloc: Global, key: &str) -> Result<Entry, Fail> {
    Ok(Entry::Choice {
        user: Text::of(alloc, "Ann")?,
        key: Text::of(alloc, key)?,
        value: Text::of(alloc, "v")?,
    })
}

/// A desk by these definitions over a keeper of these entries, whose calls of these numbers fail.
fn opened_by(
    alloc: Global,
    definitions: &[u8],
    entries: Vec<Entry>,
    failing: Vec<u64>,
) -> Result<Desk<MemKeeper>, OpenError> {
    let Ok(catalog) = Catalog::read(alloc, definitions) else {
        return Err(OpenError::NoMemory);
    };
    let keeper = MemKeeper::new(alloc, entries, failing)?;
    match Desk::open(alloc, keeper, catalog) {
        Ok(desk) => Ok(desk),
        Err(turned) => Err(turned.why),
    }
}

/// The same of which Root is an admin.
fn opened(
    alloc: Global,
    entries: Vec<Entry>,
    failing: Vec<u64>,
) -> Result<Desk<MemKeeper>, OpenError> {
    opened_by(alloc, b"[wiki]\nadmins = [\"Root\"]\n", entries, failing)
}

#[test]
fn a_keeper_that_fails(rt: HostRuntime) -> Result<(), Fail> {
    let alloc = rt.alloc();
    let desk = opened(alloc, Vec::new(alloc), vec![in alloc; 0]?);
    assert!(rt; matches!(desk, Err(OpenError::Failed)));
    Ok(())
}

#[test]
fn an_entry_that_breaks_a_rule(rt: HostRuntime) -> Result<(), Fail> {
    let alloc = rt.alloc();
    let entries = vec![in alloc; choice(alloc, "k")?, choice(alloc, "")?]?;
    let desk = opened(alloc, entries, Vec::new(alloc));
    assert!(rt; matches!(desk, Err(OpenError::BadRecord { number: 2 })));
    Ok(())
}

/// What an edit by Ann comes to.
fn desk_edited(alloc: Global, desk: &mut Desk<MemKeeper>, base: u64) -> Result<u64, DeskEditError> {
    let Ok(viewer) = Viewer::read(alloc, b"Ann") else {
        return Err(DeskEditError::NoMemory);
    };
    desk.edit(&viewer, b"Talk", base, "text")
}

/// What a choice of Ann comes to.
fn desk_chosen(
    alloc: Global,
    desk: &mut Desk<MemKeeper>,
    key: &str,
) -> Result<u64, DeskChoiceError> {
    let Ok(viewer) = Viewer::read(alloc, b"Ann") else {
        return Err(DeskChoiceError::NoMemory);
    };
    desk.set_choice(&viewer, key, "v")
}

/// What nobody is answered.
fn desk_answered(alloc: Global, desk: &Desk<MemKeeper>, query: &[u8]) -> Result<Text, Fail> {
    Ok(desk.answer(alloc, &Viewer::Anon, query)?.body)
}

#[test]
fn answers_of_a_desk(rt: HostRuntime) -> Result<(), Fail> {
    let alloc = rt.alloc();
    let desk = opened(alloc, Vec::new(alloc), Vec::new(alloc))?;
    let body = desk_answered(alloc, &desk, b"modules=zz")?;
    assert_eq!(rt; body.as_str(), "mw.loader.state({\"zz\":\"missing\"});\n");
    Ok(())
}

/// The call that fails is the first append; what is refused or fails is not kept.
#[test]
fn edits_of_a_desk(rt: HostRuntime) -> Result<(), Fail> {
    let alloc = rt.alloc();
    let mut desk = opened(alloc, Vec::new(alloc), vec![in alloc; 1]?)?;
    for (base, want) in [
        (0, Err(DeskEditError::Failed)),
        (0, Ok(1)),
        (0, Err(DeskEditError::Conflict { current: 1 })),
        (1, Ok(2)),
    ] {
        let answer = desk_edited(alloc, &mut desk, base);
        assert!(rt; answer == want);
    }
    let title = Title::read(alloc, b"Talk")?;
    assert!(rt; desk.revision_of(&title) == 2 && desk.fault_count() == 1);
    Ok(())
}

#[test]
fn a_desk_that_opens_again(rt: HostRuntime) -> Result<(), Fail> {
    let alloc = rt.alloc();
    let mut desk = opened(alloc, Vec::new(alloc), Vec::new(alloc))?;
    let refused = desk_chosen(alloc, &mut desk, "");
    assert!(rt; refused == Err(DeskChoiceError::BadKey));
    let answer = desk_chosen(alloc, &mut desk, "k");
    assert!(rt; answer == Ok(1));
    assert!(rt; desk.revisions() == 1 && desk.pages().entry_count() == 1);
    let mut keeper = desk.close();
    let entries = keeper.read_all()?;
    let again = opened(alloc, entries, Vec::new(alloc))?;
    assert!(rt; again.revisions() == 1 && again.catalog().admins().len() == 1);
    Ok(())
}

/// An edit of the site's script by Root, as it was kept.
fn admins_edit(alloc: Global) -> Result<Entry, Fail> {
    Ok(Entry::Edit {
        by: Text::of(alloc, "Root")?,
        title: Title::read(alloc, b"MediaWiki:Common.js")?,
        text: Text::of(alloc, "site()")?,
    })
}

/// What a later edit of it by Root comes to.
fn edited_again(alloc: Global, desk: &mut Desk<MemKeeper>) -> Result<u64, DeskEditError> {
    let Ok(viewer) = Viewer::read(alloc, b"Root") else {
        return Err(DeskEditError::NoMemory);
    };
    desk.edit(&viewer, b"MediaWiki:Common.js", 1, "other()")
}

/// What was kept stays in the history where Root is no admin any more, and Root edits no more.
#[test]
fn other_admins_over_what_was_kept(rt: HostRuntime) -> Result<(), Fail> {
    let alloc = rt.alloc();
    let entries = vec![in alloc; admins_edit(alloc)?]?;
    let mut desk = opened_by(
        alloc,
        b"[wiki]\nadmins = [\"Ann\"]\n",
        entries,
        Vec::new(alloc),
    )?;
    let answer = edited_again(alloc, &mut desk);
    assert!(rt; answer == Err(DeskEditError::NotAllowed) && desk.revisions() == 1);
    Ok(())
}

const SOURCES: &str = "mw.loader.addSource({\"local\":\"/load.php\"});\nmw.loader.register([";

fn startup_of_wiki(alloc: Global, wiki: &Wiki) -> Result<Text, NoMemory> {
    let ctx = Context::read(alloc, wiki.catalog(), b"en", b"vector", false)?;
    wiki.startup(alloc, &Viewer::Anon, &ctx)
}

fn startup_of_desk(alloc: Global, desk: &Desk<MemKeeper>) -> Result<Text, NoMemory> {
    let ctx = Context::read(alloc, desk.catalog(), b"en", b"vector", false)?;
    desk.startup(alloc, &Viewer::Anon, &ctx)
}

/// Whether a wiki and a desk give one startup text, which begins with the sources.
fn starts_as_wanted(alloc: Global, wiki: &Wiki, desk: &Desk<MemKeeper>) -> Result<bool, Fail> {
    let text = startup_of_wiki(alloc, wiki)?;
    let other = startup_of_desk(alloc, desk)?;
    Ok(text.as_str().starts_with(SOURCES) && other.as_str() == text.as_str())
}

#[test]
fn startup_texts(rt: HostRuntime) -> Result<(), Fail> {
    let wiki = opened_wiki(rt.alloc())?;
    let alloc = rt.alloc();
    let desk = opened(alloc, Vec::new(alloc), Vec::new(alloc))?;
    assert!(rt; starts_as_wanted(alloc, &wiki, &desk)?);
    Ok(())
}

/// The startup text of a user, or of nobody, in the context that a query has by itself.
fn startup_for(alloc: Global, wiki: &Wiki, by: &[u8]) -> Result<Text, Fail> {
    let viewer = Viewer::read(alloc, by)?;
    let ctx = Context::read(alloc, wiki.catalog(), b"en", b"", false)?;
    Ok(wiki.startup(alloc, &viewer, &ctx)?)
}

/// The body of what Ann is answered.
fn body_for_ann(alloc: Global, wiki: &Wiki, query: &str) -> Result<Text, Fail> {
    let viewer = Viewer::read(alloc, b"Ann")?;
    let answer = wiki.answer(alloc, &viewer, query.as_bytes())?;
    Ok(answer.body)
}

/// Queries by Ann: whether each is answered by nobody's startup text, and whether by her own.
const STARTUPS: [(&str, bool, bool); 7] = [
    ("modules=startup&only=scripts", true, false),
    ("modules=startup|startup&only=scripts", true, false),
    ("modules=startup&only=scripts&user=Ann", false, true),
    ("modules=startup&only=scripts&user=Ben", true, false),
    ("modules=startup,user&only=scripts&user=Ann", false, false),
    ("modules=startup&only=styles&user=Ann", false, false),
    ("modules=startup&user=Ann", false, false),
];

/// Whether each is answered so.
fn startups_as_wanted(alloc: Global, wiki: &Wiki) -> Result<bool, Fail> {
    let nobodys = startup_for(alloc, wiki, b"")?;
    let anns = startup_for(alloc, wiki, b"Ann")?;
    let mut same = nobodys.as_str() != anns.as_str();
    for (query, nobody, ann) in &STARTUPS {
        let body = body_for_ann(alloc, wiki, query)?;
        same = same
            && (body.as_str() == nobodys.as_str()) == *nobody
            && (body.as_str() == anns.as_str()) == *ann;
    }
    Ok(same)
}

#[test]
fn answered_by_the_startup_text(rt: HostRuntime) -> Result<(), Fail> {
    let mut wiki = opened_wiki(rt.alloc())?;
    let edited = edit_three(rt.alloc(), &mut wiki);
    assert!(rt; edited == Ok(()));
    assert!(rt; startups_as_wanted(rt.alloc(), &wiki)?);
    Ok(())
}
