//! What no clause says: a worked example on the built code, with ample memory.
use crate::{ChoiceError, EditError, Entry, KeptError, Pages, Policy, Viewer};
use rl_names::{Seq, Text, Title};
use std::alloc::Global;
use std::test::Fail;

/// What an edit by this user comes to.
fn edited(
    alloc: Global,
    pages: &mut Pages,
    policy: &Policy,
    by: &str,
    title: &str,
    base: u64,
    text: &str,
) -> Result<u64, EditError> {
    let Ok(viewer) = Viewer::read(alloc, by.as_bytes()) else {
        return Err(EditError::NoMemory);
    };
    let entry = pages.check_edit(policy, &viewer, title.as_bytes(), base, text)?;
    Ok(pages.commit(entry))
}

/// What a choice of this user comes to.
fn chosen(
    alloc: Global,
    pages: &mut Pages,
    by: &str,
    key: &str,
    value: &str,
) -> Result<u64, ChoiceError> {
    let Ok(viewer) = Viewer::read(alloc, by.as_bytes()) else {
        return Err(ChoiceError::NoMemory);
    };
    let entry = pages.check_choice(&viewer, key, value)?;
    Ok(pages.commit(entry))
}

/// The options of a user, one after another.
fn options(alloc: Global, pages: &Pages, user: &str) -> Result<String, Fail> {
    let mut out = String::new(alloc);
    for option in &pages.choices_of(user.as_bytes())? {
        let (key, text) = (option.key.as_str(), option.text.as_str());
        out.push_str(format!(in alloc; "{key}={text};")?.as_str())?;
    }
    Ok(out)
}

fn policy(alloc: Global) -> Result<Policy, Fail> {
    Ok(Policy {
        admins: Seq::of(vec![in alloc; Text::of(alloc, "Root")?]?),
    })
}

#[test]
fn edit_refusals(rt: HostRuntime) -> Result<(), Fail> {
    let alloc = rt.alloc();
    let policy = policy(alloc)?;
    let mut pages = Pages::empty(alloc)?;
    let long = "x".repeat(alloc, 2_097_153)?;
    for (by, title, base, text, want) in [
        ("Root", "a|b", 0, "", Err(EditError::BadTitle)),
        ("", "Talk", 0, "", Err(EditError::NotAllowed)),
        (
            "Ann",
            "MediaWiki:Common.js",
            0,
            "",
            Err(EditError::NotAllowed),
        ),
        (
            "Root",
            "Talk",
            5,
            "",
            Err(EditError::Conflict { current: 0 }),
        ),
        (
            "Root",
            "Talk",
            0,
            long.as_str(),
            Err(EditError::TextTooLong { len: 2_097_153 }),
        ),
        ("Ann", "User:Ann/common.js", 0, "ann()", Ok(1)),
    ] {
        let answer = edited(alloc, &mut pages, &policy, by, title, base, text);
        assert!(rt; answer == want);
    }
    assert!(rt; chosen(alloc, &mut pages, "Ann", "skin", "vector") == Ok(2));
    let nobody = chosen(alloc, &mut pages, "", "skin", "vector");
    assert!(rt; nobody == Err(ChoiceError::NotAllowed));
    Ok(())
}

/// A choice as it may have been kept.
fn kept(alloc: Global, user: &str, key: &str, value: &str) -> Result<Entry, Fail> {
    Ok(Entry::Choice {
        user: Text::of(alloc, user)?,
        key: Text::of(alloc, key)?,
        value: Text::of(alloc, value)?,
    })
}

#[test]
fn options_in_byte_order(rt: HostRuntime) -> Result<(), Fail> {
    let alloc = rt.alloc();
    let mut pages = Pages::empty(alloc)?;
    for (user, key, value) in [
        ("Ann", "skin", "vector"),
        ("Bob", "skin", "minerva"),
        ("Ann", "date", "iso"),
        ("Ann", "skin", "monobook"),
    ] {
        let entry = kept(alloc, user, key, value)?.copy()?;
        let entry = pages.check_kept(&entry)?;
        pages.commit(entry);
    }
    assert_eq!(rt;
        options(alloc, &pages, "Ann")?.as_str(),
        "date=iso;skin=monobook;"
    );
    assert_eq!(rt; options(alloc, &pages, "Cy")?.as_str(), "");
    for (user, key) in [("Ann", ""), ("", "skin"), ("An_n", "skin"), ("A/b", "skin")] {
        let entry = kept(alloc, user, key, "v")?;
        assert!(rt; matches!(pages.check_kept(&entry), Err(KeptError::BadEntry)));
    }
    assert_eq!(rt; pages.entry_count(), 4);
    Ok(())
}

#[test]
fn two_spellings_of_one_page(rt: HostRuntime) -> Result<(), Fail> {
    let alloc = rt.alloc();
    let policy = policy(alloc)?;
    let mut pages = Pages::empty(alloc)?;
    for (by, title, base, want) in [
        ("Ann", "User:Ann/my__page", 0, Ok(1)),
        ("Ann", " User:Ann/my page", 1, Ok(2)),
        ("Bob", "User:Ann/my page", 2, Err(EditError::NotAllowed)),
    ] {
        let answer = edited(alloc, &mut pages, &policy, by, title, base, title);
        assert!(rt; answer == want);
    }
    let title = Title::read(alloc, b"User:Ann/my page")?;
    let (ann, bob) = (Viewer::read(alloc, b"Ann")?, Viewer::read(alloc, b"Bob")?);
    assert!(rt; pages.revision_of(&title) == 2);
    assert!(rt; pages.text_of(&title) == Some(&b" User:Ann/my page"[..]));
    assert!(rt; pages.str_seen(&ann, &title) == Some(" User:Ann/my page"));
    assert!(rt; pages.str_seen(&bob, &title).is_none());
    Ok(())
}

/// Whether these many edits of one page by Ann are taken, the first of which starts from this revision.
fn are_taken(alloc: Global, pages: &mut Pages, policy: &Policy, from: u64, to: u64) -> bool {
    for base in from..to {
        if edited(alloc, pages, policy, "Ann", "Talk", base, "").ok() != base.checked_add(1) {
            return false;
        }
    }
    true
}

/// A text and a history may be as long as their limits, and no longer.
#[test]
fn at_the_limits(rt: HostRuntime) -> Result<(), Fail> {
    let alloc = rt.alloc();
    let policy = policy(alloc)?;
    let mut pages = Pages::empty(alloc)?;
    let longest = "x".repeat(alloc, 2_097_152)?;
    let answer = edited(
        alloc,
        &mut pages,
        &policy,
        "Ann",
        "Talk",
        0,
        longest.as_str(),
    );
    assert!(rt; answer == Ok(1));
    assert!(rt; are_taken(alloc, &mut pages, &policy, 1, 100_000));
    let answer = edited(alloc, &mut pages, &policy, "Ann", "Talk", 100_000, "");
    assert!(rt; matches!(answer, Err(EditError::Full { .. })));
    Ok(())
}
