//! Worked stores, with ample memory.
ghost use Rattle.std.specs.Prelude.{◌<◌, ◌^◌, IfOk, IfSome, IsTrue};
ghost use Rattle.rl_view_spec.specs.Rows.{has_version_unless_private, has_own_group, AreRegistrable};
ghost use Rattle.rl_book_spec.specs.Laws.{IsOfKey};
ghost use Rattle.rl_wire.specs.Line.{IsInOrder};

use crate::{Note, Store, Stored};
use rl_names::{Group, Key, Name, Row, Seq, Text, Version};
use rl_registry::Registry;
use rl_wire::Part;
use std::alloc::Global;
use std::test::Fail;

/// How a store that keeps nothing fits.
fn fits(alloc: Global, wanted: &str, now: u64) -> Option<Note> {
    let Ok(store) = Store::empty(alloc, b"vector|1|en") else {
        return None;
    };
    match store.fit(wanted.as_bytes(), now) {
        Ok(opened) => Some(opened.note),
        Err(_) => None,
    }
}

/// Whether this is the text of a store that keeps nothing.
fn is_text_of_nothing(alloc: Global, text: &str) -> bool {
    let Ok(store) = Store::empty(alloc, b"vector|1|en") else {
        return false;
    };
    match store.write() {
        Ok(written) => written.as_str() == text,
        Err(_) => false,
    }
}

/// Whether nothing is kept under a key.
fn keeps_nothing(alloc: Global, key: &str) -> bool {
    let Ok(store) = Store::empty(alloc, b"vector|1|en") else {
        return false;
    };
    match Key::split(alloc, key.as_bytes()) {
        Ok(key) => store.get(&key).is_none() && store.count() == 0,
        Err(_) => false,
    }
}

/// Whether the copy of a store that keeps nothing has this text.
fn copies_to(alloc: Global, text: &str) -> bool {
    let Ok(store) = Store::empty(alloc, b"vector|1|en") else {
        return false;
    };
    let Ok(copy) = store.copy() else {
        return false;
    };
    match copy.write() {
        Ok(written) => written.as_str() == text,
        Err(_) => false,
    }
}

/// A row of no group, without dependencies.
fn row(alloc: Global, name: &str, version: &str) -> Result<Row, Fail>
    ensures version { IfOk result (λ row. IsTrue (has_version_unless_private row)) }
    ensures group { IfOk result (λ row. IsTrue (has_own_group row)) }
{
    Ok(Row {
        name: Name::read(alloc, name.as_bytes())?,
        version: Some(Version::read(version.as_bytes()).ok_or("a version")?),
        deps: Seq::of(Vec::new(alloc)),
        group: Group::Plain,
        source: Text::of(alloc, "")?,
        skip: None,
    })
}

fn rows(alloc: Global, table: &[(&str, &str)]) -> Result<Vec<Row>, Fail>
    ensures { IfOk result (λ rows. AreRegistrable rows.items) }
{
    let mut rows = Vec::new(alloc);
    for (name, version) in table {
        rows.push(row(alloc, name, version)?)?;
    }
    Ok(rows)
}

fn registry(alloc: Global, table: &[(&str, &str)]) -> Result<Registry, Fail> {
    Ok(Registry::read(alloc, rows(alloc, table)?, &[])?)
}

/// A pair without styles and messages, that came with answer 7.
fn pair(alloc: Global, name: &str, version: &str, script: &str) -> Result<Stored, Fail>
    ensures part { IfOk result IsOfKey }
    ensures ordered { IfOk result (λ stored. IsInOrder stored.part) }
{
    let version = Version::read(version.as_bytes()).ok_or("a version")?;
    let name = Name::read(alloc, name.as_bytes())?;
    let key = Key {
        name: name.copy()?,
        version,
    };
    let part = Part::Impl {
        name,
        version,
        script: Text::of(alloc, script)?,
        styles: Text::of(alloc, "")?,
        messages: Seq::of(Vec::new(alloc)),
    };
    Ok(Stored {
        key,
        part,
        wire: Some(7),
    })
}

/// The store after a view that adds a pair, or none.
fn closed(
    alloc: Global,
    store: Store,
    registry: &Registry,
    pair: Option<Stored>,
    now: u64,
) -> Result<Store, Fail>
    requires part { IfSome pair IsOfKey }
    requires ordered { IfSome pair (λ stored. IsInOrder stored.part) }
    requires moment { now < 10 ^ 18 }
{
    let mut fresh = Vec::new(alloc);
    if let Some(stored) = pair {
        fresh.push(stored)?;
    }
    Ok(store.after(registry, fresh, now).ok().ok_or("memory")?)
}

/// A line for each pair: its key, its script, and its wire number.
fn shown(alloc: Global, store: &Store) -> Result<String, Fail> {
    let mut text = String::new(alloc);
    for at in 0..store.count() {
        let stored = store.stored_at(at);
        let key = stored.key.write()?;
        let Part::Impl { script, .. } = &stored.part else {
            return Ok(text);
        };
        let line = format!(in alloc; "{} {} {:?}\n", key.as_str(), script.as_str(), stored.wire)?;
        text.push_str(line.as_str())?;
    }
    Ok(text)
}

/// The number of the pair under the key of a name and a version.
fn place(alloc: Global, store: &Store, name: &str, version: &str) -> Result<Option<u32>, Fail> {
    let version = Version::read(version.as_bytes()).ok_or("a version")?;
    let name = Name::read(alloc, name.as_bytes())?;
    Ok(store.place(&name, &version))
}

#[test]
fn after_views(rt: HostRuntime) -> Result<(), Fail> {
    let alloc = rt.alloc();
    let both = registry(alloc, &[("a", "aaaaa"), ("b", "bbbbb")])?;
    let store = Store::empty(alloc, b"vector|1|en")?;
    let store = closed(
        alloc,
        store,
        &both,
        Some(pair(alloc, "b", "bbbbb", "b()")?),
        0,
    )?;
    let store = closed(
        alloc,
        store,
        &both,
        Some(pair(alloc, "a", "aaaaa", "a()")?),
        0,
    )?;
    assert_eq!(rt;
        shown(alloc, &store)?.as_str(),
        "a@aaaaa a() Some(7)\nb@bbbbb b() Some(7)\n"
    );
    assert!(rt; place(alloc, &store, "b", "bbbbb")? == Some(1));
    assert!(rt; place(alloc, &store, "b", "aaaaa")?.is_none());
    let later = registry(alloc, &[("b", "ccccc"), ("a", "aaaaa")])?;
    let store = closed(
        alloc,
        store,
        &later,
        Some(pair(alloc, "a", "aaaaa", "x()")?),
        0,
    )?;
    assert_eq!(rt; shown(alloc, &store)?.as_str(), "a@aaaaa x() Some(7)\n");
    Ok(())
}

#[test]
fn ages(rt: HostRuntime) -> Result<(), Fail> {
    let alloc = rt.alloc();
    let none = registry(alloc, &[])?;
    let store = closed(
        alloc,
        Store::empty(alloc, b"vector|1|en")?,
        &none,
        None,
        1_700_000_000_000,
    )?;
    let text = store.write()?;
    assert_eq!(rt;
        text.as_str(),
        "{\"asOf\":170000,\"items\":{},\"vary\":\"vector|1|en\"}"
    );
    let store = closed(alloc, store, &none, None, 1_700_000_000_001)?;
    let text = store.write()?;
    assert_eq!(rt;
        text.as_str(),
        "{\"asOf\":170001,\"items\":{},\"vary\":\"vector|1|en\"}"
    );
    Ok(())
}

#[test]
fn fitting(rt: HostRuntime) {
    let alloc = rt.alloc();
    assert!(rt; fits(alloc, "vector|1|en", 2_589_999_999) == Some(Note::Fresh));
    assert!(rt; fits(alloc, "vector|1|en", 2_590_000_000) == Some(Note::Expired { as_of: 0 }));
    assert!(rt; fits(alloc, "vector|1|de", 0) == Some(Note::OtherVary));
}

#[test]
fn store_text(rt: HostRuntime) {
    let alloc = rt.alloc();
    assert!(rt; is_text_of_nothing(alloc, "{\"asOf\":0,\"items\":{},\"vary\":\"vector|1|en\"}"));
    assert!(rt; keeps_nothing(alloc, "a@aaaaa"));
}

#[test]
fn copying(rt: HostRuntime) {
    let alloc = rt.alloc();
    assert!(rt; copies_to(alloc, "{\"asOf\":0,\"items\":{},\"vary\":\"vector|1|en\"}"));
}
