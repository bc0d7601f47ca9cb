//! What no clause says: records, and databases in memory and in files.

use crate::{Keeper, KeeperError, Record, RecordError, SqlKeeper, read_record, write_record};
use rl_names::{Blob, Text, Title};
use rl_pages::Entry;
use sqlite::{Alter, Connection};
use std::alloc::Global;
use std::test::Fail;
use std::{env, fs};

fn edit(alloc: Global, by: &str, title: &str, text: &str) -> Result<Entry, Fail> {
    Ok(Entry::Edit {
        by: Text::of(alloc, by)?,
        title: Title::read(alloc, title.as_bytes())?,
        text: Text::of(alloc, text)?,
    })
}

fn told(alloc: Global, entries: &[Entry]) -> Result<String, Fail> {
    let mut out = String::new(alloc);
    for entry in entries {
        match entry {
            Entry::Edit { by, title, text } => {
                let (by, title, text) = (by.as_str(), title.as_str(), text.as_str());
                out.push_str(format!(in alloc; "{by}:{title}={text};")?.as_str())?;
            }
            Entry::Choice { user, key, value } => {
                let (user, key, value) = (user.as_str(), key.as_str(), value.as_str());
                out.push_str(format!(in alloc; "{user}.{key}={value};")?.as_str())?;
            }
        }
    }
    Ok(out)
}

/// What is read of a record of these.
fn read(alloc: Global, kind: u32, texts: [&[u8]; 3]) -> Result<Entry, RecordError> {
    let [a, b, c] = texts;
    let record = Record {
        number: 1,
        kind,
        a: Blob::of(alloc, a)?,
        b: Blob::of(alloc, b)?,
        c: Blob::of(alloc, c)?,
    };
    read_record(alloc, &record)
}

#[test]
fn records(rt: HostRuntime) -> Result<(), Fail> {
    let alloc = rt.alloc();
    let record = write_record(
        alloc,
        7,
        &edit(alloc, "Ann", "User:Ann/common.js", "ann()")?,
    )?;
    let again = vec![in alloc; read_record(alloc, &record)?]?;
    assert_eq!(rt;
        told(alloc, &again)?.as_str(),
        "Ann:User:Ann/common.js=ann();"
    );
    for (kind, texts, want) in [
        (
            9,
            [&b"Ann"[..], b"Talk", b"x"],
            RecordError::BadKind { kind: 9 },
        ),
        (
            1,
            [b"\xFF", b"Talk", b"x"],
            RecordError::BadText { place: 0 },
        ),
        (
            1,
            [b"Ann", b"Talk_", b"x"],
            RecordError::BadText { place: 1 },
        ),
        (
            1,
            [b"Ann", b"Talk", b"\xFF"],
            RecordError::BadText { place: 2 },
        ),
        (
            2,
            [b"Ann", b"\xFF", b"x"],
            RecordError::BadText { place: 1 },
        ),
    ] {
        assert!(rt; matches!(read(alloc, kind, texts), Err(why) if why == want));
    }
    Ok(())
}

/// Keeps an edit.
fn keep<S: Alter>(
    alloc: Global,
    keeper: &mut SqlKeeper<S>,
    number: u64,
    by: &str,
    title: &str,
    text: &str,
) -> Result<(), Fail> {
    let entry = edit(alloc, by, title, text)?;
    Ok(keeper.append(number, &entry)?)
}

/// What is read of all that is kept.
fn kept<S: Alter>(alloc: Global, keeper: &mut SqlKeeper<S>) -> Result<String, Fail> {
    let entries = keeper.read_all()?;
    told(alloc, entries.as_slice())
}

/// Whether reading fails.
fn fails_to_read<S: Alter>(keeper: &mut SqlKeeper<S>) -> bool {
    matches!(keeper.read_all(), Err(KeeperError::Failed))
}

/// Whether keeping an edit of this number fails.
fn fails_to_keep<S: Alter>(
    alloc: Global,
    keeper: &mut SqlKeeper<S>,
    number: u64,
) -> Result<bool, Fail> {
    let entry = edit(alloc, "Ann", "Talk", "x")?;
    let answer = keeper.append(number, &entry);
    Ok(matches!(answer, Err(KeeperError::Failed)))
}

/// What is read after two edits.
fn two_edits<S: Alter>(alloc: Global, keeper: &mut SqlKeeper<S>) -> Result<String, Fail> {
    keep(alloc, keeper, 1, "Root", "MediaWiki:Common.js", "one()")?;
    keep(alloc, keeper, 2, "Ann", "User:Ann/common.js", "ann()")?;
    kept(alloc, keeper)
}

const KEPT: &str = "Root:MediaWiki:Common.js=one();Ann:User:Ann/common.js=ann();";

/// Whether each call fails, and is counted.
fn always_fails<S: Alter>(alloc: Global, keeper: &mut SqlKeeper<S>) -> Result<bool, Fail> {
    let before = keeper.fault_count() == 1;
    let append = fails_to_keep(alloc, keeper, 1)?;
    let counted = keeper.fault_count() == 2;
    let read = fails_to_read(keeper);
    Ok(before && append && counted && read && keeper.fault_count() == 3)
}

#[test]
fn a_database_in_memory(rt: HostRuntime) -> Result<(), Fail> {
    let alloc = rt.alloc();
    let mut keeper = SqlKeeper::over(alloc, Connection::open_in_memory(alloc)?)?;
    assert_eq!(rt; keeper.fault_count(), 0);
    assert_eq!(rt; two_edits(alloc, &mut keeper)?.as_str(), KEPT);
    // A number that is taken.
    assert!(rt; fails_to_keep(alloc, &mut keeper, 2)?);
    assert_eq!(rt; keeper.fault_count(), 1);
    assert_eq!(rt; kept(alloc, &mut keeper)?.as_str(), KEPT);
    Ok(())
}

#[test]
fn a_database_of_another_form(rt: HostRuntime) -> Result<(), Fail> {
    let alloc = rt.alloc();
    for tables in [
        "CREATE TABLE meta (one INTEGER PRIMARY KEY, form INTEGER NOT NULL) STRICT; INSERT INTO meta VALUES (1, 2);",
        "CREATE TABLE meta (one INTEGER PRIMARY KEY, form INTEGER NOT NULL) STRICT; INSERT INTO meta VALUES (2, 1);",
        "CREATE TABLE meta (other TEXT);",
        "CREATE TABLE entries (number INTEGER PRIMARY KEY) STRICT;",
    ] {
        let mut db = Connection::open_in_memory(alloc)?;
        db.execute_batch(tables)?;
        assert!(rt; always_fails(alloc, &mut SqlKeeper::over(alloc, db)?)?);
    }
    Ok(())
}

#[test]
fn a_record_of_another_kind(rt: HostRuntime) -> Result<(), Fail> {
    let alloc = rt.alloc();
    let mut keeper = SqlKeeper::over(alloc, Connection::open_in_memory(alloc)?)?;
    keep(alloc, &mut keeper, 1, "Ann", "Talk", "x")?;
    keeper
        .db
        .execute_batch("INSERT INTO entries VALUES (2, 9, x'', x'', x'');")?;
    assert!(rt; fails_to_read(&mut keeper));
    assert_eq!(rt; keeper.fault_count(), 1);
    Ok(())
}

/// Whether a database in a new file tells the two edits that it is to keep.
fn kept_in(rt: &HostRuntime, file: &str) -> Result<bool, Fail> {
    let db = Connection::open(rt, file)?;
    let mut keeper = SqlKeeper::over(rt.alloc(), db)?;
    let told = two_edits(rt.alloc(), &mut keeper)?;
    keeper.db.close()?;
    Ok(told.as_str() == KEPT)
}

/// Whether it tells them when it is opened again, without a fault.
fn kept_again(rt: &HostRuntime, file: &str) -> Result<bool, Fail> {
    let db = Connection::open(rt, file)?;
    let mut keeper = SqlKeeper::over(rt.alloc(), db)?;
    let told = kept(rt.alloc(), &mut keeper)?;
    let faults = keeper.fault_count();
    keeper.db.close()?;
    Ok(told.as_str() == KEPT && faults == 0)
}

#[test]
fn a_database_in_a_file(rt: HostRuntime) -> Result<(), Fail> {
    // The folder of this run alone: in a shared one a file of another user's could lie in the way.
    let folder = env::temp_dir(&rt)?;
    let file = format!(in rt.alloc(); "{}/rl_keeper_two_edits.db", folder.as_str())?;
    let _ = fs::remove_file(&rt, file.as_str());
    assert!(rt; kept_in(&rt, file.as_str())?);
    assert!(rt; kept_again(&rt, file.as_str())?);
    let _ = fs::remove_file(&rt, file.as_str());
    Ok(())
}
