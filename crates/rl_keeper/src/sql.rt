//! Entries in a database.
//!
//! What a database holds is told to no contract.
ghost use Rattle.std.specs.Prelude.{◌≤◌, IfOk};

use crate::keeper::{Keeper, KeeperError};
use crate::record::{Record, RecordError, read_record, write_record};
use rl_names::{Blob, NoMemory};
use rl_pages::Entry;
use sqlite::{Alter, Connection, Error, ErrorCode, Row, Statement, params};
use std::alloc::Global;

/// The tables, where they are absent, and the one row that tells their form.
const TABLES: &str =
    "CREATE TABLE IF NOT EXISTS meta (one INTEGER PRIMARY KEY, form INTEGER NOT NULL) STRICT;
CREATE TABLE IF NOT EXISTS entries (number INTEGER PRIMARY KEY, kind INTEGER NOT NULL, a BLOB NOT NULL, b BLOB NOT NULL, c BLOB NOT NULL) STRICT;
INSERT OR IGNORE INTO meta VALUES (1, 1);";

const FORM: &str = "SELECT count(*), min(one), min(form) FROM meta";

const ADD: &str = "INSERT INTO entries (number, kind, a, b, c) VALUES (?1, ?2, ?3, ?4, ?5)";

const ALL: &str = "SELECT number, kind, a, b, c FROM entries ORDER BY number";

/// The entries of a database. Each is added in a transaction of its own, and is on the disk when the call returns.
#[derive(Drop)]
pub struct SqlKeeper<S: Alter> {
    alloc: Global,

    /// The database, which its owner closes.
    pub db: Connection<S>,

    /// What adds a record. None where the first statements were refused, or the tables have another form.
    add: Option<Statement>,

    /// The count of faults, which stands still at its last value.
    faults: u64,
}

/// What the refusal of a statement means.
fn refusal(error: Error) -> KeeperError {
    match error {
        Error::SqliteFailure(ErrorCode::OutOfMemory) => KeeperError::NoMemory,
        _ => KeeperError::Failed,
    }
}

/// Makes the tables where they are absent, all or none. A database with tables of another form stays as it is.
fn make_tables<S: Alter>(db: &mut Connection<S>) -> Result<bool, Error> {
    if !db.is_autocommit() {
        return Err(Error::SqliteFailure(ErrorCode::TransactionState));
    }
    let mut tx = db.transaction();
    tx.execute_batch(TABLES)?;
    let form = tx.query_row(FORM, &[])?;
    if !is_known_form(&form)? {
        return Ok(false);
    }
    tx.commit()?;
    Ok(true)
}

/// Whether the row that tells the form is the only one, and tells form 1.
fn is_known_form(row: &Row) -> Result<bool, Error> {
    let count: i64 = row.get(0)?;
    let one: i64 = row.get(1)?;
    let form: i64 = row.get(2)?;
    Ok(count == 1 && one == 1 && form == 1)
}

/// What adds a record, where the tables are in the form that is known.
fn adding<S: Alter>(db: &mut Connection<S>) -> Result<Option<Statement>, Error> {
    if make_tables(db)? {
        Ok(Some(db.prepare(ADD)?))
    } else {
        Ok(None)
    }
}

/// Adds a record, as a transaction of its own.
fn add_record<S: Alter>(
    db: &mut Connection<S>,
    add: &Statement,
    record: &Record,
) -> Result<(), Error> {
    let Ok(number) = i64::try_from(record.number) else {
        return Err(Error::IntegralValueOutOfRange(0));
    };
    add.execute(
        db,
        params![
            number,
            record.kind,
            record.a.as_bytes(),
            record.b.as_bytes(),
            record.c.as_bytes()
        ],
    )?;
    Ok(())
}

fn blob(row: &Row, at: usize) -> Result<Blob, Error> {
    let bytes: Vec<u8> = row.get(at)?;
    Ok(Blob::from_vec(bytes))
}

fn record_in(row: &Row) -> Result<Record, Error> {
    Ok(Record {
        number: row.get(0)?,
        kind: row.get(1)?,
        a: blob(row, 2)?,
        b: blob(row, 3)?,
        c: blob(row, 4)?,
    })
}

fn entry_in(alloc: Global, row: &Row) -> Result<Entry, KeeperError> {
    let record = match record_in(row) {
        Ok(record) => record,
        Err(error) => return Err(refusal(error)),
    };
    match read_record(alloc, &record) {
        Ok(entry) => Ok(entry),
        Err(RecordError::NoMemory) => Err(KeeperError::NoMemory),
        Err(RecordError::BadKind { .. } | RecordError::BadText { .. }) => Err(KeeperError::Failed),
    }
}

/// All entries, row by row, in the order of their numbers.
fn all<S: Alter>(alloc: Global, db: &mut Connection<S>) -> Result<Vec<Entry>, KeeperError> {
    let mut entries = Vec::new(alloc);
    let mut rows = match db.query(ALL, &[]) {
        Ok(rows) => rows,
        Err(error) => return Err(refusal(error)),
    };
    'rows: for _ in 0..u64::MAX {
        let row = match rows.next() {
            Ok(Some(row)) => row,
            Ok(None) => return Ok(entries),
            Err(error) => return Err(refusal(error)),
        };
        let entry = entry_in(alloc, row)?;
        if entries.push(entry).is_err() {
            return Err(KeeperError::NoMemory);
        }
    }
    Err(KeeperError::Failed)
}

impl<S: Alter + Drop> SqlKeeper<S> {
    /// A keeper over a database. Its tables are made where they are absent. Where the first statements are refused, or
    /// the tables have another form, the count of faults begins at 1, and every later call raises it and answers Failed.
    pub fn over(alloc: Global, mut db: Connection<S>) -> Result<SqlKeeper<S>, NoMemory>
        ensures { IfOk result (λ k. ⟦<SqlKeeper<S> as Keeper>⟧.faults k ≤ 1) }
    {
        let add = match adding(&mut db) {
            Ok(add) => add,
            Err(error) => match refusal(error) {
                KeeperError::NoMemory => return Err(NoMemory),
                KeeperError::Failed => None,
            },
        };
        let faults = if add.is_some() { 0 } else { 1 };
        Ok(SqlKeeper {
            alloc,
            db,
            add,
            faults,
        })
    }
}

impl<S: Alter> Keeper for SqlKeeper<S> {
    ghost use Rattle.std.specs.Prelude.{None};

    ghost entries = { λ _. None };

    ghost faults = { λ k. k.faults };

    fn append(&mut self, number: u64, entry: &Entry) -> Result<(), KeeperError> {
        let record = write_record(self.alloc, number, entry)?;
        let answer = match &self.add {
            Some(add) => add_record(&mut self.db, add, &record),
            None => Err(Error::SqliteFailure(ErrorCode::Closed)),
        };
        match answer {
            Ok(()) => Ok(()),
            Err(Error::SqliteFailure(ErrorCode::OutOfMemory)) => Err(KeeperError::NoMemory),
            Err(_) => {
                self.faults = self.faults.saturating_add(1);
                Err(KeeperError::Failed)
            }
        }
    }

    fn read_all(&mut self) -> Result<Vec<Entry>, KeeperError> {
        let answer = match &self.add {
            Some(_) => all(self.alloc, &mut self.db),
            None => Err(KeeperError::Failed),
        };
        match answer {
            Ok(entries) => Ok(entries),
            Err(KeeperError::NoMemory) => Err(KeeperError::NoMemory),
            Err(KeeperError::Failed) => {
                self.faults = self.faults.saturating_add(1);
                Err(KeeperError::Failed)
            }
        }
    }

    fn fault_count(&self) -> u64 {
        self.faults
    }
}
