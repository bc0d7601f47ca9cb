//! The form in which an entry is kept.
ghost use Rattle.std.specs.Prelude.{◌≡◌, IfOk, IsOk, Ok, Some, None, true, if◌then◌else◌};
ghost use Rattle.std.specs.Str.{is_utf8};
ghost use Rattle.rl_names.specs.Meant.{Gives};
ghost use Rattle.rl_keeper.specs.Record.{record_of, entry_of, edit_of, choice_of, fault_told, is_spelt_title, RecordsAreReadAgain};

use rl_names::{Blob, NoMemory, Text, Title, TitleError};
use rl_pages::Entry;
use std::alloc::Global;
use std::str;
use thiserror::Error;

/// An entry as it is kept: 1 is the kind of an edit, by whom, of which title and with which text; 2 that of a choice,
/// whose, of which key and with which value.
#[derive(Drop)]
pub struct Record {
    pub number: u64,
    pub kind: u32,
    pub a: Blob,
    pub b: Blob,
    pub c: Blob,
}

/// Why a record is no entry.
#[derive(Clone, Copy, Debug, PartialEq, Eq, Error)]
pub enum RecordError {
    /// The kind is neither 1 nor 2.
    #[error("no kind of entry: {kind}")]
    BadKind { kind: u32 },
    /// The first of the three texts, counted from 0, that is not UTF-8 or not the title that it stands for.
    #[error("not a text: the one at {place}")]
    BadText { place: u32 },
    /// Memory ran out.
    #[error("out of memory")]
    NoMemory,
}

impl From<NoMemory> for RecordError {
    ghost use Rattle.std.specs.Prelude.{◌≡◌};
    ghost use Rattle.rl_keeper.specs.declared.record.RecordError.TheVariants.{NoMemory};

    ghost from_gives = { λ _ e. e ≡ NoMemory };

    fn from(_error: NoMemory) -> Self {
        RecordError::NoMemory
    }
}

/// What was written is read again.
pub fn record_laws()
    ensures { RecordsAreReadAgain }
{}

/// The bytes of a text.
fn text_blob(alloc: Global, text: &Text) -> Result<Blob, NoMemory>
    ensures value { IfOk result (λ b. b ≡ text.now) }
    ensures utf8 { IsOk result → is_utf8 text.now ≡ true }
{
    Blob::of(alloc, text.as_str().as_bytes())
}

/// The bytes of a title.
fn title_blob(alloc: Global, title: &Title) -> Result<Blob, NoMemory>
    ensures value { IfOk result (λ b. b ≡ title.now) }
    ensures spelt { IsOk result → is_spelt_title title.now ≡ true }
{
    Blob::of(alloc, title.as_bytes())
}

/// The record of an entry.
pub fn write_record(alloc: Global, number: u64, entry: &Entry) -> Result<Record, NoMemory>
    ensures value { IfOk result (λ r. r ≡ record_of number entry.now) }

    // It is read again as the entry.
    ensures again { IfOk result (λ r. entry_of r ≡ Ok entry.now) }
{
    match entry {
        Entry::Edit { by, title, text } => Ok(Record {
            number,
            kind: 1,
            a: text_blob(alloc, by)?,
            b: title_blob(alloc, title)?,
            c: text_blob(alloc, text)?,
        }),
        Entry::Choice { user, key, value } => Ok(Record {
            number,
            kind: 2,
            a: text_blob(alloc, user)?,
            b: text_blob(alloc, key)?,
            c: text_blob(alloc, value)?,
        }),
    }
}

/// The text that bytes are.
fn text_in(alloc: Global, bytes: &[u8]) -> Result<Option<Text>, NoMemory>
    ensures { IfOk result (λ text. text ≡ (if is_utf8 bytes.now then Some bytes.now else None)) }
{
    match str::from_utf8(bytes) {
        Ok(text) => Ok(Some(Text::of(alloc, text)?)),
        Err(_) => Ok(None),
    }
}

/// The title that bytes are as they stand.
fn title_in(alloc: Global, bytes: &[u8]) -> Result<Option<Title>, NoMemory>
    ensures { IfOk result (λ title. title ≡ (if is_spelt_title bytes.now then Some bytes.now else None)) }
{
    match Title::read(alloc, bytes) {
        Ok(title) => {
            if title.as_bytes() == bytes {
                Ok(Some(title))
            } else {
                Ok(None)
            }
        }
        Err(TitleError::BadTitle) => Ok(None),
        Err(TitleError::NoMemory) => Err(NoMemory),
    }
}

fn read_edit(alloc: Global, kept: &Record) -> Result<Entry, RecordError>
    ensures { Gives fault_told result (edit_of kept.now.a kept.now.b kept.now.c) }
{
    let Some(by) = text_in(alloc, kept.a.as_bytes())? else {
        return Err(RecordError::BadText { place: 0 });
    };
    let Some(title) = title_in(alloc, kept.b.as_bytes())? else {
        return Err(RecordError::BadText { place: 1 });
    };
    let Some(text) = text_in(alloc, kept.c.as_bytes())? else {
        return Err(RecordError::BadText { place: 2 });
    };
    Ok(Entry::Edit { by, title, text })
}

fn read_choice(alloc: Global, kept: &Record) -> Result<Entry, RecordError>
    ensures { Gives fault_told result (choice_of kept.now.a kept.now.b kept.now.c) }
{
    let Some(user) = text_in(alloc, kept.a.as_bytes())? else {
        return Err(RecordError::BadText { place: 0 });
    };
    let Some(key) = text_in(alloc, kept.b.as_bytes())? else {
        return Err(RecordError::BadText { place: 1 });
    };
    let Some(value) = text_in(alloc, kept.c.as_bytes())? else {
        return Err(RecordError::BadText { place: 2 });
    };
    Ok(Entry::Choice { user, key, value })
}

/// The entry of a record, or the first rule that it breaks.
pub fn read_record(alloc: Global, kept: &Record) -> Result<Entry, RecordError>
    ensures { Gives fault_told result (entry_of kept.now) }
{
    match kept.kind {
        1 => read_edit(alloc, kept),
        2 => read_choice(alloc, kept),
        kind => Err(RecordError::BadKind { kind }),
    }
}
