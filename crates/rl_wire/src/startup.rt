//! The startup text: the sources that modules come from, and the rows of the registry.
ghost use Rattle.std.specs.Prelude.{◌≡◌, IfOk, IfErr, IfSome, Ok, option_map};
ghost use Rattle.std.specs.List.{slice_split};
ghost use Rattle.rl_names.specs.Meant.{ButForMemory};
ghost use Rattle.rl_wire.specs.Arguments.{is_line_end, line_told, TellsLine};
ghost use Rattle.rl_wire.specs.Startup.{fits_group, is_empty, is_writable, startup_text, AreWritable, IsWritable};
ghost use Rattle.rl_wire.specs.StartupReading.{rows_alone, startup_of, TextsSayStartups};

use crate::error::WireError;
use crate::read::cut_line;
use crate::read_rows::rows_in;
use crate::rows::add_rows;
use crate::sources::{add_sources, sources_in};
use rl_names::{Group, NoMemory, Row, Seq, Source, Text, Version};
use std::alloc::Global;

/// What a client starts from.
#[derive(Drop)]
pub struct Startup {
    /// Where the modules of each source are served, in byte order of the sources' names.
    pub sources: Seq<Source>,
    /// The rows of the registry.
    pub rows: Seq<Row>,
}

/// Whether a version stands exactly where the group is not private, and the number of a group of
/// its own is 2 or more.
fn fits_group(group: Group, version: &Option<Version>) -> bool
    ensures { result ≡ fits_group group version.now }
{
    match group {
        Group::Plain | Group::User => version.is_some(),
        Group::Private => version.is_none(),
        Group::Other(number) => number > 1 && version.is_some(),
    }
}

fn is_empty(skip: &Option<Text>) -> bool
    ensures { result ≡ is_empty skip.now }
{
    match skip {
        Some(skip) => skip.is_empty(),
        None => false,
    }
}

/// Whether a row may be written: it has a version exactly where it is not private, a group of its
/// own has a number from 2, its source is not named `local`, and a skip is not empty.
pub fn is_writable(row: &Row) -> bool
    ensures { result ≡ is_writable row.now }
{
    fits_group(row.group, &row.version) && row.source.as_str() != "local" && !is_empty(&row.skip)
}

/// The startup text: the line of the sources, and that of the rows.
pub fn write_startup(alloc: Global, startup: &Startup) -> Result<Text, NoMemory>
    // The names of the sources strictly increase in byte order, and each row may be written.
    requires { IsWritable startup.now }
    ensures text { IfOk result (λ t. t ≡ startup_text startup.now) }
    ensures again { IfOk result (λ t. startup_of t ≡ Ok startup.now) }
{
    let mut out = String::new(alloc);
    add_sources(alloc, &mut out, startup.sources.as_slice())?;
    out.push_str("\n")?;
    add_rows(alloc, &mut out, startup.rows.as_slice())?;
    out.push_str("\n")?;
    Ok(Text::from_string(out))
}

/// The rows whose line, with its end, the bytes are.
fn rows_alone(alloc: Global, bytes: &[u8]) -> Result<Option<Vec<Row>>, NoMemory>
    ensures value { IfOk result (λ rows. option_map (λ v. v.items) rows ≡ rows_alone (slice_split is_line_end bytes.now)) }
    ensures writable { IfOk result (λ rows. IfSome rows (λ v. AreWritable v.items)) }
{
    let Some((line, behind)) = cut_line(bytes) else {
        return Ok(None);
    };
    if !behind.is_empty() {
        return Ok(None);
    }
    rows_in(alloc, line)
}

/// The startup whose text the bytes are. A first line that is not as one is written, or that has
/// no end, is line 1; else, where the second line is not so or something stands behind it, line 2.
pub fn read_startup(alloc: Global, bytes: &[u8]) -> Result<Startup, WireError>
    ensures answer { ButForMemory line_told (λ s. startup_of bytes.now ≡ Ok s) (TellsLine (startup_of bytes.now)) result }

    // The bytes are the text of what is read, which may be written.
    ensures written { IfOk result (λ s. startup_text s ≡ bytes.now) }
    ensures writable { IfOk result IsWritable }
{
    let Some((line, rest)) = cut_line(bytes) else {
        return Err(WireError::BadLine { line: 1 });
    };
    let Some(sources) = sources_in(alloc, line)? else {
        return Err(WireError::BadLine { line: 1 });
    };
    let Some(rows) = rows_alone(alloc, rest)? else {
        return Err(WireError::BadLine { line: 2 });
    };
    Ok(Startup {
        sources: Seq::of(sources),
        rows: Seq::of(rows),
    })
}

/// A startup text says its startup, no other text says it, and of any other text the first bad line
/// is told. So each text has one startup.
pub fn startup_laws()
    ensures { TextsSayStartups }
{}
