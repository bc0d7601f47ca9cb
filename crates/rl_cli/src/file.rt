//! The files of a call, fetched one after another and read whole.
ghost use Rattle.std.specs.Prelude.{◌≡◌, ◌≤◌, IfOk, IfErr, length};
ghost use Rattle.rl_cli.specs.Files.{AreFiles, IsFile};
ghost use Rattle.rl_cli.specs.Stops.{StopsAt, StopsReading};
ghost use Rattle.rl_cli.specs.Words.{names_at, texts};

use crate::words::word_at;
use rl_base::{FetchError, Tree};
use rl_names::{Blob, MAX_FILE_BYTES};
use std::alloc::Global;

/// Why the files were not read.
#[derive(Clone, Copy, Debug, PartialEq, Eq)]
pub enum FileError {
    /// The file of this word is not there, or the outside failed.
    Failed { word: u32 },
    /// The file of this word is longer than a file may be.
    TooLong { word: u32 },
    NoMemory,
}

/// The bytes of a file, which the word of this place names. One more than a file may have are asked
/// for, so that a file that is too long shows.
fn read_file<T: Tree>(tree: &mut T, name: &str, word: u32) -> Result<Blob, FileError>
    ensures file { IfOk result (λ bytes. IsFile (T.files tree.old) name.now bytes) }
    ensures stops { IfErr result (StopsAt (T.faults tree.old) (T.faults tree.new) (T.blamed tree.new) (T.files tree.old) name.now word) }
    ensures files_stay { T.files tree.new ≡ T.files tree.old }
    ensures never_falls { T.faults tree.old ≤ T.faults tree.new }
{
    match tree.fetch(name, MAX_FILE_BYTES + 1) {
        Ok(bytes) if bytes.as_bytes().len() as u64 > MAX_FILE_BYTES => {
            Err(FileError::TooLong { word })
        }
        Ok(bytes) => Ok(bytes),
        Err(FetchError::Absent) => Err(FileError::Failed { word }),
        Err(FetchError::Failed) => Err(FileError::Failed { word }),
        Err(FetchError::NoMemory) => Err(FileError::NoMemory),
    }
}

/// The bytes of the files that the words of these places name, in their order.
pub fn read_files<T: Tree>(
    alloc: Global,
    tree: &mut T,
    words: &[&str],
    places: &[u32],
) -> Result<Vec<Blob>, FileError>
    ensures files { IfOk result (λ all. AreFiles (T.files tree.old) (names_at (texts words.now) places.now) all.items) }
    ensures count { IfOk result (λ all. length all.items ≡ length places.now) }
    ensures stops { IfErr result (StopsReading (T.faults tree.old) (T.faults tree.new) (T.blamed tree.new) (T.files tree.old) (texts words.now) places.now) }
    ensures files_stay { T.files tree.new ≡ T.files tree.old }
    ensures never_falls { T.faults tree.old ≤ T.faults tree.new }
{
    let mut all = Vec::new(alloc);
    for place in places {
        let bytes = read_file(tree, word_at(words, *place), *place)?;
        if all.push(bytes).is_err() {
            return Err(FileError::NoMemory);
        }
    }
    Ok(all)
}
