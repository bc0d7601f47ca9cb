//! The top call.
ghost use Rattle.std.specs.Prelude.{◌≡◌, ◌⊎◌, ◌≤◌, ℕ, List, None, Ok, length, map};
ghost use Rattle.std.specs.List.{list_any};
ghost use Rattle.rl_names.specs.declared.name.Key.{Key};
ghost use Rattle.rl_base.specs.Causes.{Rose};
ghost use Rattle.rl_view.specs.Heard.{throws_by};
ghost use Rattle.rl_cli.specs.Answers.{Answers, AnswersVerdict, AreHeard, Completes, HoldsOfScript, IsLongFile, IsSilent, IsUnreadFile};
ghost use Rattle.rl_cli.specs.Ending.{ending};
ghost use Rattle.rl_cli.specs.Meant.{meant};
ghost use Rattle.rl_cli.specs.Verdict.{executed_by, verdict_on};
ghost use Rattle.rl_cli.specs.Words.{command_of, files_of, texts};

use crate::end::End;
use crate::file::{FileError, read_files};
use crate::observers::Boxes;
use crate::output::write_all;
use crate::status::{Ended, Status};
use crate::words::Command;
use crate::work::{Printed, work};
use rl_base::{Hears, Observer, Sink, SinkError, Tree};
use rl_names::{Blob, Counted, MAX_FILE_BYTES, NoMemory};
use std::alloc::Global;

/// Does what the words say: reads the words, fetches each file that they name and checks its size, does
/// the work, and writes the output once it is whole. The observers are told of each execution, in their
/// order, and a module threw where one of them throws; they are handed back.
pub fn run<T: Tree, O: Sink>(
    alloc: Global,
    words: &[&str],
    tree: &mut T,
    out: &mut O,
    observers: Vec<Box<dyn Observer + Send>>,
) -> Ended
    // The observers that are handed back are the same boxes in the same order, and throw as they did.
    ensures observers { (map (λ o. o.ptr) result.observers.items ≡ map (λ o. o.ptr) observers.items)
        × (map (λ o. o.vtable) result.observers.items ≡ map (λ o. o.vtable) observers.items) }
    ensures throws_stay { (k : Key) (s : List ℕ) → map (λ o. throws o k s) result.observers.items ≡ map (λ o. throws o k s) observers.items }

    // How the call ends, what it wrote and what was heard of, by the words and the bytes of the files that they name.
    ensures bad_words { result.status ≡ Status.BadWords → command_of (texts words.now) ≡ None }
    ensures no_command { command_of (texts words.now) ≡ None → (result.status ≡ Status.BadWords) ⊎ (result.status ≡ Status.NoMemory) }
    ensures answer { Answers (throws_by (λ k s. list_any (λ o. throws o k s) observers.items))
        (T.files tree.old) (texts words.now) (ending result.status result.word result.breach result.unready) (O.written out.old) (O.written out.new)
        (map (λ o. ran o) observers.items) (map (λ o. ran o) result.observers.items) }
    ensures too_large { (count : ℕ) → result.status ≡ Status.TooLarge Counted.FileBytes count
        → IsLongFile (T.files tree.old) (texts words.now) result.word count }
    ensures unwritten { IsSilent result.status → O.written out.new ≡ O.written out.old }
    ensures unheard { IsSilent result.status → map (λ o. ran o) result.observers.items ≡ map (λ o. ran o) observers.items }

    // A fault comes only where its own count of faults rose, or the file is told and not there.
    ensures read_fault { result.status ≡ Status.ReadFault
        → IsUnreadFile (T.faults tree.old) (T.faults tree.new) (T.blamed tree.new) (T.files tree.old) (texts words.now) result.word }
    ensures write_fault { result.status ≡ Status.WriteFault → Rose (O.faults out.old) (O.faults out.new) }

    // No file changes, and no count of faults falls.
    ensures files_stay { T.files tree.new ≡ T.files tree.old }
    ensures tree_never_falls { T.faults tree.old ≤ T.faults tree.new }
    ensures out_never_falls { O.faults out.old ≤ O.faults out.new }

    // The headline of the script whose output was printed, with what was heard of it, and, where the tree
    // tells its files, that with no fault the ending is that of the words, the files and what observers
    // say alone, but for want of memory.
    ensures headline { HoldsOfScript (throws_by (λ k s. list_any (λ o. throws o k s) observers.items))
        (T.files tree.old) (texts words.now) result.status (O.written out.old) (O.written out.new)
        (map (λ o. ran o) observers.items) (map (λ o. ran o) result.observers.items) }
    ensures complete { Completes (throws_by (λ k s. list_any (λ o. throws o k s) observers.items))
        (T.files tree.old) (texts words.now) (T.faults tree.old) (T.faults tree.new) (O.faults out.old) (O.faults out.new)
        (ending result.status result.word result.breach result.unready) }
{
    let mut boxes = Boxes { all: observers };
    let End {
        status,
        word,
        breach,
        unready,
    } = end_of(alloc, words, tree, out, &mut boxes);
    Ended {
        status,
        word,
        breach,
        unready,
        observers: boxes.all,
    }
}

/// How a call ends, which writes its output.
fn end_of<T: Tree, O: Sink, H: Hears>(
    alloc: Global,
    words: &[&str],
    tree: &mut T,
    out: &mut O,
    observers: &mut H,
) -> End
    ensures answer { Answers (throws_by (H.says observers.old)) (T.files tree.old) (texts words.now)
        (ending result.status result.word result.breach result.unready) (O.written out.old) (O.written out.new) (H.told observers.old) (H.told observers.new) }
    ensures same { (first : H) → H.same first observers.old → H.same first observers.new }
    ensures read_fault { result.status ≡ Status.ReadFault
        → IsUnreadFile (T.faults tree.old) (T.faults tree.new) (T.blamed tree.new) (T.files tree.old) (texts words.now) result.word }
    ensures write_fault { result.status ≡ Status.WriteFault → Rose (O.faults out.old) (O.faults out.new) }
    ensures files_stay { T.files tree.new ≡ T.files tree.old }
    ensures tree_never_falls { T.faults tree.old ≤ T.faults tree.new }
    ensures out_never_falls { O.faults out.old ≤ O.faults out.new }
{
    let command = match Command::read(alloc, words) {
        Ok(Some(command)) => command,
        Ok(None) => return End::plain(Status::BadWords),
        Err(NoMemory) => return End::plain(Status::NoMemory),
    };
    match read_files(alloc, tree, words, command.files()) {
        Ok(files) => answer(alloc, &command, files.as_slice(), out, observers),
        Err(FileError::Failed { word }) => End::about(word, Status::ReadFault),
        Err(FileError::TooLong { word }) => {
            let what = Counted::FileBytes;
            let count = MAX_FILE_BYTES + 1;
            End::about(word, Status::TooLarge { what, count })
        }
        Err(FileError::NoMemory) => End::plain(Status::NoMemory),
    }
}

/// Does what a command asks for of the bytes of its files, and writes the output.
fn answer<O: Sink, H: Hears>(
    alloc: Global,
    command: &Command,
    files: &[Blob],
    out: &mut O,
    observers: &mut H,
) -> End
    ensures answers { AnswersVerdict (verdict_on (throws_by (H.says observers.old)) (meant command.now) files.now)
        (ending result.status result.word result.breach result.unready) (O.written out.old) (O.written out.new) }
    ensures heard { AreHeard result.status (executed_by (throws_by (H.says observers.old)) (meant command.now) files.now)
        (H.told observers.old) (H.told observers.new) }
    ensures same { (first : H) → H.same first observers.old → H.same first observers.new }
    ensures write_fault { result.status ≡ Status.WriteFault → Rose (O.faults out.old) (O.faults out.new) }
    ensures never_falls { O.faults out.old ≤ O.faults out.new }
{
    match work(alloc, command, files, observers) {
        Ok(printed) => write_output(printed, out),
        Err(error) => End::of(error),
    }
}

/// Writes an output.
fn write_output<O: Sink>(printed: Printed, out: &mut O) -> End
    ensures answers { AnswersVerdict (Ok printed) (ending result.status result.word result.breach result.unready) (O.written out.old) (O.written out.new) }
    ensures write_fault { result.status ≡ Status.WriteFault → Rose (O.faults out.old) (O.faults out.new) }
    ensures never_falls { O.faults out.old ≤ O.faults out.new }
{
    match write_all(out, printed.text.as_bytes()) {
        Ok(()) if printed.ready => End::plain(Status::Done),
        Ok(()) => End::unready(printed.word, printed.unready),
        Err(SinkError::Failed) => End::plain(Status::WriteFault),
        Err(SinkError::NoMemory) => End::plain(Status::NoMemory),
    }
}
