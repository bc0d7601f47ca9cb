//! What a step answers.
ghost use Rattle.std.specs.Prelude.{◌≡◌, ◌++◌, OnOk, codes, decimal};
ghost use Rattle.rl_reply.specs.Reply.{reply_text, source_word};

use crate::text::{write, write_number};
use rl_names::{NoMemory, Text};

/// What a step answers. Each is printed as one line.
#[derive(Drop)]
pub enum Reply {
    /// An edit or a choice was accepted: the number of its entry in the wiki's history, from 1.
    Revision {
        revision: u64,
    },
    /// An edit's title is none.
    RefusedTitle,
    /// The editor may not edit the page, or nobody chooses.
    RefusedPolicy,
    /// The page has another revision than the edit began from.
    RefusedConflict {
        current: u64,
    },
    /// A text, key or value is too long: how many bytes it has.
    RefusedLength {
        len: u64,
    },
    /// The history is full.
    RefusedFull,
    /// A choice's key is empty.
    RefusedKey,
    /// The clock was set, in milliseconds.
    Clock {
        now: u64,
    },
    /// A view was opened: its number in the session, from 0, and how many rows it has.
    View {
        view: u32,
        rows: u32,
    },
    /// All requested names resolve.
    UsingOk,
    /// A requested name leads to a name that no row has.
    UsingUnknown {
        name: Text,
    },
    /// A requested name leads to a name that depends on itself.
    UsingCycle {
        name: Text,
    },
    /// So many of the names to load were dropped.
    Dropped {
        count: u32,
    },
    /// A batch was taken: the number of the ask, from 0, whom it asks, and for what. The wiki itself is the empty source.
    Ask {
        number: u32,
        source: Text,
        query: Text,
    },
    /// No batch waits.
    TakeNone,
    /// An ask was answered: the number of the answer, from 0.
    Wire {
        wire: u32,
    },
    /// No ask has this number.
    NoAsk,
    /// An answer was delivered: how many of its parts were used, and how many were passed over.
    Took {
        used: u32,
        passed: u32,
    },
    /// No answer has this number.
    NoWire,
    /// An ask was lost, and its batch waits again after so many tries.
    Again {
        tries: u32,
    },
    /// An ask was lost for the last time, and its batch was given up.
    GivenUp,
    /// The batch of the ask is settled.
    Settled,
    /// The ask was lost before.
    LostBefore,
    /// The view was closed.
    Closed,
    /// No view is open.
    NoView,
}

/// How a source is printed: the wiki itself is `local`.
fn source_word(source: &Text) -> &str
    ensures { result.now ≡ source_word source.now }
{
    if source.as_bytes().is_empty() {
        "local"
    } else {
        source.as_str()
    }
}

/// Adds a text and a number.
fn write_counted(out: &mut Vec<u8>, text: &str, number: u64) -> Result<(), NoMemory>
    ensures { OnOk result (out.new.items ≡ out.old.items ++ (text.now ++ decimal number)) }
{
    write(out, text)?;
    write_number(out, number)
}

/// Adds a text and a name.
fn write_named(out: &mut Vec<u8>, text: &str, name: &Text) -> Result<(), NoMemory>
    ensures { OnOk result (out.new.items ≡ out.old.items ++ (text.now ++ name.now)) }
{
    write(out, text)?;
    write(out, name.as_str())
}

/// Adds two texts, each with a number behind it.
fn write_counted_twice(
    out: &mut Vec<u8>,
    first: &str,
    number: u32,
    second: &str,
    other: u32,
) -> Result<(), NoMemory>
    ensures { OnOk result (out.new.items ≡ out.old.items ++ (first.now ++ decimal number ++ second.now ++ decimal other)) }
{
    write_counted(out, first, number.into())?;
    write_counted(out, second, other.into())
}

/// Adds an ask: its number, its source and its query.
fn write_ask(out: &mut Vec<u8>, number: u32, source: &Text, query: &Text) -> Result<(), NoMemory>
    ensures { OnOk result (out.new.items ≡ out.old.items
        ++ (codes "ask " ++ decimal number ++ codes " " ++ source_word source.now ++ codes " " ++ query.now)) }
{
    write_counted(out, "ask ", number.into())?;
    write(out, " ")?;
    write(out, source_word(source))?;
    write_named(out, " ", query)
}

impl Reply {
    /// Adds the reply's text, without a line end.
    pub fn write(&self, out: &mut Vec<u8>) -> Result<(), NoMemory>
        ensures { OnOk result (out.new.items ≡ out.old.items ++ reply_text self.now) }
    {
        match self {
            Reply::Revision { revision } => write_counted(out, "revision ", *revision),
            Reply::RefusedTitle => write(out, "refused title"),
            Reply::RefusedPolicy => write(out, "refused policy"),
            Reply::RefusedConflict { current } => write_counted(out, "refused conflict ", *current),
            Reply::RefusedLength { len } => write_counted(out, "refused length ", *len),
            Reply::RefusedFull => write(out, "refused full"),
            Reply::RefusedKey => write(out, "refused key"),
            Reply::Clock { now } => write_counted(out, "clock ", *now),
            Reply::View { view, rows } => write_counted_twice(out, "view ", *view, " rows ", *rows),
            Reply::UsingOk => write(out, "using ok"),
            Reply::UsingUnknown { name } => write_named(out, "using unknown ", name),
            Reply::UsingCycle { name } => write_named(out, "using cycle ", name),
            Reply::Dropped { count } => write_counted(out, "load dropped ", (*count).into()),
            Reply::Ask {
                number,
                source,
                query,
            } => write_ask(out, *number, source, query),
            Reply::TakeNone => write(out, "take none"),
            Reply::Wire { wire } => write_counted(out, "wire ", (*wire).into()),
            Reply::NoAsk => write(out, "no ask"),
            Reply::Took { used, passed } => write_counted_twice(
                out, "took ", *used, " passed ", *passed,
            ),
            Reply::NoWire => write(out, "no wire"),
            Reply::Again { tries } => write_counted(out, "again ", (*tries).into()),
            Reply::GivenUp => write(out, "given up"),
            Reply::Settled => write(out, "settled"),
            Reply::LostBefore => write(out, "lost before"),
            Reply::Closed => write(out, "closed"),
            Reply::NoView => write(out, "no view"),
        }
    }
}
