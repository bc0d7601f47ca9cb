//! What a view is opened over: what the texts say, and what room is made.
ghost use Rattle.std.specs.Prelude.{Err, IfErr, IfOk};
ghost use Rattle.rl_view_spec.specs.Rows.{AreRegistrable};
ghost use Rattle.rl_book.specs.Opens.{IsReady, Opens};
ghost use Rattle.rl_book.specs.Reads.{SaysParts, SaysRows};

use crate::answer::Run;
use crate::error::OpenError;
use crate::given::{Delivered, none_delivered};
use crate::held::{Place, places_held};
use rl_book_spec::Plan;
use rl_names::{Blob, Row};
use rl_registry::Registry;
use rl_states::Table;
use rl_store::Store;
use rl_wire::{Part, Startup, WireError, read_answer, read_startup};
use std::alloc::Global;

/// What a view is opened over, but for the store.
#[derive(Drop)]
pub(crate) struct Ready {
    pub startup: Blob,
    pub embedded: Vec<Part>,
    pub places: Vec<Option<Place>>,
    pub table: Table,
    pub delivered: Vec<Option<Delivered>>,
    pub runs: Vec<Run>,
}

/// The rows that a startup text registers.
pub(crate) fn rows_said(alloc: Global, startup: &[u8]) -> Result<Vec<Row>, OpenError>
    ensures rows { SaysRows result startup.now }
    ensures registrable { IfOk result (λ rows. AreRegistrable rows.items) }
{
    match read_startup(alloc, startup) {
        Ok(said) => {
            let Startup { sources: _, rows } = said;
            Ok(rows.into_vec())
        }
        Err(WireError::BadLine { line }) => Err(OpenError::BadStartup { line }),
        Err(WireError::NoMemory) => Err(OpenError::NoMemory),
    }
}

/// The parts that an embedded text brings.
pub(crate) fn parts_said(alloc: Global, embedded: &[u8]) -> Result<Vec<Part>, OpenError>
    ensures { SaysParts result embedded.now }
{
    match read_answer(alloc, embedded) {
        Ok(parts) => Ok(parts),
        Err(WireError::BadLine { line }) => Err(OpenError::BadEmbedded { line }),
        Err(WireError::NoMemory) => Err(OpenError::NoMemory),
    }
}

/// Reads both texts, registers the rows, looks up what is stored for them, and makes room.
pub(crate) fn prepare(
    alloc: Global,
    startup: &[u8],
    plan: &Plan,
    store: &Store,
) -> Result<Ready, OpenError>
    ensures ready { IfOk result (λ ready. IsReady ready startup.now plan.now store.now.pairs) }
    ensures refused { IfErr result (λ why. Opens (Err why) startup.now plan.now store.now.pairs) }
{
    let rows = rows_said(alloc, startup)?;
    let embedded = parts_said(alloc, plan.embedded.as_bytes())?;
    let registry = Registry::read(alloc, rows, plan.features.as_slice())?;
    let count = registry.count();
    let runs = Vec::with_capacity(alloc, count as usize)?;
    let delivered = none_delivered(alloc, count)?;
    let places = places_held(alloc, &registry, plan, embedded.as_slice(), store)?;
    let table = Table::open(alloc, registry)?;
    let startup = Blob::of(alloc, startup)?;
    Ok(Ready {
        startup,
        embedded,
        places,
        table,
        delivered,
        runs,
    })
}
