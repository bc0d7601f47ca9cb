//! What rows are given when they are touched: parts that came with the page, and parts that were stored under their keys.
ghost use Rattle.std.specs.Prelude.{◌≡◌, IfOk, None, Some, map, option_and_then, option_map, slice_get};
ghost use Rattle.rl_book_spec.specs.Opening.{part_name};
ghost use Rattle.rl_book_spec.specs.declared.Stored.{Stored};
ghost use Rattle.rl_book.specs.Held.{ArePlaces, AreNamed, NamesStored, gift_at, gift_by, gift_for, gift_in, gifts_at, gifts_of, stored_for};
ghost use Rattle.rl_book.specs.Opens.{opening_of};

use crate::touching::name_of;
use rl_book_spec::{Origin, Plan};
use rl_names::{Group, NoMemory, Row};
use rl_registry::Registry;
use rl_store::Store;
use rl_wire::Part;
use std::alloc::Global;
use std::marker::Model;

/// Where the part stands that a row is given when it is touched.
#[derive(Clone, Copy, Debug, PartialEq, Eq)]
pub enum Place {
    /// Among those that came with the page.
    Embedded { at: usize },
    /// Among those that were stored.
    Stored { at: u32 },
}

/// The parts that came with the page, the store, and for each row where the part stands that it is given.
#[derive(Drop)]
pub struct Held {
    pub(crate) embedded: Vec<Part>,
    pub(crate) store: Store,
    pub(crate) places: Vec<Option<Place>>,
}

impl Model for Held {
    ghost use Rattle.rl_book.specs.Held.{Gifts, gifts_at};

    ghost Value = { Gifts };

    ghost view = { λ h. record { embedded = h.embedded.items; store = h.store; gifts = gifts_at h.embedded.items h.store.pairs h.places.items } };
}

/// For each row the place of the first of these parts that has its name.
fn places_of(
    alloc: Global,
    registry: &Registry,
    parts: &[Part],
) -> Result<Vec<Option<usize>>, NoMemory>
    ensures { IfOk result (λ places. ArePlaces registry.now parts.now places.items) }
{
    let mut places = vec![in alloc; None; registry.count() as usize]?;
    let mut at = parts.len();
    'parts: while at > 0 {
        at -= 1;
        if let Some(row) = registry.find(name_of(&parts[at])) {
            places[row as usize] = Some(at);
        }
    }
    Ok(places)
}

/// The number of the pair that a row is given, where no part came for it with the page. In debug none is.
fn stored_place(store: &Store, debug: bool, row: &Row) -> Option<u32>
    ensures found { option_and_then (slice_get store.now.pairs) result ≡ stored_for debug store.now.pairs row.now }
    ensures named { (stored : Stored) → stored_for debug store.now.pairs row.now ≡ Some stored → part_name stored.part ≡ row.now.name }
{
    if debug || matches!(row.group, Group::Private) {
        return None;
    }
    match &row.version {
        Some(version) => store.place(&row.name, version),
        None => None,
    }
}

/// Where the part stands that a row is given: at the place of the first that came with the page, if it has one, or among
/// those that were stored.
fn place_for(
    parts: &[Part],
    store: &Store,
    debug: bool,
    row: &Row,
    first: Option<usize>,
) -> Option<Place>
    ensures given { option_and_then (gift_at parts.now store.now.pairs) result
        ≡ gift_by (option_and_then (slice_get parts.now) first) (stored_for debug store.now.pairs row.now) }
    ensures named { (stored : Stored) → option_and_then (slice_get parts.now) first ≡ None → stored_for debug store.now.pairs row.now ≡ Some stored
        → part_name stored.part ≡ row.now.name }
{
    if let Some(at) = first {
        if at < parts.len() {
            return Some(Place::Embedded { at });
        }
    }
    match stored_place(store, debug, row) {
        Some(at) => Some(Place::Stored { at }),
        None => None,
    }
}

/// The place that a row has, if it has one.
fn first_at(firsts: &[Option<usize>], row: u32) -> Option<usize>
    ensures { result ≡ option_and_then (λ first. first) (slice_get firsts.now row) }
{
    match firsts.get(row as usize) {
        Some(first) => *first,
        None => None,
    }
}

/// For each row where the part stands that it is given, where each has the place of the first that came with the page.
fn places_for(
    alloc: Global,
    registry: &Registry,
    parts: &[Part],
    firsts: &[Option<usize>],
    store: &Store,
    debug: bool,
) -> Result<Vec<Option<Place>>, NoMemory>
    requires { ArePlaces registry.now parts.now firsts.now }
    ensures gifts { IfOk result (λ places. gifts_at parts.now store.now.pairs places.items
        ≡ map (gift_in parts.now debug store.now.pairs) registry.now.rows) }
    ensures named { IfOk result (λ places. NamesStored parts.now debug store.now.pairs registry.now.rows) }
{
    let mut places = Vec::with_capacity(alloc, registry.count() as usize)?;
    for row in 0..registry.count() {
        let first = first_at(firsts, row);
        let place = place_for(parts, store, debug, registry.row_at(row), first);
        places.push(place)?;
    }
    Ok(places)
}

/// For each row where the part stands that it is given when it is touched.
pub(crate) fn places_held(
    alloc: Global,
    registry: &Registry,
    plan: &Plan,
    parts: &[Part],
    store: &Store,
) -> Result<Vec<Option<Place>>, NoMemory>
    ensures gifts { IfOk result (λ places. gifts_at parts.now store.now.pairs places.items
        ≡ gifts_of (opening_of plan.now registry.now.rows parts.now store.now.pairs)) }
    ensures named { IfOk result (λ places. AreNamed (opening_of plan.now registry.now.rows parts.now store.now.pairs)) }
{
    let firsts = places_of(alloc, registry, parts)?;
    places_for(
        alloc,
        registry,
        parts,
        firsts.as_slice(),
        store,
        plan.base.debug,
    )
}

impl Held {
    /// The part that a row is given when it is touched, and where it is from.
    pub(crate) fn given(&self, row: u32) -> Option<(&Part, Origin)>
        ensures { option_map (λ given. (given.0.now, given.1)) result ≡ gift_for self.now.gifts row }
    {
        match self.places.get(row as usize) {
            Some(Some(Place::Embedded { at })) => match self.embedded.get(*at) {
                Some(part) => Some((part, Origin::Embedded)),
                None => None,
            },
            Some(Some(Place::Stored { at })) => {
                if *at < self.store.count() {
                    let stored = self.store.stored_at(*at);
                    Some((&stored.part, Origin::Stored { wire: stored.wire }))
                } else {
                    None
                }
            }
            Some(None) => None,
            None => None,
        }
    }

    /// The part that a row is given when it is touched.
    pub(crate) fn part(&self, row: u32) -> Option<&Part>
        ensures { option_map (λ part. part.now) result ≡ option_map (λ given. given.0) (gift_for self.now.gifts row) }
    {
        match self.given(row) {
            Some((part, _)) => Some(part),
            None => None,
        }
    }
}
