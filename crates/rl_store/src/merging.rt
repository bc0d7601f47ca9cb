//! What stays of a store at a close, and the new pairs among it.
ghost use Rattle.std.specs.Prelude.{◌≡◌, ◌<◌, ◌≤◌, ◌+◌, ◌++◌, ◌^◌, length, map, option_and_then, slice_get, position, IfOk, IfSome, OnOk};
ghost use Rattle.std.specs.Prelude.{◌∷◌, [], bytes_eq, count_by};
ghost use Rattle.std.specs.List.{IsDistinct};
ghost use Rattle.std.specs.List.Sorted.{IsPermutation, IsSortedBy, IsStrictlySortedBy};
ghost use Rattle.std.specs.Ordering.{nat_cmp};
ghost use Rattle.std.specs.Cmp.Lexicographic.{slice_cmp};
ghost use Rattle.std.specs.Vec.{vec_capacity};
ghost use Rattle.rl_names.specs.Name.{key_text};
ghost use Rattle.rl_book_spec.specs.Batches.{sorted_by};
ghost use Rattle.rl_book_spec.specs.Closing.{age_at, is_key_of, stored_before};
ghost use Rattle.rl_store.specs.Merging.{is_under, marked, picked, stays, NamesTellKeys};
ghost use Rattle.rl_store.specs.Stock.{keys_of, pair_of};

use crate::keys::{compare, compare_with};
use rl_book_spec::Stored;
use rl_names::{Name, NoMemory, Version};
use rl_registry::Registry;
use std::alloc::Global;

/// How many pairs a store keeps at most.
const MAX_PAIRS: usize = 4_294_967_295;

/// Pairs of different names have different keys.
pub fn name_laws()
    ensures { NamesTellKeys }
{}

/// The place of the pair under a key, among pairs in byte order of their key texts.
pub(crate) fn place_of(pairs: &[Stored], name: &Name, version: &Version) -> Option<usize>
    requires { IsStrictlySortedBy (slice_cmp nat_cmp) (keys_of pairs.now) }
    ensures found { option_and_then (slice_get pairs.now) result ≡ pair_of (record { name = name.now; version = version.now }) pairs.now }
    ensures place { result ≡ position (is_under (key_text name.now version.now)) pairs.now }
    ensures within { IfSome result (λ at. at < length pairs.now) }
{
    pairs
        .binary_search_by(|stored| compare_with(&stored.key, name, version))
        .ok()
}

/// Puts a mark at the pair under a key, if there is one.
fn mark_at(pairs: &[Stored], name: &Name, version: &Version, mark: bool, marks: &mut Vec<bool>)
    requires ascend { IsStrictlySortedBy (slice_cmp nat_cmp) (keys_of pairs.now) }
    requires long { length marks.old.items ≡ length pairs.now }
    ensures { marks.new.items ≡ marked (key_text name.now version.now) mark pairs.now marks.old.items }
{
    if let Some(at) = place_of(pairs, name, version) {
        marks[at] = mark;
    }
}

/// Whether each pair is under the key of a row.
fn row_marks(alloc: Global, registry: &Registry, pairs: &[Stored]) -> Result<Vec<bool>, NoMemory>
    requires { IsStrictlySortedBy (slice_cmp nat_cmp) (keys_of pairs.now) }
    ensures { IfOk result (λ marks. marks.items ≡ map (λ stored. is_key_of registry.now stored.key) pairs.now) }
{
    let mut marks = vec![in alloc; false; pairs.len()]?;
    'rows: for number in 0..registry.count() {
        let row = registry.row_at(number);
        if let Some(version) = &row.version {
            mark_at(pairs, &row.name, version, true, &mut marks);
        }
    }
    Ok(marks)
}

/// Whether each pair stays beside new ones.
fn marks_of(
    alloc: Global,
    registry: &Registry,
    pairs: &[Stored],
    fresh: &[Stored],
) -> Result<Vec<bool>, NoMemory>
    requires { IsStrictlySortedBy (slice_cmp nat_cmp) (keys_of pairs.now) }
    ensures { IfOk result (λ marks. marks.items ≡ map (stays registry.now fresh.now) pairs.now) }
{
    let mut marks = row_marks(alloc, registry, pairs)?;
    'fresh: for stored in fresh {
        let key = &stored.key;
        mark_at(pairs, &key.name, &key.version, false, &mut marks);
    }
    Ok(marks)
}

/// How many are marked.
fn count_of(marks: &[bool]) -> usize
    ensures { result ≡ count_by (λ mark. mark) marks.now }
{
    marks.iter().filter(|mark| **mark).count()
}

/// Whether each pair stays beside new ones, for which room is made.
pub(crate) fn prepare(
    alloc: Global,
    registry: &Registry,
    pairs: &[Stored],
    fresh: &mut Vec<Stored>,
) -> Result<Vec<bool>, NoMemory>
    requires { IsStrictlySortedBy (slice_cmp nat_cmp) (keys_of pairs.now) }
    ensures marks { IfOk result (λ marks. marks.items ≡ map (stays registry.now fresh.old.items) pairs.now) }
    ensures fresh { fresh.new.items ≡ fresh.old.items }
    ensures room { IfOk result (λ marks. length fresh.new.items + length (picked marks.items pairs.now) ≤ vec_capacity fresh.new) }
    ensures few { IfOk result (λ marks. length fresh.new.items + length (picked marks.items pairs.now) < 2 ^ 32) }
{
    let marks = marks_of(alloc, registry, pairs, fresh.as_slice())?;
    let count = count_of(marks.as_slice());
    if fresh.len() > MAX_PAIRS || count > MAX_PAIRS - fresh.len() {
        return Err(NoMemory);
    }
    fresh.reserve(count)?;
    Ok(marks)
}

/// Moves a pair behind others where it is marked, for which there is room.
fn keep(mark: bool, stored: Stored, into: &mut Vec<Stored>)
    requires { length into.old.items + length (picked (mark ∷ []) (stored ∷ [])) ≤ vec_capacity into.old }
    ensures items { into.new.items ≡ into.old.items ++ picked (mark ∷ []) (stored ∷ []) }
    ensures room { vec_capacity into.old ≤ vec_capacity into.new }
{
    if mark && into.push(stored).is_err() {
        unreachable!()
    }
}

/// Moves the marked pairs behind others, for which there is room.
fn gather(mut pairs: Vec<Stored>, mut marks: Vec<bool>, into: &mut Vec<Stored>)
    requires long { length marks.items ≡ length pairs.items }
    requires room { length into.old.items + length (picked marks.items pairs.items) ≤ vec_capacity into.old }
    ensures { IsPermutation (into.old.items ++ picked marks.items pairs.items) into.new.items }
{
    'pairs: while let Some(stored) = pairs.pop() {
        let mark = marks.pop().unwrap_or(false);
        keep(mark, stored, into);
    }
}

/// Sorts pairs in byte order of their key texts.
fn sort(pairs: &mut Vec<Stored>)
    ensures moved { IsPermutation pairs.old.items pairs.new.items }
    ensures order { IsSortedBy stored_before pairs.new.items }
{
    pairs.sort_unstable_by(|a, b| compare(&a.key, &b.key));
}

/// New pairs and the marked older ones, by key.
pub(crate) fn merged(pairs: Vec<Stored>, marks: Vec<bool>, mut fresh: Vec<Stored>) -> Vec<Stored>
    requires long { length marks.items ≡ length pairs.items }
    requires room { length fresh.items + length (picked marks.items pairs.items) ≤ vec_capacity fresh }
    requires distinct { IsDistinct bytes_eq (keys_of (fresh.items ++ picked marks.items pairs.items)) }
    ensures { result.items ≡ sorted_by stored_before (fresh.items ++ picked marks.items pairs.items) }
{
    gather(pairs, marks, &mut fresh);
    sort(&mut fresh);
    fresh
}

/// The age of a store that is written at a moment.
pub(crate) fn age_at(now: u64) -> u64
    requires { now < 10 ^ 18 }
    ensures { result ≡ age_at now }
{
    (now + 9_999_999) / 10_000_000
}
