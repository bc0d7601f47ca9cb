//! How many rows one query asks for.
ghost use Rattle.std.specs.Prelude.{◌≡◌, ◌+◌, ◌&&◌, ◌^◌, ◌<◌, ◌≤◌, IfOk, if◌then◌else◌, length, map, nat_le};
ghost use Rattle.std.specs.Ordering.{nat_cmp};
ghost use Rattle.std.specs.Cmp.Lexicographic.{slice_cmp};
ghost use Rattle.std.specs.BTreeSet.{contains_by};
ghost use Rattle.rl_names.specs.Packing.{front_of, suffix_of};
ghost use Rattle.rl_names.specs.Query.{query_text, size_of};
ghost use Rattle.rl_book_spec.specs.Batches.{encoded_len, group_rank, source_name};
ghost use Rattle.rl_batch.specs.Split.{is_split, seen, Fills};

use crate::order::{group_rank, source_name};
use rl_names::{Name, NoMemory, Query, Row, encoded_len_of};
use std::alloc::Global;
use std::collections::BTreeSet;

/// The front, up to the last dot and with it, and the suffix after it.
fn cut(name: &str) -> (&str, &str)
    ensures front { result.0.now ≡ front_of name.now }
    ensures suffix { result.1.now ≡ suffix_of name.now }
{
    match name.rfind('.') {
        Some(at) => name.split_at(at + 1),
        None => ("", name),
    }
}

/// Whether two rows have one source and one group.
fn is_split(a: &Row, b: &Row) -> bool
    ensures { result ≡ is_split a.now b.now }
{
    source_name(a) == source_name(b) && group_rank(a.group) == group_rank(b.group)
}

/// Whether a row goes on with a batch that begins with another, where both take no more than there is room for.
fn goes_on(first: &Row, row: &Row, len: u64, room: u64) -> bool
    ensures { result ≡ (is_split first.now row.now && nat_le len room) }
{
    is_split(first, row) && len <= room
}

/// What a name adds to a query that has names with these fronts.
fn added_len(fronts: &BTreeSet<&str>, name: &Name) -> u64
    ensures exact { result ≡ 3 + encoded_len (if contains_by (λ k. slice_cmp nat_cmp (front_of name.now) k.now) fronts.now
        then suffix_of name.now else name.now) }
    ensures most { result < 1024 }
{
    let bytes = name.as_bytes();
    let (front, suffix) = cut(name.as_str());
    if fronts.contains(front) {
        3 + encoded_len_of(suffix.as_bytes())
    } else {
        3 + encoded_len_of(bytes)
    }
}

/// How many of the rows, from the first on, one query asks for within the limit. The first is asked for in any case.
pub fn fill(
    alloc: Global,
    base: &Query,
    rows: &[(u32, &Row)],
    limit: u32,
) -> Result<usize, NoMemory>
    requires some { 0 < length rows.now }
    requires short { size_of base.now < 2 ^ 60 }
    ensures least { IfOk result (λ count. 0 < count) }
    ensures most { IfOk result (λ count. count ≤ length rows.now) }
    ensures cut { IfOk result (λ count. Fills (length (query_text base.now)) limit (map seen rows.now) count) }
{
    let first = rows[0].1;
    let room = u64::from(limit)
        .saturating_sub(base.encoded_len())
        .saturating_sub(23);
    let mut fronts = BTreeSet::new(alloc);
    let mut len = 0;
    'rows: for (at, (_, row)) in rows.iter().enumerate() {
        let added = added_len(&fronts, &row.name);
        if at > 0 && !goes_on(first, row, len + added, room) {
            return Ok(at);
        }
        len += added;
        fronts.insert(cut(row.name.as_str()).0)?;
    }
    Ok(rows.len())
}
