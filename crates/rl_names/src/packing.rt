//! Lists of names in one text: names with the same front, which ends at the last dot, share it.
ghost use Rattle.std.specs.Prelude.{◌≡◌, ℕ, List, ◌==◌, ◌<◌, ◌++◌, map, length, cond, if◌then◌else◌, codes, [], IfOk, OnOk, Some};
ghost use Rattle.std.specs.Prelude.{unwrap_or, string_bytes, bytes_eq};
ghost use Rattle.std.specs.Ordering.{nat_cmp};
ghost use Rattle.std.specs.Cmp.Lexicographic.{slice_cmp};
ghost use Rattle.std.specs.BTreeMap.{get_by};
ghost use Rattle.std.specs.List.{join_with_byte, slice_split};
ghost use Rattle.rl_names.specs.Counting.{divides_pieces};
ghost use Rattle.rl_names.specs.Grouping.{group_written, put_at};
ghost use Rattle.rl_names.specs.Packing.{distinct as distinct_of, expand as expand_of, expand_group, front_of, suffix_of, fronts as fronts_of, group_of};
ghost use Rattle.rl_names.specs.Packing.{pack as pack_of, packed_order as packed_order_of, AreNames};

use crate::name::Name;
use crate::text::{NoMemory, Text};
use std::alloc::{AllocError, Global};
use std::collections::{BTreeMap, BTreeSet};

/// Each text once, at its first place.
pub fn distinct(alloc: Global, texts: &[Text]) -> Result<Vec<Text>, NoMemory>
    ensures { IfOk result (λ v. v.items ≡ distinct_of texts.now) }
{
    let mut seen = BTreeSet::new(alloc);
    let mut kept = Vec::new(alloc);
    'texts: for text in texts {
        if seen.insert(text.as_str())? {
            kept.push(text.copy()?)?;
        }
    }
    Ok(kept)
}

/// The front, up to the last dot and with it, and the suffix after it.
fn cut(name: &str) -> (&str, &str)
    ensures front { result.0.now ≡ front_of name.now }
    ensures suffix { result.1.now ≡ suffix_of name.now }
{
    match name.rfind('.') {
        Some(at) => name.split_at(at + 1),
        None => ("", name),
    }
}

/// The place of the group with this front, which is the next one where there is none yet.
fn place_of<'a>(
    places: &mut BTreeMap<&'a str, usize>,
    front: &'a str,
    next: usize,
) -> Result<usize, NoMemory>
    ensures place { IfOk result (λ place. place ≡ unwrap_or (get_by (λ k. slice_cmp nat_cmp front.now k.now) places.old) next) }
    ensures noted { IfOk result (λ place. (q : List ℕ) → get_by (λ k. slice_cmp nat_cmp q k.now) places.new
        ≡ cond (bytes_eq front.now q) (Some place) (get_by (λ k. slice_cmp nat_cmp q k.now) places.old)) }
{
    if let Some(place) = places.get(front) {
        return Ok(*place);
    }
    places.insert(front, next)?;
    Ok(next)
}

/// Puts a name into the group at a place, or into a new one behind the last.
fn put<'a>(
    alloc: Global,
    groups: &mut Vec<Vec<&'a Name>>,
    place: usize,
    name: &'a Name,
) -> Result<(), NoMemory>
    ensures { OnOk result (map (λ group. map (λ n. n.now) group.items) groups.new.items
        ≡ put_at (map (λ group. map (λ n. n.now) group.items) groups.old.items) place name.now) }
{
    if place < groups.len() {
        groups[place].push(name)?;
        return Ok(());
    }
    let mut group = Vec::new(alloc);
    group.push(name)?;
    groups.push(group)?;
    Ok(())
}

/// The names by their fronts, in the order in which these first appear; the names of a group in their order.
fn groups<'a>(alloc: Global, names: &'a [Name]) -> Result<Vec<Vec<&'a Name>>, NoMemory>
    ensures grouped { IfOk result (λ v. map (λ group. map (λ n. n.now) group.items) v.items ≡ map (group_of names.now) (fronts_of names.now)) }
    ensures names { IfOk result (λ _. AreNames names.now) }
{
    let mut places = BTreeMap::new(alloc);
    let mut groups = Vec::new(alloc);
    'names: for name in names {
        let (front, _) = cut(name.text());
        let place = place_of(&mut places, front, groups.len())?;
        put(alloc, &mut groups, place, name)?;
    }
    Ok(groups)
}

/// What stands before the suffix of the name at a place of its group.
fn lead(place: usize, front: &str) -> &str
    ensures { result.now ≡ (if place == 0 then front.now else codes ",") }
{
    if place == 0 { front } else { "," }
}

/// What stands before the group at a place.
fn bar(place: usize) -> &'static str
    ensures { result.now ≡ (if place == 0 then [] else codes "|") }
{
    if place == 0 { "" } else { "|" }
}

/// Adds the front of a group once, and then the suffixes with commas between them.
fn push_group(out: &mut String, group: &[&Name]) -> Result<(), NoMemory>
    ensures { OnOk result (string_bytes out.new ≡ string_bytes out.old ++ group_written (map (λ n. n.now) group.now)) }
{
    'names: for (i, name) in group.iter().enumerate() {
        let (front, suffix) = cut(name.as_str());
        out.push_str(lead(i, front))?;
        out.push_str(suffix)?;
    }
    Ok(())
}

/// The groups with bars between them.
fn written(alloc: Global, groups: &[Vec<&Name>]) -> Result<Text, NoMemory>
    ensures { IfOk result (λ t. t ≡ join_with_byte 124 (map (λ group. group_written (map (λ n. n.now) group.items)) groups.now)) }
{
    let mut out = String::new(alloc);
    'groups: for (i, group) in groups.iter().enumerate() {
        out.push_str(bar(i))?;
        push_group(&mut out, group)?;
    }
    Ok(Text::from_string(out))
}

/// Writes names in one text, group by group: `a.b,c|d` for `a.b`, `a.c` and `d`.
pub fn pack(alloc: Global, names: &[Name]) -> Result<Text, NoMemory>
    ensures text { IfOk result (λ t. t ≡ pack_of names.now) }

    // What was packed is read again, group by group.
    ensures expands { IfOk result (λ t. 0 < length names.now → expand_of t ≡ packed_order_of names.now) }
{
    let groups = groups(alloc, names)?;
    written(alloc, &groups)
}

fn push_copies(order: &mut Vec<Name>, group: &[&Name]) -> Result<(), NoMemory>
    ensures { OnOk result (order.new.items ≡ order.old.items ++ map (λ n. n.now) group.now) }
{
    'names: for name in group {
        order.push(name.copy()?)?;
    }
    Ok(())
}

/// The names in the order in which `pack` writes them.
pub fn packed_order(alloc: Global, names: &[Name]) -> Result<Vec<Name>, NoMemory>
    ensures { IfOk result (λ v. v.items ≡ packed_order_of names.now) }
{
    let groups = groups(alloc, names)?;
    let mut order = Vec::with_capacity(alloc, names.len())?;
    'groups: for group in &groups {
        push_copies(&mut order, group)?;
    }
    Ok(order)
}

/// The pieces of a text that is cut at an ASCII character.
pub(crate) fn pieces(alloc: Global, text: &str, separator: char) -> Result<Vec<&str>, AllocError>
    requires { separator < 128 }
    ensures { IfOk result (λ v. map (λ x. x.now) v.items ≡ slice_split (λ b. b == separator) text.now) }
{
    text.split(separator).collect(alloc)
}

fn joined(alloc: Global, front: &str, part: &str) -> Result<Text, NoMemory>
    ensures { IfOk result (λ t. t ≡ front.now ++ part.now) }
{
    let mut name = String::new(alloc);
    name.reserve(front.len().saturating_add(part.len()))?;
    name.push_str(front)?;
    name.push_str(part)?;
    Ok(Text::from_string(name))
}

fn push_expanded(alloc: Global, names: &mut Vec<Text>, group: &str) -> Result<(), NoMemory>
    ensures { OnOk result (names.new.items ≡ names.old.items ++ expand_group group.now) }
{
    let (front, suffixes) = cut(group);
    let parts = pieces(alloc, suffixes, ',')?;
    'parts: for part in &parts {
        names.push(joined(alloc, front, part)?)?;
    }
    Ok(())
}

/// The names that a packed text stands for. Any text is read; what it gives need not be names.
pub fn expand(alloc: Global, text: &str) -> Result<Vec<Text>, NoMemory>
    ensures { IfOk result (λ v. v.items ≡ expand_of text.now) }
{
    let mut names = Vec::new(alloc);
    let groups = pieces(alloc, text, '|')?;
    'groups: for group in &groups {
        push_expanded(alloc, &mut names, group)?;
    }
    Ok(names)
}

/// Whether a byte divides two pieces: a bar does, and a comma behind the last dot of its group.
fn divides(byte: u8, before_dot: bool) -> bool
    ensures { result ≡ divides_pieces byte before_dot }
{
    byte == b'|' || byte == b',' && !before_dot
}

/// How many pieces `expand` gives of a text with these bytes.
pub fn expanded_count(packed: &[u8]) -> usize
    ensures { result ≡ length (expand_of packed.now) }
{
    let mut count = 1;
    let mut before_dot = false;
    'places: for at in (0..packed.len()).rev() {
        let byte = packed[at];
        count += usize::from(divides(byte, before_dot));
        before_dot = byte != b'|' && (byte == b'.' || before_dot);
    }
    count
}
