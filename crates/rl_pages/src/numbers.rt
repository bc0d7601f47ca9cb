//! The number of the last edit of each page, by its title, and of the last choice of each user.
ghost use Rattle.std.specs.Prelude.{◌≡◌, ℕ, List, [], if◌then◌else◌, bytes_eq, IsSome, OnOk, option_map};
ghost use Rattle.std.specs.BTreeMap.{get_by_text};
ghost use Rattle.rl_pages.specs.History.{edits, chooses, text_numbered};
ghost use Rattle.rl_pages.specs.Index.{number_at, HasNumber, HasChooser, number_before, befores, entry_numbered};

use crate::entry::Entry;
use rl_names::NoMemory;
use std::alloc::Global;
use std::collections::BTreeMap;

/// The number of a title, and 0 where it has none.
pub(crate) fn number_of(numbers: &BTreeMap<String, u64>, title: &str) -> u64
    ensures { result ≡ number_at numbers.now title.now }
{
    match numbers.get(title) {
        Some(number) => *number,
        None => 0,
    }
}

/// Makes a place for the number of a title. No number changes.
pub(crate) fn make_place(
    alloc: Global,
    numbers: &mut BTreeMap<String, u64>,
    title: &str,
) -> Result<(), NoMemory>
    ensures same { (q : List ℕ) → number_at numbers.new q ≡ number_at numbers.old q }
    ensures place { OnOk result (IsSome (get_by_text numbers.new title.now)) }
    ensures kept { (q : List ℕ) → IsSome (get_by_text numbers.old q) → IsSome (get_by_text numbers.new q) }
{
    if numbers.contains_key(title) {
        return Ok(());
    }
    let key = String::from_str(alloc, title)?;
    numbers.insert(key, 0)?;
    Ok(())
}

/// Sets the number of a title that has a place.
pub(crate) fn set_number(numbers: &mut BTreeMap<String, u64>, title: &str, number: u64)
    requires { IsSome (get_by_text numbers.old title.now) }
    ensures { (q : List ℕ) → number_at numbers.new q ≡ (if bytes_eq title.now q then number else number_at numbers.old q) }
{
    if let Some(place) = numbers.get_mut(title) {
        *place = number;
    }
}

/// Makes a place for the number of an entry. No number changes.
pub(crate) fn make_place_for(
    alloc: Global,
    numbers: &mut BTreeMap<String, u64>,
    entry: &Entry,
) -> Result<(), NoMemory>
    ensures same { (q : List ℕ) → number_at numbers.new q ≡ number_at numbers.old q }
    ensures place { OnOk result (HasNumber numbers.new entry.now) }
    ensures kept { (q : List ℕ) → IsSome (get_by_text numbers.old q) → IsSome (get_by_text numbers.new q) }
{
    match entry {
        Entry::Edit { title, .. } => make_place(alloc, numbers, title.as_str()),
        Entry::Choice { .. } => Ok(()),
    }
}

/// Sets the number of the page that an entry edits.
pub(crate) fn set_number_by(numbers: &mut BTreeMap<String, u64>, entry: &Entry, number: u64)
    requires { HasNumber numbers.old entry.now }
    ensures { (q : List ℕ) → number_at numbers.new q ≡ (if edits q entry.now then number else number_at numbers.old q) }
{
    match entry {
        Entry::Edit { title, .. } => set_number(numbers, title.as_str(), number),
        Entry::Choice { .. } => {}
    }
}

/// Makes a place for the number of a choice of a user. No number changes.
pub(crate) fn make_place_of_chooser(
    alloc: Global,
    choosers: &mut BTreeMap<String, u64>,
    entry: &Entry,
) -> Result<(), NoMemory>
    ensures same { (q : List ℕ) → number_at choosers.new q ≡ number_at choosers.old q }
    ensures place { OnOk result (HasChooser choosers.new entry.now) }
    ensures kept { (q : List ℕ) → IsSome (get_by_text choosers.old q) → IsSome (get_by_text choosers.new q) }
{
    match entry {
        Entry::Edit { .. } => Ok(()),
        Entry::Choice { user, .. } => make_place(alloc, choosers, user.as_str()),
    }
}

/// Sets the number of the user whose choice an entry is.
pub(crate) fn set_number_of_chooser(
    choosers: &mut BTreeMap<String, u64>,
    entry: &Entry,
    number: u64,
)
    requires { HasChooser choosers.old entry.now }
    ensures { (q : List ℕ) → number_at choosers.new q ≡ (if chooses q entry.now then number else number_at choosers.old q) }
{
    match entry {
        Entry::Edit { .. } => {}
        Entry::Choice { user, .. } => set_number(choosers, user.as_str(), number),
    }
}

/// The number of the last choice of the user whose choice an entry is; 0 for an edit.
pub(crate) fn number_before(choosers: &BTreeMap<String, u64>, entry: &Entry) -> u64
    ensures { result ≡ number_before choosers.now entry.now }
{
    match entry {
        Entry::Edit { .. } => 0,
        Entry::Choice { user, .. } => number_of(choosers, user.as_str()),
    }
}

/// The entry of a number, and the number of the choice before it of the same user.
pub(crate) fn choice_numbered<'a>(
    entries: &'a [Entry],
    before: &[u64],
    number: u64,
) -> Option<(&'a Entry, u64)>
    requires { before.now ≡ befores [] entries.now }
    ensures { option_map (λ found. (found.0.now, found.1)) result ≡ entry_numbered entries.now number }
{
    if number == 0 {
        return None;
    }
    let at = number as usize - 1;
    match entries.get(at) {
        Some(entry) => match before.get(at) {
            Some(before) => Some((entry, *before)),
            None => None,
        },
        None => None,
    }
}

/// The text of the edit of this number.
pub(crate) fn text_numbered(entries: &[Entry], number: u64) -> Option<&str>
    ensures { option_map (λ text. text.now) result ≡ text_numbered entries.now number }
{
    if number == 0 {
        return None;
    }
    match entries.get(number as usize - 1) {
        Some(Entry::Edit { text, .. }) => Some(text.as_str()),
        Some(Entry::Choice { .. }) | None => None,
    }
}
