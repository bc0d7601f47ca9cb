//! Texts and their places.
ghost use Rattle.std.specs.Prelude.{◌≡◌, ◌≤◌, ℕ, List, length, OnOk, IfOk, Some, None, bytes_eq, if◌then◌else◌};
ghost use Rattle.std.specs.Option.{option_or};
ghost use Rattle.rl_startup.specs.Places.{place_by};
ghost use Rattle.rl_startup.specs.Rows.{names_of, place_in};

use crate::modules::Module;
use rl_names::{MAX_ROWS, NoMemory, Text};
use std::alloc::Global;
use std::collections::BTreeMap;

/// Notes the place of a text that has none yet.
fn note<'a>(places: &mut BTreeMap<&'a str, u16>, text: &'a str, place: u16) -> Result<(), NoMemory>
    ensures { OnOk result ((q : List ℕ) → place_by places.new q
        ≡ option_or (place_by places.old q) (if bytes_eq text.now q then Some place else None)) }
{
    if let Some(_) = places.get(text) {
        return Ok(());
    }
    places.insert(text, place)?;
    Ok(())
}

/// The place of each name, which is its first.
pub(crate) fn places_of_names<'a>(
    alloc: Global,
    modules: &'a [Module],
) -> Result<BTreeMap<&'a str, u16>, NoMemory>
    requires { length modules.now ≤ MAX_ROWS }
    ensures { IfOk result (λ places. (q : List ℕ) → place_by places q ≡ place_in (names_of modules.now) q) }
{
    let mut places = BTreeMap::new(alloc);
    'modules: for (at, module) in modules.iter().enumerate() {
        note(&mut places, module.name.as_str(), at as u16)?;
    }
    Ok(places)
}

/// The place of each text, which is its first.
pub(crate) fn places_of_texts<'a>(
    alloc: Global,
    texts: &'a [Text],
) -> Result<BTreeMap<&'a str, u16>, NoMemory>
    requires { length texts.now ≤ MAX_ROWS }
    ensures { IfOk result (λ places. (q : List ℕ) → place_by places q ≡ place_in texts.now q) }
{
    let mut places = BTreeMap::new(alloc);
    'texts: for (at, text) in texts.iter().enumerate() {
        note(&mut places, text.as_str(), at as u16)?;
    }
    Ok(places)
}
