//! A store: parts by key, what they were made for, and their age.
ghost use Rattle.std.specs.Prelude.{◌≡◌, ◌<◌, ◌≤◌, ◌^◌, length, option_map, option_and_then, slice_get, IsUtf8, IfOk, IfErr, IfSome, Some};
ghost use Rattle.std.specs.List.Sorted.{IsStrictlySortedBy};
ghost use Rattle.std.specs.Ordering.{nat_cmp};
ghost use Rattle.std.specs.Cmp.Lexicographic.{slice_cmp};
ghost use Rattle.rl_names.specs.Name.{key_text};
ghost use Rattle.rl_book_spec.specs.Opening.{part_name};
ghost use Rattle.rl_book_spec.specs.declared.Stored.{Stored};
ghost use Rattle.rl_store.specs.Stock.{keys_of, pair_of, pair_under, nothing_for, is_fresh, note_of, fitted, stock_text, stock_after, AreOrdered};
ghost use Rattle.rl_store.specs.Merging.{HaveDistinctKeys};
ghost use Rattle.rl_book_spec.specs.Laws.{IsOfKey};
ghost use Rattle.std.specs.List.{AllByRecursion};

use crate::copying::copy_pairs;
use crate::merging::{age_at, merged, place_of, prepare};
use crate::note::Note;
use crate::writing::write;
use rl_book_spec::Stored;
use rl_names::{Key, Name, NoMemory, Text, Version};
use rl_registry::Registry;
use std::alloc::Global;
use std::marker::Model;
use std::str;

/// Parts by key, which belong to one skin, store version and language.
#[derive(Drop)]
pub struct Store {
    alloc: Global,
    vary: Text,
    as_of: u64,
    pairs: Vec<Stored>,
}

impl Model for Store {
    ghost use Rattle.rl_store.specs.Stock.{Stock, IsStock};

    ghost Value = { Stock };

    ghost view = { λ s. record { vary = s.vary; as_of = s.as_of; pairs = s.pairs.items } };

    ghost invariant = { λ s. IsStock s.as_of s.pairs.items };
}

/// What is left of a store, and how it fitted.
#[derive(Drop)]
pub struct Opened {
    pub store: Store,
    pub note: Note,
}

/// A store that is handed back where memory ran out.
#[derive(Drop)]
pub struct Turned {
    pub why: NoMemory,
    pub store: Store,
}

/// A store and new pairs that are handed back where memory ran out.
#[derive(Drop)]
pub struct AfterTurned {
    pub why: NoMemory,
    pub store: Store,
    pub fresh: Vec<Stored>,
}

/// A copy of a vary text.
fn vary_text(alloc: Global, vary: &[u8]) -> Result<Text, NoMemory>
    requires { IsUtf8 vary.now }
    ensures { IfOk result (λ text. text ≡ vary.now) }
{
    let Ok(text) = str::from_utf8(vary) else {
        unreachable!()
    };
    Text::of(alloc, text)
}

/// The pair under a key, among pairs in byte order of their key texts.
fn find<'a>(pairs: &'a [Stored], key: &Key) -> Option<&'a Stored>
    requires { IsStrictlySortedBy (slice_cmp nat_cmp) (keys_of pairs.now) }
    ensures { option_map (λ stored. stored.now) result ≡ pair_of key.now pairs.now }
{
    let at = place_of(pairs, &key.name, &key.version)?;
    Some(&pairs[at])
}

/// Whether a store of this age is fresh at a moment.
fn is_fresh(as_of: u64, now: u64) -> bool
    requires { as_of ≤ 10 ^ 12 }
    ensures { result ≡ is_fresh as_of now }
{
    now < as_of * 10_000_000 + 2_590_000_000
}

impl Store {
    /// A store that keeps nothing.
    pub fn empty(alloc: Global, vary: &[u8]) -> Result<Store, NoMemory>
        requires { IsUtf8 vary.now }
        ensures { IfOk result (λ store. store ≡ nothing_for vary.now) }
    {
        let vary = vary_text(alloc, vary)?;
        Ok(Store {
            alloc,
            vary,
            as_of: 0,
            pairs: Vec::new(alloc),
        })
    }

    /// The pair under a key, of its name and its version. It is found in so many comparisons as the
    /// logarithm of their count.
    pub fn get(&self, key: &Key) -> Option<&Stored>
        ensures { option_map (λ stored. stored.now) result ≡ pair_of key.now self.now.pairs }
    {
        find(&self.pairs, key)
    }

    /// The number of the pair under the key of a name and a version, whose part has that name. It is found in so many
    /// comparisons as the logarithm of their count.
    pub fn place(&self, name: &Name, version: &Version) -> Option<u32>
        ensures found { option_and_then (slice_get self.now.pairs) result ≡ pair_under (key_text name.now version.now) self.now.pairs }
        ensures within { IfSome result (λ at. at < length self.now.pairs) }
        ensures named { (stored : Stored) → pair_under (key_text name.now version.now) self.now.pairs ≡ Some stored → part_name stored.part ≡ name.now }
    {
        let at = place_of(&self.pairs, name, version)?;
        // Both versions have five bytes, so that equal key texts have equal names.
        let _asked = version.as_str();
        let _kept = self.pairs[at].key.version.as_str();
        Some(at as u32)
    }

    /// How many pairs are kept.
    pub fn count(&self) -> u32
        ensures { result ≡ length self.now.pairs }
    {
        self.pairs.len() as u32
    }

    /// A pair, in byte order of the key texts.
    pub fn stored_at(&self, at: u32) -> &Stored
        requires { at < length self.now.pairs }
        ensures { slice_get self.now.pairs at ≡ Some result.now }
    {
        &self.pairs[at as usize]
    }

    /// The text of the store: its age, each part's line under its key text, and what they were made for.
    pub fn write(&self) -> Result<Text, NoMemory>
        ensures { IfOk result (λ text. text ≡ stock_text self.now) }
    {
        write(self.alloc, self.as_of, &self.pairs, self.vary.as_str())
    }

    /// An equal store, with equal wire numbers.
    pub fn copy(&self) -> Result<Store, NoMemory>
        ensures { IfOk result (λ store. store ≡ self.now) }
    {
        let vary = self.vary.copy()?;
        let pairs = copy_pairs(self.alloc, &self.pairs)?;
        Ok(Store {
            alloc: self.alloc,
            vary,
            as_of: self.as_of,
            pairs,
        })
    }

    /// How a store fits what is wanted of it at a moment.
    fn note_for(&self, vary: &[u8], now: u64) -> Note
        ensures { result ≡ note_of self.now vary.now now }
    {
        if self.vary.as_bytes() != vary {
            Note::OtherVary
        } else if is_fresh(self.as_of, now) {
            Note::Fresh
        } else {
            Note::Expired { as_of: self.as_of }
        }
    }

    /// What is left of the store for a view of this vary text at this moment: all of it, moved, where
    /// it is fresh, and else nothing. Where memory runs out it is handed back.
    pub fn fit(self, vary: &[u8], now: u64) -> Result<Opened, Turned>
        requires { IsUtf8 vary.now }
        ensures note { IfOk result (λ opened. opened.note ≡ note_of self vary.now now) }
        ensures store { IfOk result (λ opened. opened.store ≡ fitted (note_of self vary.now now) self vary.now) }
        ensures handed_back { IfErr result (λ turned. turned.store ≡ self) }
    {
        let note = self.note_for(vary, now);
        if let Note::Fresh = note {
            return Ok(Opened { store: self, note });
        }
        match Store::empty(self.alloc, vary) {
            Ok(store) => Ok(Opened { store, note }),
            Err(why) => Err(Turned { why, store: self }),
        }
    }

    /// The store at the close of a view: these new pairs, and of the older ones those under the key of
    /// a row that no new one replaces. All are moved. Where memory runs out, or where they would be
    /// 2^32 or more, the store and the new pairs are handed back.
    pub fn after(
        self,
        registry: &Registry,
        mut fresh: Vec<Stored>,
        now: u64,
    ) -> Result<Store, AfterTurned>
        requires distinct { HaveDistinctKeys fresh.items }
        requires parts { AllByRecursion IsOfKey fresh.items }
        requires ordered { AreOrdered fresh.items }
        requires moment { now < 10 ^ 18 }
        ensures store { IfOk result (λ store. store ≡ stock_after registry.now fresh.items now self) }
        ensures handed_back { IfErr result (λ turned. (turned.store ≡ self) × (turned.fresh.items ≡ fresh.items)) }
    {
        let marks = match prepare(self.alloc, registry, &self.pairs, &mut fresh) {
            Ok(marks) => marks,
            Err(why) => {
                return Err(AfterTurned {
                    why,
                    store: self,
                    fresh,
                });
            }
        };
        let pairs = merged(self.pairs, marks, fresh);
        Ok(Store {
            alloc: self.alloc,
            vary: self.vary,
            as_of: age_at(now),
            pairs,
        })
    }
}
