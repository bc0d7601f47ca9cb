//! The history of a wiki, and what stands in it.
ghost use Rattle.std.specs.Prelude.{◌≡◌, ◌≢◌, ◌+◌, ◌++◌, ◌∷◌, [], ◌<◌, ◌≤◌, length, map, fold, option_map};
ghost use Rattle.std.specs.Prelude.{slice_get, Some, None};
ghost use Rattle.std.specs.Prelude.{Ok, Err, IfOk, OnErr, OnOk, IfErr, IsTrue};
ghost use Rattle.std.specs.List.{list_all};
ghost use Rattle.rl_names.specs.Title.{title_of};
ghost use Rattle.rl_pages.specs.Viewer.{IsViewer};
ghost use Rattle.rl_pages.specs.History.{page_of, revision_of, options_of, options_after, bytes_of, size_of, Fits};
ghost use Rattle.rl_pages.specs.Laws.{HistoryLaws};
ghost use Rattle.rl_pages.specs.Refusals.{checked_edit, titled_edit, sized_edit, checked_choice, checked_kept, is_full, is_option_key, is_option_byte};
ghost use Rattle.rl_names.specs.Meant.{Gives};
ghost use Rattle.rl_pages.specs.Refusals.{is_spelt_user, is_kept, name_of, edit_refusal, choice_refusal, kept_refusal, IsAccepted};
ghost use Rattle.rl_pages.specs.Seen.{seen, SeenLaws};

use crate::entry::Entry;
use crate::limits::{MAX_ENTRIES, MAX_ENTRY_BYTES, MAX_KEY_BYTES, MAX_PAGE_BYTES, MAX_VALUE_BYTES};
use crate::numbers::{
    choice_numbered, make_place_for, make_place_of_chooser, number_before, number_of,
    set_number_by, set_number_of_chooser, text_numbered,
};
use crate::options::options;
use crate::policy::Policy;
use crate::refusals::{ChoiceError, EditError, KeptError};
use crate::viewer::Viewer;
use rl_names::{Message, NoMemory, Text, Title, TitleError, UserName, UserNameError};
use std::alloc::Global;
use std::collections::BTreeMap;
use std::marker::Model;

/// The history of a wiki: the edits and choices that were accepted, in order. The entry of number n, counted from 1, is
/// revision n of its page.
#[derive(Drop)]
pub struct Pages {
    alloc: Global,
    entries: Vec<Entry>,

    /// The bytes of all texts and values together.
    bytes: u64,

    /// The number of the last edit of each page. A title that was never edited may stand here with 0.
    numbers: BTreeMap<String, u64>,

    /// For each entry that is a choice the number of the choice before it of the same user; 0 where there is none, and
    /// for an edit.
    before: Vec<u64>,

    /// The number of the last choice of each user. A name that never chose may stand here with 0.
    choosers: BTreeMap<String, u64>,

    /// The entry for which there is room.
    room: Option<Entry>,
}

impl Model for Pages {
    ghost use Rattle.std.specs.Vec.{vec_capacity};
    ghost use Rattle.rl_pages.specs.History.{History};
    ghost use Rattle.rl_pages.specs.Index.{IsIndexed};

    ghost Value = { History };

    ghost view = { λ p. record { entries = p.entries.items; room = p.room } };

    ghost invariant = { λ p. IsIndexed p.entries.items p.bytes (vec_capacity p.entries) p.numbers p.before.items (vec_capacity p.before) p.choosers p.room };
}

/// As entries are added, revisions rise, no edit is lost, and every history stays one.
pub fn history_laws()
    ensures { HistoryLaws }
{}

/// What a viewer sees is as it is, and seeing twice is seeing once.
pub fn seen_laws()
    ensures { SeenLaws }
{}

/// The bytes that an entry counts for.
fn size(entry: &Entry) -> usize
    ensures { result ≡ size_of entry.now }
{
    match entry {
        Entry::Edit { text, .. } => text.as_bytes().len(),
        Entry::Choice { value, .. } => value.as_bytes().len(),
    }
}

/// The name of a viewer who is somebody.
fn name_of(alloc: Global, viewer: &Viewer) -> Result<Text, NoMemory>
    ensures { IfOk result (λ name. name ≡ name_of viewer.now) }
{
    match viewer {
        Viewer::Anon => Text::of(alloc, ""),
        Viewer::User(name) => name.copy(),
    }
}

/// The title that bytes spell.
fn title_of(alloc: Global, bytes: &[u8]) -> Result<Title, EditError>
    ensures ok { IfOk result (λ title. title_of bytes.now ≡ Some title) }
    ensures refused { IfErr result (λ e. e ≢ EditError.NoMemory → (e ≡ EditError.BadTitle) × (title_of bytes.now ≡ None)) }
{
    match Title::read(alloc, bytes) {
        Ok(title) => Ok(title),
        Err(TitleError::BadTitle) => Err(EditError::BadTitle),
        Err(TitleError::NoMemory) => Err(EditError::NoMemory),
    }
}

/// Whether a text may be the key of an option.
fn is_option_key(key: &[u8]) -> bool
    ensures { result ≡ is_option_key key.now }
{
    !key.is_empty() && key.len() as u64 <= MAX_KEY_BYTES && all_visible(key)
}

fn all_visible(bytes: &[u8]) -> bool
    ensures { result ≡ list_all is_option_byte bytes.now }
{
    bytes.iter().all(|b| (33..=126).contains(b))
}

/// Whether a text is the name of a user, as the rule of user names spells it.
fn is_spelt_user(alloc: Global, name: &[u8]) -> Result<bool, NoMemory>
    ensures { IfOk result (λ is. is ≡ is_spelt_user name.now) }
{
    match UserName::read(alloc, name) {
        Ok(read) => Ok(read.as_bytes() == name),
        Err(UserNameError::BadUserName) => Ok(false),
        Err(UserNameError::NoMemory) => Err(NoMemory),
    }
}

/// Whether an entry keeps the rules of kept entries, however full the history is.
fn is_kept(alloc: Global, entry: &Entry) -> Result<bool, NoMemory>
    ensures value { IfOk result (λ is. is ≡ is_kept entry.now) }
    ensures small { IfOk result (λ is. IsTrue is → size_of entry.now ≤ MAX_PAGE_BYTES) }
{
    match entry {
        Entry::Edit { by, text, .. } => {
            if !is_spelt_user(alloc, by.as_bytes())? {
                return Ok(false);
            }
            Ok(text.as_bytes().len() as u64 <= MAX_PAGE_BYTES)
        }
        Entry::Choice { user, key, value } => {
            if !is_spelt_user(alloc, user.as_bytes())? {
                return Ok(false);
            }
            Ok(is_option_key(key.as_bytes()) && value.as_bytes().len() as u64 <= MAX_VALUE_BYTES)
        }
    }
}

impl Pages {
    /// A history without entries.
    pub fn empty(alloc: Global) -> Result<Pages, NoMemory>
        ensures { IfOk result (λ p. p ≡ record { entries = []; room = None }) }
    {
        Ok(Pages {
            alloc,
            entries: Vec::new(alloc),
            bytes: 0,
            numbers: BTreeMap::new(alloc),
            before: Vec::new(alloc),
            choosers: BTreeMap::new(alloc),
            room: None,
        })
    }

    /// Whether so many more bytes do not fit.
    fn is_full(&self, more: usize) -> bool
        requires { more ≤ MAX_PAGE_BYTES }
        ensures { result ≡ is_full self.now.entries more }
    {
        self.entries.len() as u64 >= MAX_ENTRIES || self.bytes + more as u64 > MAX_ENTRY_BYTES
    }

    /// The entries and the bytes that there are.
    fn counts(&self) -> (u64, u64)
        ensures { (result.0 ≡ length self.now.entries) × (result.1 ≡ bytes_of self.now.entries) }
    {
        (self.entries.len() as u64, self.bytes)
    }

    /// The edit of a page that the viewer may edit, if it is at the base.
    fn sized(&self, viewer: &Viewer, title: Title, text: &str) -> Result<Entry, EditError>
        ensures answer { Gives edit_refusal result (sized_edit self.now.entries viewer.now title text.now) }
        ensures fits { IfOk result (Fits self.now.entries) }
    {
        if text.len() as u64 > MAX_PAGE_BYTES {
            return Err(EditError::TextTooLong {
                len: text.len() as u64,
            });
        }
        if self.is_full(text.len()) {
            let (entries, bytes) = self.counts();
            return Err(EditError::Full { entries, bytes });
        }
        Ok(Entry::Edit {
            by: name_of(self.alloc, viewer)?,
            title,
            text: Text::of(self.alloc, text)?,
        })
    }

    /// The edit of a page by its title.
    fn titled(
        &self,
        policy: &Policy,
        viewer: &Viewer,
        title: Title,
        base: u64,
        text: &str,
    ) -> Result<Entry, EditError>
        ensures answer { Gives edit_refusal result (titled_edit policy.now.admins self.now.entries viewer.now title base text.now) }
        ensures fits { IfOk result (Fits self.now.entries) }
    {
        if !policy.may_edit(viewer, &title) {
            return Err(EditError::NotAllowed);
        }
        let current = self.revision_of(&title);
        if current != base {
            return Err(EditError::Conflict { current });
        }
        self.sized(viewer, title, text)
    }

    /// Makes room for an entry, and for nothing else.
    fn make_room(&mut self, entry: Entry) -> Result<Entry, NoMemory>
        requires fits { Fits self.old.entries entry }
        requires kept { IsTrue (is_kept entry) }
        ensures entry { IfOk result (λ e. e ≡ entry) }
        ensures room { OnOk result (self.new ≡ record self.old { room = Some entry }) }
        ensures refused { OnErr result (self.new ≡ self.old) }
    {
        let kept = entry.copy()?;
        self.entries.reserve(1)?;
        self.before.reserve(1)?;
        make_place_for(self.alloc, &mut self.numbers, &entry)?;
        make_place_of_chooser(self.alloc, &mut self.choosers, &entry)?;
        self.room = Some(kept);
        Ok(entry)
    }

    /// The entry that an edit is, with room made for it; or the first rule that it breaks.
    pub fn check_edit(
        &mut self,
        policy: &Policy,
        viewer: &Viewer,
        title: &[u8],
        base: u64,
        text: &str,
    ) -> Result<Entry, EditError>
        requires { IsViewer viewer.now }

        // In this order: the bytes are no title; the viewer may not edit the page; it is not at the base; the text is too
        // long; the history is full.
        ensures answer { Gives edit_refusal result (checked_edit policy.now.admins self.old.entries viewer.now title.now base text.now) }
        ensures room { IfOk result (λ entry. self.new ≡ record self.old { room = Some entry }) }
        ensures refused { OnErr result (self.new ≡ self.old) }
    {
        let title = title_of(self.alloc, title)?;
        let entry = self.titled(policy, viewer, title, base, text)?;
        Ok(self.make_room(entry)?)
    }

    /// The choice of somebody, if it keeps the rules.
    fn chosen(&self, name: &Text, key: &str, value: &str) -> Result<Entry, ChoiceError>
        ensures answer { Gives choice_refusal result (checked_choice self.now.entries (Viewer.User name.now) key.now value.now) }
        ensures fits { IfOk result (Fits self.now.entries) }
    {
        if !is_option_key(key.as_bytes()) {
            return Err(ChoiceError::BadKey);
        }
        if value.len() as u64 > MAX_VALUE_BYTES {
            return Err(ChoiceError::TextTooLong {
                len: value.len() as u64,
            });
        }
        if self.is_full(value.len()) {
            let (entries, bytes) = self.counts();
            return Err(ChoiceError::Full { entries, bytes });
        }
        Ok(Entry::Choice {
            user: name.copy()?,
            key: Text::of(self.alloc, key)?,
            value: Text::of(self.alloc, value)?,
        })
    }

    /// The entry that a choice is, with room made for it; or the first rule that it breaks.
    pub fn check_choice(
        &mut self,
        viewer: &Viewer,
        key: &str,
        value: &str,
    ) -> Result<Entry, ChoiceError>
        requires { IsViewer viewer.now }
        ensures answer { Gives choice_refusal result (checked_choice self.old.entries viewer.now key.now value.now) }
        ensures room { IfOk result (λ entry. self.new ≡ record self.old { room = Some entry }) }
        ensures refused { OnErr result (self.new ≡ self.old) }
    {
        let Viewer::User(name) = viewer else {
            return Err(ChoiceError::NotAllowed);
        };
        let entry = self.chosen(name, key, value)?;
        Ok(self.make_room(entry)?)
    }

    /// Room for an entry that was kept; neither the policy nor a base is asked.
    pub fn check_kept(&mut self, entry: &Entry) -> Result<Entry, KeptError>
        ensures answer { Gives kept_refusal result (checked_kept self.old.entries entry.now) }
        ensures room { IfOk result (λ entry. self.new ≡ record self.old { room = Some entry }) }
        ensures refused { OnErr result (self.new ≡ self.old) }
    {
        if !is_kept(self.alloc, entry)? || self.is_full(size(entry)) {
            return Err(KeptError::BadEntry);
        }
        Ok(self.make_room(entry.copy()?)?)
    }

    /// Appends the entry for which there is room, and answers its number. It takes no memory.
    pub fn commit(&mut self, entry: Entry) -> u64
        requires { self.old.room ≡ Some entry }
        ensures number { result ≡ length self.old.entries + 1 }
        ensures after { self.new ≡ record { entries = self.old.entries ++ entry ∷ []; room = None } }
    {
        let number = self.entries.len() as u64 + 1;
        self.bytes += size(&entry) as u64;
        set_number_by(&mut self.numbers, &entry, number);
        let Ok(()) = self.before.push(number_before(&self.choosers, &entry)) else {
            unreachable!()
        };
        set_number_of_chooser(&mut self.choosers, &entry, number);
        self.room = None;
        let Ok(()) = self.entries.push(entry) else {
            unreachable!()
        };
        number
    }

    /// The revision of a page: the number of its last edit, and 0 for no page.
    pub fn revision_of(&self, title: &Title) -> u64
        ensures { result ≡ revision_of self.now.entries title.now }
    {
        number_of(&self.numbers, title.as_str())
    }

    /// The text of a page, that of its last edit; None where it has none.
    pub fn text_of(&self, title: &Title) -> Option<&[u8]>
        ensures { option_map (λ text. text.now) result ≡ page_of self.now.entries title.now }
    {
        match self.str_of(title) {
            Some(text) => Some(text.as_bytes()),
            None => None,
        }
    }

    /// The text of a page, which is UTF-8.
    pub fn str_of(&self, title: &Title) -> Option<&str>
        ensures { option_map (λ text. text.now) result ≡ page_of self.now.entries title.now }
    {
        text_numbered(
            self.entries.as_slice(),
            number_of(&self.numbers, title.as_str()),
        )
    }

    /// The text of a page, where the viewer sees it: the page of another user has none for them.
    pub fn str_seen(&self, viewer: &Viewer, title: &Title) -> Option<&str>
        ensures { option_map (λ text. text.now) result ≡ page_of (seen viewer.now self.now.entries) title.now }
    {
        if viewer.sees(title.as_bytes()) {
            self.str_of(title)
        } else {
            None
        }
    }

    /// The choices of a user, in order.
    fn choices(&self, user: &str) -> Result<Vec<&Entry>, NoMemory>
        ensures { IfOk result (λ found. fold (options_after user.now) [] (map (λ e. e.now) found.items)
            ≡ options_of self.now.entries user.now) }
    {
        let mut found = Vec::new(self.alloc);
        let mut number = number_of(&self.choosers, user);
        'choices: while let Some((entry, before)) = choice_numbered(
            self.entries.as_slice(),
            self.before.as_slice(),
            number,
        ) {
            found.push(entry)?;
            number = before;
        }
        found.reverse();
        Ok(found)
    }

    /// The options of a user: the last value of each key, keys in byte order.
    pub fn choices_of(&self, user: &[u8]) -> Result<Vec<Message>, NoMemory>
        ensures { IfOk result (λ options. options.items ≡ options_of self.now.entries user.now) }
    {
        match str::from_utf8(user) {
            Ok(name) => options(self.alloc, self.choices(name)?.as_slice(), user),
            // A user's name is UTF-8.
            Err(_) => Ok(Vec::new(self.alloc)),
        }
    }

    /// How many entries there are.
    pub fn entry_count(&self) -> u64
        ensures value { result ≡ length self.now.entries }

        // Every history is within its limits, and each entry keeps the rules of kept entries.
        ensures accepted { IsAccepted self.now.entries }
    {
        self.entries.len() as u64
    }

    /// An entry by its place, counted from 0.
    pub fn entry_at(&self, at: u64) -> &Entry
        requires { at < length self.now.entries }
        ensures { slice_get self.now.entries at ≡ Some result.now }
    {
        &self.entries.as_slice()[at as usize]
    }
}
