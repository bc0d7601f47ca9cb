//! The whole list.
ghost use Rattle.std.specs.Prelude.{◌≡◌, ◌+◌, ◌++◌, ◌∷◌, [], ℕ, List, IfOk, cond, bytes_eq, is_some, map, not, true, Ok};
ghost use Rattle.std.specs.BTreeSet.{contains_text};
ghost use Rattle.std.specs.Str.{IsUtf8};
ghost use Rattle.std.specs.Str.Lines.{strip_carriage_return};
ghost use Rattle.rl_gadgets.specs.Line.{behind_stars, gadget_in};
ghost use Rattle.rl_gadgets.specs.List.{capped, fault_behind, gadgets_of, is_defined, none_yet, row_behind, with_line, with_lines, with_row};

use crate::cut::{behind_all, pieces, without_return};
use crate::gadget::Gadget;
use crate::line::gadget_in;
use rl_names::{NoMemory, Seq};
use std::alloc::Global;
use std::collections::BTreeSet;

/// How many gadgets a list may define.
pub const MAX_GADGETS: u64 = 500;

/// What a gadget list says: the gadgets that its lines define, in order, and the numbers of the lines that were passed over.
#[derive(Drop)]
pub struct GadgetList {
    pub rows: Seq<Gadget>,
    pub passed: Seq<u32>,
}

/// Notes a name, and says whether it is a new one.
fn note(alloc: Global, names: &mut BTreeSet<String>, name: &str) -> Result<bool, NoMemory>
    ensures new { IfOk result (λ new. new ≡ not (contains_text names.old name.now)) }
    ensures noted { IfOk result (λ _. (q : List ℕ) → contains_text names.new q ≡ cond (bytes_eq name.now q) true (contains_text names.old q)) }
{
    let key = String::from_str(alloc, name)?;
    Ok(names.insert(key)?)
}

/// The number of a line, from its place.
fn number_of(place: usize) -> u32
    ensures { result ≡ capped (place + 1) }
{
    place.saturating_add(1).min(u32::MAX as usize) as u32
}

/// Whether a gadget becomes a row, which it does if there is room and no row has its name.
fn take_row(
    alloc: Global,
    rows: &mut Vec<Gadget>,
    names: &mut BTreeSet<String>,
    gadget: Gadget,
) -> Result<bool, NoMemory>
    requires { (q : List ℕ) → contains_text names.now q ≡ is_defined rows.now.items q }
    ensures names { IfOk result (λ _. (q : List ℕ) → contains_text names.new q ≡ is_defined rows.new.items q) }
    ensures taken { IfOk result (λ taken. taken ≡ not (is_some (fault_behind rows.old.items gadget))) }
    ensures rows { IfOk result (λ taken. rows.new.items ≡ cond taken (rows.old.items ++ gadget ∷ []) rows.old.items) }
{
    if rows.len() as u64 >= MAX_GADGETS || !note(alloc, names, gadget.name.as_str())? {
        return Ok(false);
    }
    rows.push(gadget)?;
    Ok(true)
}

/// Takes the gadget of a line: it becomes a row, or the line's number is listed.
#[tactic(auto, using(crate::proofs::RowLemmas::row_given))]
fn take_gadget(
    alloc: Global,
    rows: &mut Vec<Gadget>,
    passed: &mut Vec<u32>,
    names: &mut BTreeSet<String>,
    number: u32,
    gadget: Gadget,
) -> Result<(), NoMemory>
    requires { (q : List ℕ) → contains_text names.now q ≡ is_defined rows.now.items q }
    ensures names { IfOk result (λ _. (q : List ℕ) → contains_text names.new q ≡ is_defined rows.new.items q) }
    ensures list { IfOk result (λ _. record { rows = rows.new.items; passed = passed.new.items }
        ≡ with_row (record { rows = rows.old.items; passed = passed.old.items }) number (row_behind rows.old.items (Ok gadget))) }
{
    if !take_row(alloc, rows, names, gadget)? {
        passed.push(number)?;
    }
    Ok(())
}

/// Takes a line that begins with a star: it gives a row, or its number is listed.
#[tactic(auto, using(crate::proofs::RowLemmas::found_ok, crate::proofs::RowLemmas::none_found))]
fn take_starred(
    alloc: Global,
    rows: &mut Vec<Gadget>,
    passed: &mut Vec<u32>,
    names: &mut BTreeSet<String>,
    number: u32,
    line: &str,
) -> Result<(), NoMemory>
    requires { (q : List ℕ) → contains_text names.now q ≡ is_defined rows.now.items q }
    ensures names { IfOk result (λ _. (q : List ℕ) → contains_text names.new q ≡ is_defined rows.new.items q) }
    ensures list { IfOk result (λ _. record { rows = rows.new.items; passed = passed.new.items }
        ≡ with_row (record { rows = rows.old.items; passed = passed.old.items }) number
        (row_behind rows.old.items (gadget_in number (behind_stars line.now)))) }
{
    let text = behind_all(behind_all(line, '*'), ' ');
    match gadget_in(alloc, number, text)? {
        Some(gadget) => take_gadget(alloc, rows, passed, names, number, gadget)?,
        None => passed.push(number)?,
    }
    Ok(())
}

/// Takes the line at a place.
fn take_line(
    alloc: Global,
    rows: &mut Vec<Gadget>,
    passed: &mut Vec<u32>,
    names: &mut BTreeSet<String>,
    place: usize,
    line: &str,
) -> Result<(), NoMemory>
    requires { (q : List ℕ) → contains_text names.now q ≡ is_defined rows.now.items q }
    ensures names { IfOk result (λ _. (q : List ℕ) → contains_text names.new q ≡ is_defined rows.new.items q) }
    ensures list { IfOk result (λ _. record { rows = rows.new.items; passed = passed.new.items }
        ≡ with_line (record { rows = rows.old.items; passed = passed.old.items }) (place + 1) (strip_carriage_return line.now)) }
{
    let line = without_return(line);
    if line.as_bytes().first() == Some(&b'*') {
        take_starred(alloc, rows, passed, names, number_of(place), line)?;
    }
    Ok(())
}

/// The gadgets of lines, in order.
fn gadgets_in(alloc: Global, lines: &[&str]) -> Result<GadgetList, NoMemory>
    ensures { IfOk result (λ list. list ≡ with_lines none_yet 1 (map (λ x. x.now) lines.now)) }
{
    let mut rows = Vec::new(alloc);
    let mut passed = Vec::new(alloc);
    let mut names = BTreeSet::new(alloc);
    'lines: for (place, line) in lines.iter().enumerate() {
        take_line(alloc, &mut rows, &mut passed, &mut names, place, line)?;
    }
    Ok(GadgetList {
        rows: Seq::of(rows),
        passed: Seq::of(passed),
    })
}

/// Bytes as text.
fn text_of(bytes: &[u8]) -> &str
    requires { IsUtf8 bytes.now }
    ensures { result.now ≡ bytes.now }
{
    let Ok(text) = str::from_utf8(bytes) else {
        unreachable!()
    };
    text
}

/// Reads a gadget list: the page's lines that begin with a star, each of which defines a gadget or is passed over. Lines end at line
/// feeds alone, and count from 1; one carriage return at the end of a line is dropped. The page is UTF-8. A line is passed over whose
/// name is no module's name, whose options are not closed or followed by something other than spaces, that names no script or style
/// or one that gives no title, that lacks the option `ResourceLoader`, whose dependencies are no names or too many, whose name an
/// earlier row has, and that comes behind `MAX_GADGETS` rows.
///
/// # Errors
///
/// Memory ran out.
pub fn read_gadgets(alloc: Global, bytes: &[u8]) -> Result<GadgetList, NoMemory>
    requires utf8 { IsUtf8 bytes.now }
    ensures list { IfOk result (λ list. list ≡ gadgets_of bytes.now) }
{
    let lines = pieces(alloc, text_of(bytes), '\n')?;
    gadgets_in(alloc, &lines)
}
