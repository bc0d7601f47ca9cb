//! Modules, and the rows that the registry has of them.
ghost use Rattle.std.specs.Prelude.{◌≡◌, ◌≤◌, ℕ, length, map, filter, IfOk};
ghost use Rattle.rl_wire.specs.Startup.{AreWritable};
ghost use Rattle.rl_startup.specs.Laws.{HaveAtMost, NeedAtMost, RowsAreLawful};
ghost use Rattle.rl_startup.specs.Places.{place_by};
ghost use Rattle.rl_startup.specs.Rows.{is_own, dep_of, group_of, source_of, row_of, names_of, rows_of, AreFit};

use crate::places::{places_of_names, places_of_texts};
use rl_build::Sheet;
use rl_names::{Dep, Group, MAX_ROWS, Name, NoMemory, Row, Seq, Text, Version, distinct};
use std::alloc::Global;
use std::collections::BTreeMap;

/// What is known of a module, with its version.
#[derive(Drop)]
pub struct Module {
    pub name: Name,
    pub sheet: Sheet,
    /// There is one exactly where the group is not `private`.
    pub version: Option<Version>,
}

/// Whether a group is neither empty nor `user` nor `private`.
fn is_own(group: &str) -> bool
    ensures { result ≡ is_own group.now }
{
    !(group == "" || group == "user" || group == "private")
}

/// The groups of their own, as often as they are named.
fn own_groups(alloc: Global, modules: &[Module]) -> Result<Vec<Text>, NoMemory>
    ensures groups { IfOk result (λ v. v.items ≡ filter is_own (map (λ m. m.sheet.group) modules.now)) }
    ensures few { IfOk result (λ v. length v.items ≤ length modules.now) }
{
    let mut groups = Vec::new(alloc);
    'modules: for module in modules {
        if is_own(module.sheet.group.as_str()) {
            groups.push(module.sheet.group.copy()?)?;
        }
    }
    Ok(groups)
}

/// A dependency: the number of its row, or its name where it has none.
fn dep_of(names: &BTreeMap<&str, u16>, name: &Text) -> Result<Dep, NoMemory>
    ensures { IfOk result (λ dep. dep ≡ dep_of (place_by names.now) name.now) }
{
    match names.get(name.as_str()) {
        Some(place) => Ok(Dep::At(u32::from(*place))),
        None => Ok(Dep::Named(name.copy()?)),
    }
}

/// The dependencies of a module.
fn deps_of(alloc: Global, names: &BTreeMap<&str, u16>, deps: &[Text]) -> Result<Vec<Dep>, NoMemory>
    ensures { IfOk result (λ v. v.items ≡ map (dep_of (place_by names.now)) deps.now) }
{
    let mut made = Vec::with_capacity(alloc, deps.len())?;
    'deps: for dep in deps {
        made.push(dep_of(names, dep)?)?;
    }
    Ok(made)
}

/// The group of this name.
fn group_of(groups: &BTreeMap<&str, u16>, group: &str) -> Group
    ensures { result ≡ group_of (place_by groups.now) group.now }
{
    if group == "user" {
        return Group::User;
    }
    if group == "private" {
        return Group::Private;
    }
    match groups.get(group) {
        Some(place) => Group::Other(u32::from(*place) + 2),
        None => Group::Plain,
    }
}

/// A source, where this wiki is the empty one.
fn source_of(alloc: Global, source: &Text) -> Result<Text, NoMemory>
    ensures { IfOk result (λ t. t ≡ source_of source.now) }
{
    if source.as_str() == "local" {
        Text::of(alloc, "")
    } else {
        source.copy()
    }
}

fn skip_of(skip: &Option<Text>) -> Result<Option<Text>, NoMemory>
    ensures { IfOk result (λ copy. copy ≡ skip.now) }
{
    match skip {
        Some(skip) => Ok(Some(skip.copy()?)),
        None => Ok(None),
    }
}

/// The row of a module.
fn row_of(
    alloc: Global,
    names: &BTreeMap<&str, u16>,
    groups: &BTreeMap<&str, u16>,
    known: &Module,
) -> Result<Row, NoMemory>
    ensures { IfOk result (λ row. row ≡ row_of (place_by names.now) (place_by groups.now) known.now) }
{
    let sheet = &known.sheet;
    Ok(Row {
        name: known.name.copy()?,
        version: known.version,
        deps: Seq::of(deps_of(alloc, names, sheet.deps.as_slice())?),
        group: group_of(groups, sheet.group.as_str()),
        source: source_of(alloc, &sheet.source)?,
        skip: skip_of(&sheet.skip)?,
    })
}

/// The row of each module, by these places.
fn rows_by(
    alloc: Global,
    names: &BTreeMap<&str, u16>,
    groups: &BTreeMap<&str, u16>,
    modules: &[Module],
) -> Result<Vec<Row>, NoMemory>
    ensures { IfOk result (λ v. v.items ≡ map (row_of (place_by names.now) (place_by groups.now)) modules.now) }
{
    let mut rows = Vec::with_capacity(alloc, modules.len())?;
    'modules: for module in modules {
        rows.push(row_of(alloc, names, groups, module)?)?;
    }
    Ok(rows)
}

/// The rows of the modules, in their order. Groups that are neither `user` nor `private` get numbers
/// from 2, in the order in which they first appear; a dependency is told by the number of its row, and
/// by name where it has none.
pub fn rows_of(alloc: Global, modules: &[Module]) -> Result<Vec<Row>, NoMemory>
    requires few { length modules.now ≤ MAX_ROWS }

    // A version is there exactly where the group is not private, and no skip is empty.
    requires fit { AreFit modules.now }
    ensures rows { IfOk result (λ v. v.items ≡ rows_of modules.now) }

    // So a startup text may be written of them, in which the names are those of the modules.
    ensures writable { IfOk result (λ v. AreWritable v.items) }
    ensures names { IfOk result (λ v. map (λ r. r.name) v.items ≡ names_of modules.now) }
    ensures deps { IfOk result (λ v. (most : ℕ) → NeedAtMost most modules.now → HaveAtMost most v.items) }
{
    let groups = distinct(alloc, &own_groups(alloc, modules)?)?;
    let names = places_of_names(alloc, modules)?;
    let groups = places_of_texts(alloc, &groups)?;
    rows_by(alloc, &names, &groups, modules)
}

/// What holds of the rows of any modules.
pub fn row_laws()
    ensures { RowsAreLawful }
{}
