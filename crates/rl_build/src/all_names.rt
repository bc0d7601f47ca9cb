//! All names with a sheet.
ghost use Rattle.std.specs.Prelude.{◌≡◌, ◌≤◌, IfNone, IfOk, IfSome, OnOk, length, map};
ghost use Rattle.std.specs.List.{insert};
ghost use Rattle.rl_build.specs.Sight.{sight};
ghost use Rattle.rl_build.specs.Sheet.{all_names, put_name, AreAllNames};

use crate::built_in::built_ins;
use crate::context::Context;
use rl_defs::{Catalog, ModuleDef};
use rl_names::{MAX_ROWS, Name, NoMemory};
use rl_pages::{Pages, Viewer};
use std::alloc::Global;
use std::cmp::Ordering;

/// The place of a new name among names in byte order; none where it is one of them.
fn place_of(names: &[Name], name: &Name) -> Option<usize>
    ensures place { IfSome result (λ at. (at ≤ length names.now) × (put_name names.now name.now ≡ insert names.now at name.now)) }
    ensures there { IfNone result (put_name names.now name.now ≡ names.now) }
{
    'names: for (at, other) in names.iter().enumerate() {
        match name.compare(other) {
            Ordering::Less => return Some(at),
            Ordering::Equal => return None,
            Ordering::Greater => {}
        }
    }
    Some(names.len())
}

/// Puts a name into its place among names in byte order, unless it is there.
fn put(names: &mut Vec<Name>, name: Name) -> Result<(), NoMemory>
    ensures { OnOk result (names.new.items ≡ put_name names.old.items name) }
{
    if let Some(at) = place_of(names, &name) {
        names.insert(at, name)?;
    }
    Ok(())
}

/// The names of modules, in a list with room for so many.
fn names_of_modules(
    alloc: Global,
    modules: &[ModuleDef],
    room: usize,
) -> Result<Vec<Name>, NoMemory>
    ensures { IfOk result (λ v. v.items ≡ map (λ m. m.name) modules.now) }
{
    let mut names = Vec::with_capacity(alloc, room)?;
    'modules: for module in modules {
        names.push(module.name.copy()?)?;
    }
    Ok(names)
}

/// All names with a sheet, in byte order.
pub fn names(
    alloc: Global,
    catalog: &Catalog,
    pages: &Pages,
    viewer: &Viewer,
    ctx: &Context,
) -> Result<Vec<Name>, NoMemory>
    ensures value { IfOk result (λ v. v.items ≡ all_names (sight catalog.now pages.now.entries viewer.now)) }
    ensures names { IfOk result (λ v. AreAllNames (sight catalog.now pages.now.entries viewer.now) ctx.now v.items) }
    ensures few { IfOk result (λ v. length v.items ≤ MAX_ROWS) }
{
    let all = built_ins();
    let room = catalog.module_count() as usize + all.len();
    let mut names = names_of_modules(alloc, catalog.modules(), room)?;
    'all: for built_in in &all {
        put(&mut names, Name::of(alloc, built_in.name())?)?;
    }
    Ok(names)
}
