//! The registry of a wiki, as the client of a viewer gets it.
ghost use Rattle.std.specs.Prelude.{◌≡◌, ◌++◌, ◌≤◌, IfOk, IfSome, None, Ok, OnOk, length, option_to_list};
ghost use Rattle.rl_view_spec.specs.Breach.{breach_of};
ghost use Rattle.rl_wire.specs.Startup.{AreWritable, IsWritable};
ghost use Rattle.rl_wire.specs.StartupReading.{startup_of};
ghost use Rattle.rl_defs.specs.Ascending.{IsAscending};
ghost use Rattle.rl_build.specs.Sight.{sight};
ghost use Rattle.rl_compact.specs.Compact.{compacted};
ghost use Rattle.rl_startup.specs.Fine.{Fine};
ghost use Rattle.rl_startup.specs.Laws.{NeedAtMost};
ghost use Rattle.rl_startup.specs.Registry.{all_rows, module_of, modules_of, start_of, startup_text_of, this_wiki, version_in};
ghost use Rattle.rl_startup.specs.Rows.{names_of, AreFit, IsFit};

use crate::modules::{Module, rows_of};
use rl_build::{Context, names, payload, sheet, version};
use rl_compact::compact::compact;
use rl_defs::Catalog;
use rl_names::{MAX_DEPENDENCIES, MAX_ROWS, Name, NoMemory, Row, Seq, Source, Text, Version};
use rl_pages::{Pages, Viewer};
use rl_wire::{Startup, write_startup};
use std::alloc::Global;

/// The version of what a name brings; in the group `private` there is none.
fn version_in(
    alloc: Global,
    catalog: &Catalog,
    pages: &Pages,
    viewer: &Viewer,
    ctx: &Context,
    name: &[u8],
    group: &str,
) -> Result<Option<Version>, NoMemory>
    ensures { IfOk result (λ v. v ≡ version_in (sight catalog.now pages.now.entries viewer.now) ctx.now name.now group.now) }
{
    if group == "private" {
        return Ok(None);
    }
    match payload(alloc, catalog, pages, viewer, ctx, name)? {
        Some(payload) => Ok(Some(version(alloc, &payload)?)),
        None => Ok(None),
    }
}

/// The module of a name, where the name has a sheet.
fn module_of(
    alloc: Global,
    catalog: &Catalog,
    pages: &Pages,
    viewer: &Viewer,
    ctx: &Context,
    name: &Name,
) -> Result<Option<Module>, NoMemory>
    ensures value { IfOk result (λ m. m ≡ module_of (sight catalog.now pages.now.entries viewer.now) ctx.now name.now) }
    ensures fit { IfOk result (λ m. IfSome m IsFit) }
    ensures needs { IfOk result (λ m. IfSome m (λ m. length m.sheet.deps ≤ MAX_DEPENDENCIES)) }
{
    let Some(sheet) = sheet(alloc, catalog, pages, viewer, ctx, name.as_bytes())? else {
        return Ok(None);
    };
    let group = sheet.group.as_str();
    let version = version_in(alloc, catalog, pages, viewer, ctx, name.as_bytes(), group)?;
    Ok(Some(Module {
        name: name.copy()?,
        sheet,
        version,
    }))
}

fn push_some(modules: &mut Vec<Module>, known: Option<Module>) -> Result<(), NoMemory>
    ensures { OnOk result (modules.new.items ≡ modules.old.items ++ option_to_list known) }
{
    if let Some(known) = known {
        modules.push(known)?;
    }
    Ok(())
}

/// The modules of all names with a sheet, in byte order.
fn modules(
    alloc: Global,
    catalog: &Catalog,
    pages: &Pages,
    viewer: &Viewer,
    ctx: &Context,
) -> Result<Vec<Module>, NoMemory>
    ensures value { IfOk result (λ v. v.items ≡ modules_of (sight catalog.now pages.now.entries viewer.now) ctx.now) }
    ensures ascend { IfOk result (λ v. IsAscending (names_of v.items)) }
    ensures few { IfOk result (λ v. length v.items ≤ MAX_ROWS) }
    ensures fit { IfOk result (λ v. AreFit v.items) }
    ensures needs { IfOk result (λ v. NeedAtMost MAX_DEPENDENCIES v.items) }
{
    let names = names(alloc, catalog, pages, viewer, ctx)?;
    let mut modules = Vec::with_capacity(alloc, names.len())?;
    'names: for name in &names {
        let known = module_of(alloc, catalog, pages, viewer, ctx, name)?;
        push_some(&mut modules, known)?;
    }
    Ok(modules)
}

/// The rows of the modules of all names with a sheet.
fn all_rows(
    alloc: Global,
    catalog: &Catalog,
    pages: &Pages,
    viewer: &Viewer,
    ctx: &Context,
) -> Result<Vec<Row>, NoMemory>
    ensures rows { IfOk result (λ v. v.items ≡ all_rows (sight catalog.now pages.now.entries viewer.now) ctx.now) }
    ensures fine { IfOk result (λ v. Fine v.items) }
{
    let modules = modules(alloc, catalog, pages, viewer, ctx)?;
    rows_of(alloc, &modules)
}

/// The rows of the registry, with all the dependencies that the sheets say. Groups that are neither `user` nor `private` get
/// numbers from 2, in the order in which they first appear; a dependency is told by the number of its row, and by name
/// where it has none.
pub fn rows(
    alloc: Global,
    catalog: &Catalog,
    pages: &Pages,
    viewer: &Viewer,
    ctx: &Context,
) -> Result<Vec<Row>, NoMemory>
    ensures rows { IfOk result (λ v. v.items ≡ all_rows (sight catalog.now pages.now.entries viewer.now) ctx.now) }

    // So a registry takes them, and a startup text may be written of them.
    ensures lawful { IfOk result (λ v. breach_of v.items ≡ None) }
    ensures writable { IfOk result (λ v. AreWritable v.items) }
{
    all_rows(alloc, catalog, pages, viewer, ctx)
}

/// This wiki, which serves its modules itself.
fn this_wiki(alloc: Global) -> Result<Vec<Source>, NoMemory>
    ensures { IfOk result (λ v. v.items ≡ this_wiki) }
{
    let mut sources = Vec::new(alloc);
    sources.push(Source {
        name: Text::of(alloc, "local")?,
        url: Text::of(alloc, "/load.php")?,
    })?;
    Ok(sources)
}

/// What a client starts from: the rows without the dependencies that others bring.
fn start_of(alloc: Global, rows: Vec<Row>) -> Result<Startup, NoMemory>
    requires { Fine rows.items }
    ensures value { IfOk result (λ startup. startup ≡ record { sources = this_wiki; rows = compacted rows.items }) }
    ensures writable { IfOk result IsWritable }
    ensures lawful { IfOk result (λ startup. breach_of startup.rows ≡ None) }
{
    let rows = compact(alloc, rows)?;
    Ok(Startup {
        sources: Seq::of(this_wiki(alloc)?),
        rows: Seq::of(rows),
    })
}

/// The startup text: a client starts from the rows without the dependencies that others bring.
pub fn startup_text(
    alloc: Global,
    catalog: &Catalog,
    pages: &Pages,
    viewer: &Viewer,
    ctx: &Context,
) -> Result<Text, NoMemory>
    ensures text { IfOk result (λ t. t ≡ startup_text_of (sight catalog.now pages.now.entries viewer.now) ctx.now) }

    // A client reads back what was written, and a registry takes its rows.
    ensures again { IfOk result (λ t. startup_of t ≡ Ok (start_of (sight catalog.now pages.now.entries viewer.now) ctx.now)) }
    ensures lawful { IfOk result (λ _. breach_of (start_of (sight catalog.now pages.now.entries viewer.now) ctx.now).rows ≡ None) }
{
    let rows = all_rows(alloc, catalog, pages, viewer, ctx)?;
    let startup = start_of(alloc, rows)?;
    write_startup(alloc, &startup)
}
