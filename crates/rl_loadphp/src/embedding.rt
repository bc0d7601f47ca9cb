//! The text that goes with a viewer's page itself.
ghost use Rattle.std.specs.Prelude.{◌≡◌, IfOk, filter};
ghost use Rattle.rl_build.specs.Sight.{sight};
ghost use Rattle.rl_loadphp.specs.Embed.{embed_of, is_private as is_private_of, private_names as private_names_of, IsOfParts};

use crate::lines::modules;
use crate::serving::Asked;
use rl_build::{Context, group_and_source, names};
use rl_defs::Catalog;
use rl_names::{Name, NoMemory, Text};
use rl_pages::{Pages, Viewer};
use std::alloc::Global;

fn is_private(catalog: &Catalog, pages: &Pages, viewer: &Viewer, ctx: &Context, name: &str) -> bool
    ensures { result ≡ is_private_of (sight catalog.now pages.now.entries viewer.now) ctx.now name.now }
{
    match group_and_source(catalog, pages, viewer, ctx, name.as_bytes()) {
        Some((group, _)) => group == "private",
        None => false,
    }
}

/// Those of these names whose modules are private.
fn private_among(
    alloc: Global,
    catalog: &Catalog,
    pages: &Pages,
    viewer: &Viewer,
    ctx: &Context,
    names: &[Name],
) -> Result<Vec<Text>, NoMemory>
    ensures { IfOk result (λ v. v.items
        ≡ filter (is_private_of (sight catalog.now pages.now.entries viewer.now) ctx.now) names.now) }
{
    let mut private = Vec::new(alloc);
    'names: for name in names {
        if is_private(catalog, pages, viewer, ctx, name.as_str()) {
            private.push(Text::of(alloc, name.as_str())?)?;
        }
    }
    Ok(private)
}

/// The names of the private modules, in byte order.
fn private_names(
    alloc: Global,
    catalog: &Catalog,
    pages: &Pages,
    viewer: &Viewer,
    ctx: &Context,
) -> Result<Vec<Text>, NoMemory>
    ensures { IfOk result (λ v. v.items ≡ private_names_of (sight catalog.now pages.now.entries viewer.now) ctx.now) }
{
    let all = names(alloc, catalog, pages, viewer, ctx)?;
    private_among(alloc, catalog, pages, viewer, ctx, &all)
}

/// The text that is embedded in a viewer's page: the private modules, in byte order of their names.
pub fn embed(
    alloc: Global,
    catalog: &Catalog,
    pages: &Pages,
    viewer: &Viewer,
    ctx: &Context,
) -> Result<Text, NoMemory>
    ensures text { IfOk result (λ t. t ≡ embed_of (sight catalog.now pages.now.entries viewer.now) ctx.now) }

    // A reader gets parts of it: their names are names, and the keys of their messages ascend.
    ensures parts { IfOk result IsOfParts }
{
    let names = Asked {
        served: private_names(alloc, catalog, pages, viewer, ctx)?,
        missing: Vec::new(alloc),
    };
    let made = modules(alloc, catalog, pages, viewer, ctx, &names)?;
    Ok(Text::from_string(made.body))
}
