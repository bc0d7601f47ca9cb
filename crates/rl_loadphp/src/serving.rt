//! Which names are served.
ghost use Rattle.std.specs.Prelude.{◌≡◌, IfOk, filter, not};
ghost use Rattle.rl_build.specs.Sight.{sight};
ghost use Rattle.rl_loadphp.specs.Served.{is_served as is_served_of, is_viewer as is_viewer_of, names_viewer as names_viewer_of};

use rl_build::{Context, group_and_source};
use rl_defs::Catalog;
use rl_names::{NoMemory, Text};
use rl_pages::{Pages, Viewer, ViewerError};
use std::alloc::Global;

/// Whether both are the same viewer.
fn is_viewer(viewer: &Viewer, other: &Viewer) -> bool
    ensures { result ≡ is_viewer_of viewer.now other.now }
{
    match other {
        Viewer::User(name) => viewer.is(name.as_bytes()),
        Viewer::Anon => matches!(viewer, Viewer::Anon),
    }
}

/// Whether a query's `user` names the viewer. An empty one names nobody, and what is no user's name
/// names no viewer.
pub fn names_viewer(alloc: Global, viewer: &Viewer, user: &str) -> Result<bool, NoMemory>
    ensures { IfOk result (λ own. own ≡ names_viewer_of viewer.now user.now) }
{
    match Viewer::read(alloc, user.as_bytes()) {
        Ok(named) => Ok(is_viewer(viewer, &named)),
        Err(ViewerError::BadUser) => Ok(false),
        Err(ViewerError::NoMemory) => Err(NoMemory),
    }
}

/// Whether the name is served, where the query names the viewer as its user or not.
fn is_served(
    catalog: &Catalog,
    pages: &Pages,
    viewer: &Viewer,
    ctx: &Context,
    own: bool,
    name: &str,
) -> bool
    ensures { result ≡ is_served_of (sight catalog.now pages.now.entries viewer.now) ctx.now own name.now }
{
    match group_and_source(catalog, pages, viewer, ctx, name.as_bytes()) {
        Some((group, source)) => {
            group != "private" && source == "local" && (group != "user" || own)
        }
        None => false,
    }
}

/// The names that are served, and those that are not.
#[derive(Drop)]
pub(crate) struct Asked {
    pub(crate) served: Vec<Text>,
    pub(crate) missing: Vec<Text>,
}

pub(crate) fn sort_out(
    alloc: Global,
    catalog: &Catalog,
    pages: &Pages,
    viewer: &Viewer,
    ctx: &Context,
    own: bool,
    names: Vec<Text>,
) -> Result<Asked, NoMemory>
    ensures served { IfOk result (λ s. s.served.items
        ≡ filter (is_served_of (sight catalog.now pages.now.entries viewer.now) ctx.now own) names.items) }
    ensures missing { IfOk result (λ s. s.missing.items
        ≡ filter (λ name. not (is_served_of (sight catalog.now pages.now.entries viewer.now) ctx.now own name)) names.items) }
{
    let mut served = Vec::new(alloc);
    let mut missing = Vec::new(alloc);
    'names: for name in names {
        if is_served(catalog, pages, viewer, ctx, own, name.as_str()) {
            served.push(name)?;
        } else {
            missing.push(name)?;
        }
    }
    Ok(Asked { served, missing })
}
