//! Bodies of scripts or of styles alone.
ghost use Rattle.std.specs.Prelude.{◌≡◌, ◌++◌, ◌∷◌, [], true, IfOk, OnOk, map, string_bytes};
ghost use Rattle.rl_wire.specs.Message.{AreAscending};
ghost use Rattle.rl_build.specs.Sight.{sight};
ghost use Rattle.rl_build.specs.Payload.{version_of};
ghost use Rattle.rl_names.specs.declared.query.Only.{Only as only};
ghost use Rattle.rl_loadphp.specs.Served.{payloads};
ghost use Rattle.rl_loadphp.specs.Body.{body_of};
ghost use Rattle.rl_loadphp.specs.Steps.{version_in, script_of, styles_of};

use crate::lines::{Lines, push_states};
use crate::serving::Asked;
use rl_build::{Context, Payload, payload, version};
use rl_defs::Catalog;
use rl_names::{NoMemory, Version};
use rl_pages::{Pages, Viewer};
use std::alloc::Global;

/// Adds the version of a payload, where it is wanted.
fn push_version(
    alloc: Global,
    versions: &mut Vec<Version>,
    wanted: bool,
    brought: &Payload,
) -> Result<(), NoMemory>
    requires { AreAscending brought.now.messages }
    ensures { OnOk result (wanted ≡ true → versions.new.items ≡ versions.old.items ++ version_of brought.now ∷ []) }
{
    if wanted {
        versions.push(version(alloc, brought)?)?;
    }
    Ok(())
}

/// Adds the script of a name, and where it is wanted the version.
fn push_script(
    alloc: Global,
    out: &mut String,
    versions: &mut Vec<Version>,
    wanted: bool,
    catalog: &Catalog,
    pages: &Pages,
    viewer: &Viewer,
    ctx: &Context,
    name: &str,
) -> Result<(), NoMemory>
    ensures text { OnOk result (string_bytes out.new ≡ string_bytes out.old ++ script_of (sight catalog.now pages.now.entries viewer.now) ctx.now name.now) }
    ensures versions { OnOk result (wanted ≡ true
        → versions.new.items ≡ versions.old.items ++ version_in (sight catalog.now pages.now.entries viewer.now) ctx.now name.now) }
{
    if let Some(brought) = payload(alloc, catalog, pages, viewer, ctx, name.as_bytes())? {
        out.push_str(brought.script.as_str())?;
        push_version(alloc, versions, wanted, &brought)?;
    }
    Ok(())
}

/// Scripts alone, and then the states of all names; and the versions, where they are wanted.
pub(crate) fn scripts(
    alloc: Global,
    catalog: &Catalog,
    pages: &Pages,
    viewer: &Viewer,
    ctx: &Context,
    names: &Asked,
    wanted: bool,
) -> Result<Lines, NoMemory>
    ensures body { IfOk result (λ m. string_bytes m.body
        ≡ body_of (sight catalog.now pages.now.entries viewer.now) ctx.now only.Scripts names.now.served.items names.now.missing.items) }
    ensures versions { IfOk result (λ m. wanted ≡ true → m.versions.items
        ≡ map version_of (payloads (sight catalog.now pages.now.entries viewer.now) ctx.now names.now.served.items)) }
{
    let mut body = String::new(alloc);
    let mut versions = Vec::new(alloc);
    'served: for name in &names.served {
        push_script(
            alloc,
            &mut body,
            &mut versions,
            wanted,
            catalog,
            pages,
            viewer,
            ctx,
            name.as_str(),
        )?;
    }
    push_states(alloc, &mut body, &names.served, "ready")?;
    push_states(alloc, &mut body, &names.missing, "missing")?;
    Ok(Lines { body, versions })
}

/// Adds the styles of a name, and where it is wanted the version.
fn push_styles(
    alloc: Global,
    out: &mut String,
    versions: &mut Vec<Version>,
    wanted: bool,
    catalog: &Catalog,
    pages: &Pages,
    viewer: &Viewer,
    ctx: &Context,
    name: &str,
) -> Result<(), NoMemory>
    ensures text { OnOk result (string_bytes out.new ≡ string_bytes out.old ++ styles_of (sight catalog.now pages.now.entries viewer.now) ctx.now name.now) }
    ensures versions { OnOk result (wanted ≡ true
        → versions.new.items ≡ versions.old.items ++ version_in (sight catalog.now pages.now.entries viewer.now) ctx.now name.now) }
{
    if let Some(brought) = payload(alloc, catalog, pages, viewer, ctx, name.as_bytes())? {
        out.push_str(brought.styles.as_str())?;
        push_version(alloc, versions, wanted, &brought)?;
    }
    Ok(())
}

/// Styles alone, and the versions, where they are wanted.
pub(crate) fn styles(
    alloc: Global,
    catalog: &Catalog,
    pages: &Pages,
    viewer: &Viewer,
    ctx: &Context,
    names: &Asked,
    wanted: bool,
) -> Result<Lines, NoMemory>
    ensures body { IfOk result (λ m. string_bytes m.body
        ≡ body_of (sight catalog.now pages.now.entries viewer.now) ctx.now only.Styles names.now.served.items names.now.missing.items) }
    ensures versions { IfOk result (λ m. wanted ≡ true → m.versions.items
        ≡ map version_of (payloads (sight catalog.now pages.now.entries viewer.now) ctx.now names.now.served.items)) }
{
    let mut body = String::new(alloc);
    let mut versions = Vec::new(alloc);
    'served: for name in &names.served {
        push_styles(
            alloc,
            &mut body,
            &mut versions,
            wanted,
            catalog,
            pages,
            viewer,
            ctx,
            name.as_str(),
        )?;
    }
    Ok(Lines { body, versions })
}
