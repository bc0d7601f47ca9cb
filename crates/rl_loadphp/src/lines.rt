//! Bodies of modules: a line for each.
ghost use Rattle.std.specs.Prelude.{◌≡◌, ◌++◌, IfOk, IfSome, IsTrue, IsUtf8, OnOk, map, string_bytes};
ghost use Rattle.std.specs.List.{AllByRecursion};
ghost use Rattle.rl_names.specs.Name.{is_version};
ghost use Rattle.rl_wire.specs.Line.{IsPart};
ghost use Rattle.rl_wire.specs.Message.{AreAscending};
ghost use Rattle.rl_build.specs.Sight.{sight};
ghost use Rattle.rl_build.specs.Payload.{text_of, version_of};
ghost use Rattle.rl_names.specs.declared.query.Only.{Only as only};
ghost use Rattle.rl_loadphp.specs.Served.{payloads};
ghost use Rattle.rl_loadphp.specs.Body.{body_of, implementation_of, parts_of, states_text};
ghost use Rattle.rl_loadphp.specs.Steps.{line_of, version_in};

use crate::serving::Asked;
use rl_build::{Context, Payload, payload};
use rl_defs::Catalog;
use rl_names::{NoMemory, Text, Version, hash5};
use rl_pages::{Pages, Viewer};
use rl_wire::{push_payload, push_state};
use std::alloc::Global;

/// The text of a payload, and the version that is its hash.
#[derive(Drop)]
struct Made {
    text: Text,
    version: Version,
}

/// The text and the version of a payload, with what is known of each version.
fn make(alloc: Global, brought: &Payload) -> Result<Made, NoMemory>
    requires { AreAscending brought.now.messages }
    ensures text { IfOk result (λ m. m.text ≡ text_of brought.now) }
    ensures value { IfOk result (λ m. m.version ≡ version_of brought.now) }
    ensures version { IfOk result (λ m. IsTrue (is_version m.version)) }
{
    let text = brought.text(alloc)?;
    let version = hash5(text.as_bytes());
    let _text = version.as_str();
    Ok(Made { text, version })
}

/// Adds the line that brings a module, and its version.
fn push_module(
    alloc: Global,
    out: &mut String,
    versions: &mut Vec<Version>,
    catalog: &Catalog,
    pages: &Pages,
    viewer: &Viewer,
    ctx: &Context,
    name: &str,
) -> Result<(), NoMemory>
    ensures text { OnOk result (string_bytes out.new ≡ string_bytes out.old ++ line_of (sight catalog.now pages.now.entries viewer.now) ctx.now name.now) }
    ensures versions { OnOk result (versions.new.items ≡ versions.old.items ++ version_in (sight catalog.now pages.now.entries viewer.now) ctx.now name.now) }
    ensures part { OnOk result (IfSome (implementation_of (sight catalog.now pages.now.entries viewer.now) ctx.now name.now) IsPart) }
{
    let Some(brought) = payload(alloc, catalog, pages, viewer, ctx, name.as_bytes())? else {
        return Ok(());
    };
    let made = make(alloc, &brought)?;
    push_payload(alloc, out, name, made.version, made.text.as_str())?;
    versions.push(made.version)?;
    Ok(())
}

/// Adds the lines that give these names the state of a word.
pub(crate) fn push_states(
    alloc: Global,
    out: &mut String,
    names: &[Text],
    word: &str,
) -> Result<(), NoMemory>
    ensures text { OnOk result (string_bytes out.new ≡ string_bytes out.old ++ states_text word.now names.now) }
    ensures utf8 { OnOk result (AllByRecursion IsUtf8 names.now) }
{
    'names: for name in names {
        push_state(alloc, out, name.as_str(), word)?;
    }
    Ok(())
}

/// A body of modules, and the versions of those that are served.
#[derive(Drop)]
pub(crate) struct Lines {
    pub(crate) body: String,
    pub(crate) versions: Vec<Version>,
}

/// Implementations and then states.
pub(crate) fn modules(
    alloc: Global,
    catalog: &Catalog,
    pages: &Pages,
    viewer: &Viewer,
    ctx: &Context,
    names: &Asked,
) -> Result<Lines, NoMemory>
    ensures body { IfOk result (λ m. string_bytes m.body
        ≡ body_of (sight catalog.now pages.now.entries viewer.now) ctx.now only.All names.now.served.items names.now.missing.items) }
    ensures versions { IfOk result (λ m. m.versions.items
        ≡ map version_of (payloads (sight catalog.now pages.now.entries viewer.now) ctx.now names.now.served.items)) }
    ensures parts { IfOk result (λ _. AllByRecursion IsPart
        (parts_of (sight catalog.now pages.now.entries viewer.now) ctx.now names.now.served.items names.now.missing.items)) }
{
    let mut body = String::new(alloc);
    let mut versions = Vec::with_capacity(alloc, names.served.len())?;
    'served: for name in &names.served {
        push_module(
            alloc,
            &mut body,
            &mut versions,
            catalog,
            pages,
            viewer,
            ctx,
            name.as_str(),
        )?;
    }
    push_states(alloc, &mut body, &names.missing, "missing")?;
    Ok(Lines { body, versions })
}
