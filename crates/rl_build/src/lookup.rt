//! Look-ups by name in a context.
ghost use Rattle.std.specs.Prelude.{◌≡◌, [], IfOk, IfSome, IsTrue, IsUtf8, is_some, option_map};
ghost use Rattle.rl_names.specs.Name.{is_name};
ghost use Rattle.rl_defs.specs.Catalogue.{module_named, IsModule};
ghost use Rattle.rl_wire.specs.Message.{AreAscending};
ghost use Rattle.rl_pages.specs.Seen.{shown};
ghost use Rattle.rl_build.specs.Sight.{sight};
ghost use Rattle.rl_build.specs.Sheet.{sheet_of, sheet_of_module, IsLawful};
ghost use Rattle.rl_build.specs.Payload.{payload_of, payload_of_built_in, payload_of_module, IsBrought};

use crate::built_in::BuiltIn;
use crate::context::Context;
use crate::pages::built_in_script;
use crate::payloads::Payload;
use crate::sheets::Sheet;
use crate::texts::{distinct_names, joined};
use rl_defs::{Catalog, ModuleDef};
use rl_names::{NoMemory, Seq, Text};
use rl_pages::{Pages, Viewer};
use std::alloc::Global;

#[tactic(auto, using(crate::proofs::KnownLemmas::named_lawfully))]
fn module_of<'a>(catalog: &'a Catalog, name: &[u8]) -> Option<&'a ModuleDef>
    ensures value { option_map (λ m. m.now) result ≡ module_named catalog.now name.now }
    ensures name { IfSome result (λ _. IsTrue (is_name name.now)) }
    ensures lawful { IfSome result (λ m. IsModule catalog.now.files m.now) }
{
    let at = catalog.find(name)?;
    Some(catalog.module_at(at))
}

fn skip_of(module: &ModuleDef) -> Result<Option<Text>, NoMemory>
    ensures { IfOk result (λ s. s ≡ module.now.skip) }
{
    match &module.skip {
        Some(feature) => Ok(Some(feature.copy()?)),
        None => Ok(None),
    }
}

fn sheet_of_module(alloc: Global, module: &ModuleDef) -> Result<Sheet, NoMemory>
    ensures { IfOk result (λ s. s ≡ sheet_of_module module.now) }
{
    Ok(Sheet {
        group: module.group.copy()?,
        deps: distinct_names(alloc, module.dependencies.as_slice())?,
        source: module.source.copy()?,
        skip: skip_of(module)?,
    })
}

/// The sheet of a name, or none where the wiki has no such module.
#[tactic(auto, using(crate::proofs::KnownLemmas::sheet_lawful))]
pub fn sheet(
    alloc: Global,
    catalog: &Catalog,
    pages: &Pages,
    viewer: &Viewer,
    ctx: &Context,
    name: &[u8],
) -> Result<Option<Sheet>, NoMemory>
    ensures value { IfOk result (λ s. s ≡ sheet_of (sight catalog.now pages.now.entries viewer.now) ctx.now name.now) }
    ensures lawful { IfOk result (λ s. IfSome s IsLawful) }
{
    if let Some(built_in) = BuiltIn::named(name) {
        return Ok(Some(built_in.sheet(alloc)?));
    }
    match module_of(catalog, name) {
        Some(module) => Ok(Some(sheet_of_module(alloc, module)?)),
        None => Ok(None),
    }
}

/// The group and the source of a name's sheet, or none where it has no sheet.
pub fn group_and_source<'a>(
    catalog: &'a Catalog,
    pages: &Pages,
    viewer: &Viewer,
    ctx: &Context,
    name: &[u8],
) -> Option<(&'a str, &'a str)>
    ensures group { option_map (λ p. p.0.now) result
        ≡ option_map (λ s. s.group) (sheet_of (sight catalog.now pages.now.entries viewer.now) ctx.now name.now) }
    ensures source { option_map (λ p. p.1.now) result
        ≡ option_map (λ s. s.source) (sheet_of (sight catalog.now pages.now.entries viewer.now) ctx.now name.now) }
{
    if let Some(built_in) = BuiltIn::named(name) {
        return Some((built_in.group(), "local"));
    }
    let module = module_of(catalog, name)?;
    Some((module.group.as_str(), module.source.as_str()))
}

fn payload_of_module(
    alloc: Global,
    catalog: &Catalog,
    module: &ModuleDef,
) -> Result<Payload, NoMemory>
    ensures value { IfOk result (λ p. p ≡ payload_of_module catalog.now module.now) }
    ensures texts { IfOk result (λ p. IsUtf8 p.script × IsUtf8 p.styles × (p.messages ≡ [])) }
{
    Ok(Payload {
        script: joined(alloc, catalog, module.scripts.as_slice())?,
        styles: Text::of(alloc, "")?,
        messages: Seq::of(Vec::new(alloc)),
    })
}

fn payload_of_built_in(
    alloc: Global,
    pages: &Pages,
    viewer: &Viewer,
    ctx: &Context,
    built_in: BuiltIn,
) -> Result<Payload, NoMemory>
    ensures value { IfOk result (λ p. p ≡ payload_of_built_in (shown pages.now.entries viewer.now) ctx.now built_in) }
    ensures texts { IfOk result (λ p. IsUtf8 p.script × IsUtf8 p.styles × (p.messages ≡ [])) }
{
    Ok(Payload {
        script: built_in_script(alloc, pages, viewer, ctx, built_in)?,
        styles: Text::of(alloc, "")?,
        messages: Seq::of(Vec::new(alloc)),
    })
}

/// What a name brings, or none where it has no sheet.
#[tactic(auto, using(crate::proofs::KnownLemmas::brought))]
pub fn payload(
    alloc: Global,
    catalog: &Catalog,
    pages: &Pages,
    viewer: &Viewer,
    ctx: &Context,
    name: &[u8],
) -> Result<Option<Payload>, NoMemory>
    ensures value { IfOk result (λ p. p ≡ payload_of (sight catalog.now pages.now.entries viewer.now) ctx.now name.now) }
    ensures ascending { IfOk result (λ p. IfSome p (λ p. AreAscending p.messages)) }

    // So a part can be made of it.
    ensures lawful { IfOk result (λ p. IfSome p (IsBrought name.now)) }
    ensures with_sheet { IfOk result (λ p. is_some p ≡ is_some (sheet_of (sight catalog.now pages.now.entries viewer.now) ctx.now name.now)) }
{
    if let Some(built_in) = BuiltIn::named(name) {
        return Ok(Some(payload_of_built_in(alloc, pages, viewer, ctx, built_in)?));
    }
    match module_of(catalog, name) {
        Some(module) => Ok(Some(payload_of_module(alloc, catalog, module)?)),
        None => Ok(None),
    }
}
