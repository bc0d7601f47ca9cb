//! The checks of names, counts, dependencies, files, sources and sizes, in their order.
ghost use Rattle.std.specs.Prelude.{◌≡◌, ◌+◌, ◌-◌, ◌^◌, map, min, option_copied};
ghost use Rattle.rl_defs.specs.Named.{AreNames};
ghost use Rattle.rl_defs.specs.Breach as spec;
ghost use Rattle.rl_defs.specs.Draft.{IsDraft};
ghost use Rattle.rl_names.specs.Meant.{Checks};
ghost use Rattle.rl_defs.specs.Refusal.{refusal_told};

use crate::draft::{Draft, ModuleDraft};
use crate::error::CatalogError;
use crate::named::find_named;
use crate::words::{is_built_in, is_definable, is_gadget, is_skin, user_name};
use rl_names::{Counted, MAX_DEPENDENCIES, MAX_LISTED_BYTES, MAX_MODULES, Name, Text};
use std::alloc::Global;

/// The first breach of a draft whose fields are known.
pub(crate) fn check_draft(alloc: Global, draft: &Draft) -> Result<(), CatalogError>
    requires { IsDraft draft.now }
    ensures { Checks refusal_told result (spec.breach_of draft.now) }
{
    check_names(alloc, draft)?;
    check_counts(draft)?;
    check_dependencies(draft)?;
    check_files(draft)?;
    check_sources(draft)?;
    check_size(draft)
}

fn check_names(alloc: Global, draft: &Draft) -> Result<(), CatalogError>
    ensures { Checks refusal_told result (spec.bad_name draft.now) }
{
    check_module_names(draft.modules.as_slice())?;
    check_admins(alloc, draft.admins.as_slice())?;
    check_skins(draft.skins.as_slice())
}

fn check_module_names(modules: &[ModuleDraft]) -> Result<(), CatalogError>
    ensures { Checks refusal_told result (spec.bad_module_name modules.now) }
{
    'modules: for module in modules {
        if !is_definable(module.name.as_str()) {
            return Err(CatalogError::BadName {
                text: module.name.copy()?,
            });
        }
    }
    Ok(())
}

fn check_admins(alloc: Global, admins: &[Text]) -> Result<(), CatalogError>
    ensures { Checks refusal_told result (spec.bad_admin admins.now) }
{
    'admins: for admin in admins {
        if user_name(alloc, admin.as_str())?.is_none() {
            return Err(CatalogError::BadName {
                text: admin.copy()?,
            });
        }
    }
    Ok(())
}

fn check_skins(skins: &[Text]) -> Result<(), CatalogError>
    ensures { Checks refusal_told result (spec.bad_skin skins.now) }
{
    'skins: for skin in skins {
        if !is_skin(skin.as_str()) {
            return Err(CatalogError::BadName { text: skin.copy()? });
        }
    }
    Ok(())
}

fn check_counts(draft: &Draft) -> Result<(), CatalogError>
    ensures { Checks refusal_told result (spec.too_many draft.now) }
{
    let modules = draft.modules.as_slice();
    let count = modules.len() as u64;
    if count > MAX_MODULES {
        return Err(CatalogError::TooMany {
            what: Counted::Modules,
            count,
        });
    }
    check_dependency_counts(modules)
}

fn check_dependency_counts(modules: &[ModuleDraft]) -> Result<(), CatalogError>
    ensures { Checks refusal_told result (spec.too_many_dependencies modules.now) }
{
    'modules: for module in modules {
        let count = module.dependencies.as_slice().len() as u64;
        if count > MAX_DEPENDENCIES {
            return Err(CatalogError::TooMany {
                what: Counted::Dependencies,
                count,
            });
        }
    }
    Ok(())
}

fn check_dependencies(draft: &Draft) -> Result<(), CatalogError>
    requires { AreNames (map (λ m. m.name) draft.now.modules) }
    ensures { Checks refusal_told result (spec.bad_dependency draft.now) }
{
    'modules: for module in draft.modules.as_slice() {
        check_dependencies_of(draft, module)?;
    }
    Ok(())
}

fn check_dependencies_of(draft: &Draft, module: &ModuleDraft) -> Result<(), CatalogError>
    requires { AreNames (map (λ m. m.name) draft.now.modules) }
    ensures { Checks refusal_told result (spec.bad_dependency_of draft.now module.now) }
{
    'names: for name in module.dependencies.as_slice() {
        if !is_dependency(draft, name) {
            return Err(CatalogError::BadDependency {
                module: module.name.copy()?,
                name: name.copy()?,
            });
        }
    }
    Ok(())
}

/// Whether a dependency is a module of the file, a built-in module or what may be a gadget.
fn is_dependency(draft: &Draft, name: &Text) -> bool
    requires { AreNames (map (λ m. m.name) draft.now.modules) }
    ensures { result ≡ spec.is_dependency draft.now name.now }
{
    Name::is(name.as_bytes())
        && (is_defined(draft, name) || is_built_in(name.as_str()) || is_gadget(name.as_str()))
}

/// Whether the file defines a module of this name.
fn is_defined(draft: &Draft, name: &Text) -> bool
    requires { AreNames (map (λ m. m.name) draft.now.modules) }
    ensures { result ≡ spec.is_defined draft.now name.now }
{
    find_named(draft.modules.as_slice(), name.as_str()).is_some()
}

fn check_files(draft: &Draft) -> Result<(), CatalogError>
    requires { AreNames (map (λ f. f.name) draft.now.files) }
    ensures { Checks refusal_told result (spec.no_file draft.now) }
{
    'modules: for module in draft.modules.as_slice() {
        check_files_of(draft, module)?;
    }
    Ok(())
}

fn check_files_of(draft: &Draft, module: &ModuleDraft) -> Result<(), CatalogError>
    requires { AreNames (map (λ f. f.name) draft.now.files) }
    ensures { Checks refusal_told result (spec.no_file_of draft.now module.now) }
{
    'files: for file in module.scripts.as_slice() {
        if text_of(draft, file).is_none() {
            return Err(CatalogError::NoFile {
                module: module.name.copy()?,
                file: file.copy()?,
            });
        }
    }
    Ok(())
}

/// The text of a listed file.
fn text_of<'a>(draft: &'a Draft, name: &Text) -> Option<&'a Text>
    requires { AreNames (map (λ f. f.name) draft.now.files) }
    ensures { option_copied result ≡ spec.text_of draft.now name.now }
{
    let file = find_named(draft.files.as_slice(), name.as_str())?;
    Some(&file.text)
}

fn check_sources(draft: &Draft) -> Result<(), CatalogError>
    ensures { Checks refusal_told result (spec.bad_source draft.now) }
{
    'modules: for module in draft.modules.as_slice() {
        if module.source.as_str() != "local" {
            return Err(CatalogError::BadSource {
                module: module.name.copy()?,
            });
        }
    }
    Ok(())
}

fn check_size(draft: &Draft) -> Result<(), CatalogError>
    requires { AreNames (map (λ f. f.name) draft.now.files) }
    ensures { Checks refusal_told result (spec.too_large draft.now) }
{
    let count = listed_bytes(draft);
    if count > MAX_LISTED_BYTES {
        return Err(CatalogError::TooMany {
            what: Counted::ListedBytes,
            count,
        });
    }
    Ok(())
}

/// The bytes of all listed files, at most 2^64 - 1.
fn listed_bytes(draft: &Draft) -> u64
    requires { AreNames (map (λ f. f.name) draft.now.files) }
    ensures { result ≡ min (spec.listed_bytes draft.now) (2 ^ 64 - 1) }
{
    let mut count = 0;
    'modules: for module in draft.modules.as_slice() {
        count = plus_listed(count, draft, module);
    }
    count
}

/// A count and the bytes of the files that a module lists, at most 2^64 - 1.
fn plus_listed(before: u64, draft: &Draft, module: &ModuleDraft) -> u64
    requires { AreNames (map (λ f. f.name) draft.now.files) }
    ensures { result ≡ min (before + spec.listed_bytes_of draft.now module.now) (2 ^ 64 - 1) }
{
    let mut count = before;
    'files: for file in module.scripts.as_slice() {
        let len = text_of(draft, file).map_or(0, |text| text.as_bytes().len());
        count = count.saturating_add(len as u64);
    }
    count
}
