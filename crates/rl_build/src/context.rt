//! How modules are seen.
ghost use Rattle.std.specs.Prelude.{◌≡◌, IfOk};
ghost use Rattle.rl_build.specs.Context.{context_of, language_of, skin_of};

use rl_defs::Catalog;
use rl_names::{NoMemory, Text};
use std::alloc::Global;

/// How modules are seen.
#[derive(Drop)]
pub struct Context {
    /// The code of a language that the wiki has, or `qqx`, which shows the keys of messages.
    pub lang: Text,
    /// The name of a skin that the wiki has, or `fallback`.
    pub skin: Text,
    pub debug: bool,
}

/// The language of this code, or `qqx`.
fn known_language(alloc: Global, catalog: &Catalog, code: &[u8]) -> Result<Text, NoMemory>
    ensures { IfOk result (λ t. t ≡ language_of catalog.now code.now) }
{
    'languages: for language in catalog.languages() {
        if language.code.as_bytes() == code {
            return Ok(language.code.copy()?);
        }
    }
    Text::of(alloc, "qqx")
}

/// The skin of this name, or `fallback`.
fn known_skin(alloc: Global, catalog: &Catalog, name: &[u8]) -> Result<Text, NoMemory>
    ensures { IfOk result (λ t. t ≡ skin_of catalog.now name.now) }
{
    'skins: for skin in catalog.skins() {
        if skin.as_bytes() == name {
            return Ok(skin.copy()?);
        }
    }
    Text::of(alloc, "fallback")
}

impl Context {
    /// The context that is asked for by the code of a language and the name of a skin. An unknown
    /// language becomes `qqx`, and an unknown skin `fallback`.
    pub fn read(
        alloc: Global,
        catalog: &Catalog,
        lang: &[u8],
        skin: &[u8],
        debug: bool,
    ) -> Result<Context, NoMemory>
        ensures { IfOk result (λ ctx. ctx ≡ context_of catalog.now lang.now skin.now debug) }
    {
        Ok(Context {
            lang: known_language(alloc, catalog, lang)?,
            skin: known_skin(alloc, catalog, skin)?,
            debug,
        })
    }
}
