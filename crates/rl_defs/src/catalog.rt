//! What definitions say, once every check has passed.
ghost use Rattle.std.specs.Prelude.{◌≡◌, ◌<◌, ◌≤◌, length, map, slice_get, bytes_eq, option_and_then, option_copied, option_map};
ghost use Rattle.std.specs.Prelude.{IsTrue, IfOk, Some, None, Ok};
ghost use Rattle.std.specs.List.{AllByRecursion, list_all, position};
ghost use Rattle.rl_names.specs.Meant.{Gives};
ghost use Rattle.rl_names.specs.Title.{is_user_name};
ghost use Rattle.rl_defs.specs.Ascending.{IsAscending};
ghost use Rattle.rl_defs.specs.Breach.{breach_of, reading};
ghost use Rattle.rl_defs.specs.Catalogue.{file_of, module_named, IsCatalogue, IsModule};
ghost use Rattle.rl_defs.specs.Draft.{catalogue_of, IsDraft};
ghost use Rattle.rl_defs.specs.Refusal.{refusal_told};

use crate::checks::check_draft;
use crate::draft::{Draft, settled_modules};
use crate::error::CatalogError;
use crate::file::File;
use crate::language::Language;
use crate::module_def::ModuleDef;
use crate::named::{find_named, place_of_bytes};
use crate::reading::document;
use crate::words::user_names;
use rl_names::{NoMemory, Seq, Text};
use std::alloc::Global;
use std::marker::Model;

/// What a definitions file says, once every check has passed.
#[derive(Drop)]
pub struct Catalog {
    admins: Seq<Text>,
    skins: Seq<Text>,
    languages: Seq<Language>,
    limit: u32,
    store_version: u32,
    files: Seq<File>,
    modules: Seq<ModuleDef>,
}

impl Model for Catalog {
    ghost use Rattle.rl_defs.specs.Catalogue.{Catalogue, IsCatalogue};

    ghost Value = { Catalogue };

    ghost view = { λ c. record {
      admins = c.admins;
      skins = c.skins;
      languages = c.languages;
      limit = c.limit;
      store_version = c.store_version;
      files = c.files;
      modules = c.modules;
    } };

    ghost invariant = { λ c. IsCatalogue record {
      admins = c.admins;
      skins = c.skins;
      languages = c.languages;
      limit = c.limit;
      store_version = c.store_version;
      files = c.files;
      modules = c.modules;
    } };
}

impl Catalog {
    /// Reads a definitions file, or tells the first breach of its checks in their order.
    pub fn read(alloc: Global, bytes: &[u8]) -> Result<Catalog, CatalogError>
        ensures { Gives refusal_told result (reading bytes.now) }
    {
        let root = document(alloc, bytes)?;
        let draft = Draft::of(alloc, root)?;
        check_draft(alloc, &draft)?;
        Ok(Catalog::of(alloc, draft)?)
    }

    /// The catalogue of a draft that breaks no rule.
    fn of(alloc: Global, draft: Draft) -> Result<Catalog, NoMemory>
        requires orderly { IsDraft draft }
        requires kept { breach_of draft ≡ None }
        ensures { IfOk result (λ c. c ≡ catalogue_of draft) }
    {
        let Draft {
            admins,
            skins,
            limit,
            store_version,
            files,
            modules,
        } = draft;
        let english = Language {
            code: Text::of(alloc, "en")?,
            fallback: Seq::of(Vec::new(alloc)),
            rtl: false,
        };
        Ok(Catalog {
            admins: user_names(alloc, admins.as_slice())?,
            skins,
            languages: Seq::of(vec![in alloc; english]?),
            limit,
            store_version,
            files,
            modules: settled_modules(alloc, modules)?,
        })
    }

    /// How many modules are defined.
    pub fn module_count(&self) -> u32
        ensures count { result ≡ length self.now.modules }

        // What is known of every catalogue and of each of its modules.
        ensures whole { IsCatalogue self.now }
    {
        self.modules.as_slice().len() as u32
    }

    /// A module by its place. The modules are in byte order of their names.
    pub fn module_at(&self, at: u32) -> &ModuleDef
        requires { at < length self.now.modules }
        ensures value { slice_get self.now.modules at ≡ Some result.now }
        ensures lawful { IsModule self.now.files result.now }
    {
        &self.modules.as_slice()[at as usize]
    }

    /// The modules, in byte order of their names.
    pub fn modules(&self) -> &[ModuleDef]
        ensures value { result.now ≡ self.now.modules }
        ensures ascending { IsAscending (map (λ m. m.name) self.now.modules) }
        ensures lawful { AllByRecursion (IsModule self.now.files) self.now.modules }
    {
        self.modules.as_slice()
    }

    /// The place of the module of this name.
    pub fn find(&self, name: &[u8]) -> Option<u32>
        ensures place { result ≡ position (λ m. bytes_eq m.name name.now) self.now.modules }
        ensures named { option_and_then (slice_get self.now.modules) result ≡ module_named self.now name.now }
    {
        let at = place_of_bytes(self.modules.as_slice(), name)?;
        Some(at as u32)
    }

    /// The text of the file of this name.
    pub fn file(&self, name: &[u8]) -> Option<&[u8]>
        ensures { option_copied result ≡ file_of self.now name.now }
    {
        let files = self.files.as_slice();
        let at = place_of_bytes(files, name)?;
        Some(files[at].text.as_bytes())
    }

    /// The same as text.
    pub fn file_text(&self, name: &str) -> Option<&str>
        ensures { option_map (λ text. text.now) result ≡ file_of self.now name.now }
    {
        let file = find_named(self.files.as_slice(), name)?;
        Some(file.text.as_str())
    }

    /// Who may edit every page, as the rule of user names spells them.
    pub fn admins(&self) -> &[Text]
        ensures value { result.now ≡ self.now.admins }
        ensures users { IsTrue (list_all is_user_name self.now.admins) }
    {
        self.admins.as_slice()
    }

    /// The skins that are declared. `fallback` is known without a declaration, and is not among
    /// them.
    pub fn skins(&self) -> &[Text]
        ensures { result.now ≡ self.now.skins }
    {
        self.skins.as_slice()
    }

    /// The languages, in byte order of their codes.
    ///
    /// The table of languages is not read yet: `en`, which is known without a declaration, is the
    /// only one.
    pub fn languages(&self) -> &[Language]
        ensures { result.now ≡ self.now.languages }
    {
        self.languages.as_slice()
    }

    /// The most bytes that a query of one batch may have.
    pub fn limit(&self) -> u32
        ensures value { result ≡ self.now.limit }
        ensures range { (200 ≤ result) × (result ≤ 4000) }
    {
        self.limit
    }

    /// A number that a wiki raises to make clients drop what they keep.
    pub fn store_version(&self) -> u32
        ensures value { result ≡ self.now.store_version }
        ensures range { result ≤ 1000000 }
    {
        self.store_version
    }
}
