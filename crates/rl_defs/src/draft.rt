//! What definitions say as they are written, before their names are read.
//!
//! One pass over the file's table takes the value of each field that is known into its place, and ends at the first field
//! that is not. A field is known where one of the `take` below has its key and its value is of the field's kind.
ghost use Rattle.std.specs.Prelude.{◌≡◌, is_some, map, string_bytes, unwrap_or, IfOk, IsTrue, OnOk, Some};
ghost use Rattle.std.specs.List.{list_all};
ghost use Rattle.std.specs.Option.{option_or};
ghost use Rattle.rl_names.specs.Meant.{Checks};
ghost use Rattle.rl_names.specs.Name.{is_name};
ghost use Rattle.toml.specs.View.{view, table_view};
ghost use Rattle.rl_defs.specs.Breach.{unknown_among};
ghost use Rattle.rl_defs.specs.Draft as spec;
ghost use Rattle.rl_defs.specs.Draft.{IsDraft, has_names, may_skip, module_of};
ghost use Rattle.rl_defs.specs.Fields.{is_module_field, is_wiki_field, fields, fields_at, module_fields, modules_fields, top_fields, InFiles, InWiki};
ghost use Rattle.rl_defs.specs.Named.{AreNames};
ghost use Rattle.rl_defs.specs.Reading.{inside};
ghost use Rattle.rl_defs.specs.Refusal.{refusal_told, UnknownField};
ghost use Rattle.rl_defs.specs.Taken.{Takes, module_taken, wiki_taken, table_taken};

use crate::error::{CatalogError, FieldKind};
use crate::file::File;
use crate::module_def::ModuleDef;
use crate::named::Named;
use crate::reading::{feature_of, number_of, text_of, texts_of};
use rl_names::{Name, NoMemory, Seq, Text};
use std::alloc::Global;
use toml::{Table, Value};

/// What a definitions file says as it is written, before its names are read.
#[derive(Drop)]
pub(crate) struct Draft {
    pub(crate) admins: Seq<Text>,
    pub(crate) skins: Seq<Text>,
    pub(crate) limit: u32,
    pub(crate) store_version: u32,
    pub(crate) files: Seq<File>,
    pub(crate) modules: Seq<ModuleDraft>,
}

/// Puts a value that was read into its place. False where none was.
fn put<T: Drop>(place: &mut T, value: Option<T>) -> bool
    ensures known { result ≡ is_some value }
    ensures value { place.new ≡ unwrap_or value place.old }
{
    match value {
        Some(value) => {
            *place = value;
            true
        }
        None => false,
    }
}

/// Puts a value that was read where there may be none. False where none was.
fn put_some<T: Drop>(place: &mut Option<T>, value: Option<T>) -> bool
    ensures known { result ≡ is_some value }
    ensures value { place.new ≡ option_or value place.old }
{
    match value {
        Some(value) => {
            *place = Some(value);
            true
        }
        None => false,
    }
}

/// The refusal of a field of this kind.
fn unknown(
    alloc: Global,
    kind: FieldKind,
    module: &str,
    field: &str,
) -> Result<CatalogError, NoMemory>
    ensures { IfOk result (λ e. refusal_told e ≡ Some (UnknownField kind «module».now field.now)) }
{
    Ok(CatalogError::UnknownField {
        kind,
        module: Text::of(alloc, module)?,
        field: Text::of(alloc, field)?,
    })
}

impl Draft {
    /// What a file's table says, or its first field that is not known.
    pub(crate) fn of(alloc: Global, root: Table) -> Result<Draft, CatalogError>
        ensures value { Takes result (fields (table_view root)) (spec.draft_of (table_view root)) }
        ensures orderly { IfOk result IsDraft }
    {
        let mut draft = Draft::empty(alloc);
        'tables: for (key, value) in root {
            draft.take(alloc, key.as_str(), value)?;
        }
        Ok(draft)
    }

    /// What is meant where a file says nothing.
    fn empty(alloc: Global) -> Draft
        ensures { result ≡ spec.empty_draft }
    {
        Draft {
            admins: Seq::of(Vec::new(alloc)),
            skins: Seq::of(Vec::new(alloc)),
            limit: 2000,
            store_version: 1,
            files: Seq::of(Vec::new(alloc)),
            modules: Seq::of(Vec::new(alloc)),
        }
    }

    /// Takes a table of the file, or tells the first field of it that is not known.
    fn take(&mut self, alloc: Global, key: &str, value: Value) -> Result<(), CatalogError>
        requires { IsDraft self.old }
        ensures told { Checks refusal_told result (unknown_among (top_fields (key.now, view value))) }
        ensures value { OnOk result (self.new ≡ table_taken self.old key.now (inside (view value))) }
        ensures orderly { OnOk result (IsDraft self.new) }
    {
        let Value::Table(table) = value else {
            return Err(unknown(alloc, FieldKind::OfFile, "", key)?);
        };
        match key {
            "files" => {
                self.files = files_of(alloc, table)?;
                Ok(())
            }
            "modules" => {
                self.modules = modules_of(alloc, table)?;
                Ok(())
            }
            "wiki" => self.take_wiki(alloc, table),
            _ => Err(unknown(alloc, FieldKind::OfFile, "", key)?),
        }
    }

    /// Takes what the table `wiki` says, or tells its first field that is not known.
    fn take_wiki(&mut self, alloc: Global, table: Table) -> Result<(), CatalogError>
        ensures told { Checks refusal_told result (unknown_among (fields_at InWiki (table_view table))) }
        ensures value { OnOk result (self.new ≡ spec.wiki_with self.old (table_view table)) }
    {
        'fields: for (key, value) in table {
            if !self.take_of_wiki(alloc, key.as_str(), value)? {
                return Err(unknown(alloc, FieldKind::OfFile, "", key.as_str())?);
            }
        }
        Ok(())
    }

    /// Takes the value of a field of the table `wiki`. False where it is not known.
    fn take_of_wiki(&mut self, alloc: Global, key: &str, value: Value) -> Result<bool, NoMemory>
        ensures known { IfOk result (λ known. known ≡ is_wiki_field key.now (view value)) }
        ensures value { OnOk result (self.new ≡ wiki_taken self.old key.now (view value)) }
    {
        match key {
            "admins" => Ok(put(&mut self.admins, texts_of(alloc, value)?)),
            "skins" => Ok(put(&mut self.skins, texts_of(alloc, value)?)),
            "limit" => Ok(put(&mut self.limit, number_of(&value, 200, 4000))),
            "storeVersion" => Ok(put(&mut self.store_version, number_of(&value, 0, 1_000_000))),
            _ => Ok(false),
        }
    }
}

/// The files of a table, or its first field that is not known.
fn files_of(alloc: Global, table: Table) -> Result<Seq<File>, CatalogError>
    ensures value { Takes result (fields_at InFiles (table_view table)) (spec.files_of (table_view table)) }
    ensures names { IfOk result (λ files. AreNames (map (λ f. f.name) files)) }
{
    let mut files = Vec::with_capacity(alloc, table.len())?;
    'files: for (name, value) in table {
        let Some(text) = text_of(value) else {
            return Err(unknown(alloc, FieldKind::OfFile, "", name.as_str())?);
        };
        files.push(File {
            name: Text::from_string(name),
            text,
        })?;
    }
    Ok(Seq::of(files))
}

/// The modules of a table, or the first field in it that is not known.
fn modules_of(alloc: Global, table: Table) -> Result<Seq<ModuleDraft>, CatalogError>
    ensures value { Takes result (modules_fields (table_view table)) (spec.modules_of (table_view table)) }
    ensures names { IfOk result (λ modules. AreNames (map (λ m. m.name) modules)) }
    ensures features { IfOk result (λ modules. IsTrue (list_all may_skip modules)) }
{
    let mut modules = Vec::with_capacity(alloc, table.len())?;
    'modules: for (name, value) in table {
        modules.push(ModuleDraft::of(alloc, name, value)?)?;
    }
    Ok(Seq::of(modules))
}

/// What a definitions file says of one module, as it is written.
#[derive(Drop)]
pub(crate) struct ModuleDraft {
    pub(crate) name: Text,
    pub(crate) scripts: Seq<Text>,
    pub(crate) dependencies: Seq<Text>,
    pub(crate) group: Text,
    pub(crate) source: Text,
    pub(crate) skip: Option<Text>,
}

impl ModuleDraft {
    /// What a module's table says, or its first field that is not known.
    fn of(alloc: Global, name: String, value: Value) -> Result<ModuleDraft, CatalogError>
        ensures { Takes result (module_fields (string_bytes name, view value)) (spec.module_draft (string_bytes name, view value)) }
    {
        let Value::Table(table) = value else {
            return Err(unknown(alloc, FieldKind::IsModule, name.as_str(), "")?);
        };
        let mut module = ModuleDraft::named(alloc, name)?;
        'fields: for (key, value) in table {
            if !module.take(alloc, key.as_str(), value)? {
                return Err(unknown(
                    alloc,
                    FieldKind::OfModule,
                    module.name.as_str(),
                    key.as_str(),
                )?);
            }
        }
        Ok(module)
    }

    /// A module of which nothing is said but its name.
    fn named(alloc: Global, name: String) -> Result<ModuleDraft, NoMemory>
        ensures { IfOk result (λ m. m ≡ spec.named_alone (string_bytes name)) }
    {
        Ok(ModuleDraft {
            name: Text::from_string(name),
            scripts: Seq::of(Vec::new(alloc)),
            dependencies: Seq::of(Vec::new(alloc)),
            group: Text::of(alloc, "")?,
            source: Text::of(alloc, "local")?,
            skip: None,
        })
    }

    /// Takes the value of a field. False where it is not known.
    fn take(&mut self, alloc: Global, key: &str, value: Value) -> Result<bool, NoMemory>
        ensures known { IfOk result (λ known. known ≡ is_module_field key.now (view value)) }
        ensures value { OnOk result (self.new ≡ module_taken self.old key.now (view value)) }
    {
        match key {
            "scripts" => Ok(put(&mut self.scripts, texts_of(alloc, value)?)),
            "dependencies" => Ok(put(&mut self.dependencies, texts_of(alloc, value)?)),
            "group" => Ok(put(&mut self.group, text_of(value))),
            "source" => Ok(put(&mut self.source, text_of(value))),
            "skip" => Ok(put_some(&mut self.skip, feature_of(value))),
            _ => Ok(false),
        }
    }
}

impl ModuleDraft {
    /// The module, whose name and dependencies are names.
    fn settled(self, alloc: Global) -> Result<ModuleDef, NoMemory>
        requires { IsTrue (has_names self) }
        ensures { IfOk result (λ m. m ≡ module_of self) }
    {
        let ModuleDraft {
            name,
            scripts,
            dependencies,
            group,
            source,
            skip,
        } = self;
        Ok(ModuleDef {
            name: Name::from_text(name),
            scripts,
            debug_scripts: Seq::of(Vec::new(alloc)),
            styles: Seq::of(Vec::new(alloc)),
            language_scripts: Seq::of(Vec::new(alloc)),
            skin_scripts: Seq::of(Vec::new(alloc)),
            skin_styles: Seq::of(Vec::new(alloc)),
            rtl: Seq::of(Vec::new(alloc)),
            dependencies: names_of(alloc, dependencies)?,
            messages: Seq::of(Vec::new(alloc)),
            group,
            source,
            skip,
        })
    }
}

/// The names that these texts are.
fn names_of(alloc: Global, texts: Seq<Text>) -> Result<Seq<Name>, NoMemory>
    requires { IsTrue (list_all is_name texts) }
    ensures { IfOk result (λ names. names ≡ texts) }
{
    let texts = texts.into_vec();
    let mut names = Vec::with_capacity(alloc, texts.len())?;
    'texts: for text in texts {
        names.push(Name::from_text(text))?;
    }
    Ok(Seq::of(names))
}

/// The modules that drafts with names define.
pub(crate) fn settled_modules(
    alloc: Global,
    drafts: Seq<ModuleDraft>,
) -> Result<Seq<ModuleDef>, NoMemory>
    requires { IsTrue (list_all has_names drafts) }
    ensures { IfOk result (λ modules. modules ≡ map module_of drafts) }
{
    let drafts = drafts.into_vec();
    let mut modules = Vec::with_capacity(alloc, drafts.len())?;
    'drafts: for draft in drafts {
        modules.push(draft.settled(alloc)?)?;
    }
    Ok(Seq::of(modules))
}

impl Named for ModuleDraft {
    ghost name_of = { λ m. m.name };

    fn name(&self) -> &str {
        self.name.as_str()
    }
}
