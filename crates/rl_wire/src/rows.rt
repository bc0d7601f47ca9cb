//! The second line of a startup text: the rows of the registry.
ghost use Rattle.std.specs.Prelude.{◌≡◌, ◌++◌, ◌||◌, [], OnOk, IfSome, IsTrue, IsUtf8, None, map, string_bytes, unwrap_or, is_some};
ghost use Rattle.std.specs.Prelude.{option_to_list};
ghost use Rattle.std.specs.List.{AllByRecursion};
ghost use Rattle.serde_json.specs.Data.{null, array, no_items};
ghost use Rattle.rl_names.specs.Name.{is_version};
ghost use Rattle.rl_wire.specs.Payload.{array_of};
ghost use Rattle.rl_wire.specs.Line.{arguments_text};
ghost use Rattle.rl_wire.specs.Startup.{dep_value, deps_field, group_field, source_field, skip_field, fields_of, row_value, rows_arguments, rows_text, IsDep};
ghost use Rattle.rl_wire.specs.Startup.{IsGroup, AreFields, IsRow};
ghost use Rattle.rl_wire.specs.Tokens.{value_tokens, values_tokens, field_before, Adds};

use crate::part::name_text;
use crate::values::{take_out, text_of};
use json::Writer;
use rl_names::{Dep, Group, NoMemory, Row, Text, Version};
use std::alloc::Global;

/// Writes a dependency: the number of its row, or its name.
fn write_dep(json: &mut Writer, dep: &Dep) -> Result<(), NoMemory>
    ensures adds { Adds result json.old json.new (value_tokens (dep_value dep.now)) }
    ensures dep { OnOk result (IsDep dep.now) }
{
    match dep {
        Dep::At(row) => json.u64(u64::from(*row))?,
        Dep::Named(name) => json.string(name.as_str())?,
    }
    Ok(())
}

/// Writes a list of dependencies.
fn write_list(json: &mut Writer, deps: &[Dep]) -> Result<(), NoMemory>
    ensures adds { Adds result json.old json.new (value_tokens (array_of (map dep_value deps.now))) }
    ensures deps { OnOk result (AllByRecursion IsDep deps.now) }
{
    json.begin_array()?;
    'deps: for dep in deps {
        write_dep(json, dep)?;
    }
    json.end_array()?;
    Ok(())
}

/// Writes dependencies, which are left out where there are none and nothing follows.
fn write_deps(json: &mut Writer, deps: &[Dep], follows: bool) -> Result<(), NoMemory>
    ensures adds { Adds result json.old json.new (values_tokens (field_before (array no_items) (deps_field deps.now) follows)) }
    ensures deps { OnOk result (AllByRecursion IsDep deps.now) }
{
    if deps.is_empty() && !follows {
        return Ok(());
    }
    write_list(json, deps)
}

/// Writes the number of a group. Where it has none, a blank stands for it if others follow.
fn write_group(json: &mut Writer, group: Group, follows: bool) -> Result<(), NoMemory>
    ensures adds { Adds result json.old json.new (values_tokens (field_before null (group_field group) follows)) }
    ensures group { OnOk result (IsGroup group) }
{
    match group {
        Group::Plain => write_blank(json, follows),
        Group::User => Ok(json.u64(0)?),
        Group::Private => Ok(json.u64(1)?),
        Group::Other(number) => Ok(json.u64(u64::from(number))?),
    }
}

/// Writes a source. Where it is the empty one, a blank stands for it if others follow.
fn write_source(json: &mut Writer, source: &str, follows: bool) -> Result<(), NoMemory>
    ensures { Adds result json.old json.new (values_tokens (field_before null (source_field source.now) follows)) }
{
    if source.is_empty() {
        return write_blank(json, follows);
    }
    json.string(source)?;
    Ok(())
}

/// Writes a blank, if others follow.
fn write_blank(json: &mut Writer, follows: bool) -> Result<(), NoMemory>
    ensures { Adds result json.old json.new (values_tokens (field_before null None follows)) }
{
    if follows {
        json.null()?;
    }
    Ok(())
}

/// Writes a skip, if there is one.
fn write_skip(json: &mut Writer, skip: &Option<Text>) -> Result<(), NoMemory>
    ensures adds { Adds result json.old json.new (values_tokens (option_to_list (skip_field skip.now))) }
    ensures skip { OnOk result (IfSome skip.now IsUtf8) }
{
    if let Some(skip) = skip {
        json.string(skip.as_str())?;
    }
    Ok(())
}

/// Whether a source or a skip is written.
fn has_source(row: &Row) -> bool
    ensures { result ≡ (is_some (source_field row.now.source) || is_some (skip_field row.now.skip)) }
{
    !row.source.is_empty() || row.skip.is_some()
}

/// Whether a group, a source or a skip is written.
fn has_group(row: &Row) -> bool
    ensures { result ≡ (is_some (group_field row.now.group) || (is_some (source_field row.now.source) || is_some (skip_field row.now.skip))) }
{
    match row.group {
        Group::Plain => has_source(row),
        Group::User | Group::Private | Group::Other(_) => true,
    }
}

/// Writes the fields of a row behind its version. Empty ones are left out where nothing follows.
fn write_fields(json: &mut Writer, row: &Row) -> Result<(), NoMemory>
    ensures adds { Adds result json.old json.new (values_tokens (fields_of row.now)) }
    ensures fields { OnOk result (AreFields row.now) }
{
    write_deps(json, row.deps.as_slice(), has_group(row))?;
    write_group(json, row.group, has_source(row))?;
    write_source(json, row.source.as_str(), row.skip.is_some())?;
    write_skip(json, &row.skip)
}

/// A version as it is written: the empty text where there is none.
fn version_text(version: &Option<Version>) -> &str
    ensures text { result.now ≡ unwrap_or version.now [] }
    ensures version { IfSome version.now (λ v. IsTrue (is_version v)) }
{
    match version {
        Some(version) => version.as_str(),
        None => "",
    }
}

/// Writes a row.
fn write_row(json: &mut Writer, row: &Row) -> Result<(), NoMemory>
    ensures adds { Adds result json.old json.new (value_tokens (row_value row.now)) }
    ensures row { OnOk result (IsRow row.now) }
{
    json.begin_array()?;
    json.string(name_text(&row.name))?;
    json.string(version_text(&row.version))?;
    write_fields(json, row)?;
    json.end_array()?;
    Ok(())
}

/// Writes a list of rows.
fn write_rows(json: &mut Writer, rows: &[Row]) -> Result<(), NoMemory>
    ensures adds { Adds result json.old json.new (value_tokens (array_of (map row_value rows.now))) }
    ensures rows { OnOk result (AllByRecursion IsRow rows.now) }
{
    json.begin_array()?;
    'rows: for row in rows {
        write_row(json, row)?;
    }
    json.end_array()?;
    Ok(())
}

/// Adds what the line of the rows is given.
fn add_arguments(alloc: Global, out: &mut String, rows: &[Row]) -> Result<(), NoMemory>
    ensures text { OnOk result (string_bytes out.new ≡ string_bytes out.old ++ arguments_text (rows_arguments rows.now)) }
    ensures rows { OnOk result (AllByRecursion IsRow rows.now) }
{
    let mut json = take_out(alloc, out);
    write_rows(&mut json, rows)?;
    *out = text_of(json);
    Ok(())
}

/// Adds the line of the rows, without its end.
pub(crate) fn add_rows(alloc: Global, out: &mut String, rows: &[Row]) -> Result<(), NoMemory>
    ensures text { OnOk result (string_bytes out.new ≡ string_bytes out.old ++ rows_text rows.now) }
    ensures rows { OnOk result (AllByRecursion IsRow rows.now) }
{
    out.push_str("mw.loader.register(")?;
    add_arguments(alloc, out, rows)?;
    out.push_str(");")?;
    Ok(())
}
