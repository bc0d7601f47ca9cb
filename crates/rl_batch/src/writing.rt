//! The query of a batch.
ghost use Rattle.std.specs.Prelude.{◌≡◌, ◌<◌, ◌≤◌, IfOk, length, map};
ghost use Rattle.std.specs.List.{filter_map};
ghost use Rattle.rl_names.specs.Query.{query_text, size_of};
ghost use Rattle.rl_book_spec.specs.Batches.{base_in, names_in, query_for};
ghost use Rattle.rl_batch.specs.Split.{head_source, numbers_in, seen, version_at, AreOf};

use rl_book_spec::Batch;
use rl_names::{
    Group, Name, NoMemory, Query, Row, Seq, Text, Version, combined, pack, packed_order,
};
use rl_registry::Registry;
use std::alloc::Global;

/// What every query of a group begins with: only the group `user` carries the user.
pub fn base_in(alloc: Global, base: &Query, group: Group) -> Result<Query, NoMemory>
    ensures value { IfOk result (λ query. query ≡ base_in base.now group) }
    ensures size { IfOk result (λ query. size_of query ≤ size_of base.now) }
{
    let user = match group {
        Group::User => base.user.copy()?,
        _ => Text::of(alloc, "")?,
    };
    Ok(Query {
        modules: base.modules.copy()?,
        lang: base.lang.copy()?,
        skin: base.skin.copy()?,
        debug: base.debug,
        only: base.only,
        user,
        version: base.version.copy()?,
    })
}

fn names(alloc: Global, rows: &[(u32, &Row)]) -> Result<Vec<Name>, NoMemory>
    ensures { IfOk result (λ names. names.items ≡ names_in (map seen rows.now)) }
{
    let mut names = Vec::with_capacity(alloc, rows.len())?;
    'rows: for (_, row) in rows {
        names.push(row.name.copy()?)?;
    }
    Ok(names)
}

/// The version of the row of a name.
fn version(registry: &Registry, name: &Name) -> Option<Version>
    ensures { result ≡ version_at registry.now name.now }
{
    let row = registry.find(name.as_bytes())?;
    registry.row_at(row).version
}

/// The versions of these names, where they have one.
fn versions(alloc: Global, registry: &Registry, names: &[Name]) -> Result<Vec<Version>, NoMemory>
    ensures { IfOk result (λ versions. versions.items ≡ filter_map (version_at registry.now) names.now) }
{
    let mut versions = Vec::new(alloc);
    'names: for name in names {
        if let Some(version) = version(registry, name) {
            versions.push(version)?;
        }
    }
    Ok(versions)
}

/// The query that asks for these rows.
fn query(
    alloc: Global,
    registry: &Registry,
    base: Query,
    rows: &[(u32, &Row)],
) -> Result<Query, NoMemory>
    requires { AreOf registry.now (map seen rows.now) }
    ensures { IfOk result (λ query. query ≡ query_for base (map seen rows.now)) }
{
    let names = names(alloc, rows)?;
    let order = packed_order(alloc, &names)?;
    let versions = versions(alloc, registry, &order)?;
    let mut query = base;
    query.modules = pack(alloc, &names)?;
    query.version = Text::of(alloc, combined(&versions).as_str())?;
    Ok(query)
}

fn numbers(alloc: Global, rows: &[(u32, &Row)]) -> Result<Vec<u32>, NoMemory>
    ensures { IfOk result (λ numbers. numbers.items ≡ numbers_in (map seen rows.now)) }
{
    let mut numbers = Vec::with_capacity(alloc, rows.len())?;
    'rows: for (number, _) in rows {
        numbers.push(*number)?;
    }
    Ok(numbers)
}

/// The batch of these rows, the first of which tells the source.
pub fn written(
    alloc: Global,
    registry: &Registry,
    base: Query,
    rows: &[(u32, &Row)],
) -> Result<Batch, NoMemory>
    requires rows { AreOf registry.now (map seen rows.now) }
    requires some { 0 < length rows.now }
    ensures source { IfOk result (λ batch. batch.source ≡ head_source (map seen rows.now)) }
    ensures numbers { IfOk result (λ batch. batch.rows ≡ numbers_in (map seen rows.now)) }
    ensures query { IfOk result (λ batch. batch.query ≡ query_text (query_for base (map seen rows.now))) }
{
    let first = rows[0].1;
    Ok(Batch {
        source: first.source.copy()?,
        rows: Seq::of(numbers(alloc, rows)?),
        query: query(alloc, registry, base, rows)?.write()?,
    })
}
