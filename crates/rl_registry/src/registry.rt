//! A registry: rows that were read, and what is asked of them.
ghost use Rattle.std.specs.Prelude.{◌≡◌, IfOk};
ghost use Rattle.rl_registry.specs.Rows.{VersionsChangeNothing};

use crate::error::{RegistryError, ResolveError};
use rl_graph::{is_marked, places, ranks_fall, ranks_of, reach};
use rl_names::{Counted, Dep, MAX_ROWS, NoMemory, Row, Text, Version};
use rl_rows::{
    all_edges, dep_name, find, first_bad_index, first_wide, index_of, least_repeated, lesser,
    skips_of,
};
use std::alloc::Global;
use std::marker::Model;

/// The rows of a view, with the features that it has.
///
/// No two rows have one name. A row that a feature skips depends on nothing.
#[derive(Drop)]
pub struct Registry {
    alloc: Global,
    rows: Vec<Row>,
    features: Vec<Text>,

    /// The numbers of the rows, in the order of their names.
    order: Vec<u32>,

    /// Which rows are skipped.
    skips: Vec<bool>,

    /// The numbers of the rows that each row depends on.
    edges: Vec<Vec<u32>>,

    /// What `ranks_of` makes of the edges.
    ranks: Vec<u32>,
}

impl Model for Registry {
    ghost use Rattle.rl_view_spec.specs.Closure.{Registered};
    ghost use Rattle.rl_graph.specs.Graph.{edge_lists};
    ghost use Rattle.rl_registry.specs.Kept.{IsKept};

    ghost Value = { Registered };

    ghost view = { λ a. record { rows = a.rows.items; features = a.features.items } };

    ghost invariant = { λ a. IsKept (record { rows = a.rows.items; features = a.features.items }) a.order.items a.skips.items (edge_lists a.edges.items) };
}

/// Copies of texts.
fn copies(alloc: Global, texts: &[Text]) -> Result<Vec<Text>, NoMemory>
    ensures { IfOk result (λ copies. copies.items ≡ texts.now) }
{
    let mut copies = Vec::with_capacity(alloc, texts.len())?;
    for text in texts {
        copies.push(text.copy()?)?;
    }
    Ok(copies)
}

/// A new version of a row changes nothing that requests and progress look at.
pub fn version_laws()
    ensures { VersionsChangeNothing }
{}

impl Registry {
    ghost use Rattle.std.specs.Prelude.{◌≡◌, ◌<◌, ◌≤◌, ◌&&◌, ◌++◌, ◌∷◌, length, map, slice_get, [], Some, None, IfOk, IfSome};
    ghost use Rattle.std.specs.Prelude.{option_map, flat_map, All, IsUtf8};
    ghost use Rattle.std.specs.List.{filter_map};
    ghost use Rattle.rl_view_spec.specs.Closure.{leads_back};
    ghost use Rattle.rl_view_spec.specs.Numbers.{number_of, needed, needs_of};
    ghost use Rattle.rl_view_spec.specs.Progress.{name_at, is_skipped_at, HasDistinctNames};
    ghost use Rattle.rl_view_spec.specs.Rows.{AreRegistrable};
    ghost use Rattle.rl_registry.specs.Rows.{with_version};
    ghost use Rattle.rl_rows.specs.Edges.{HasDepsWithin};
    ghost use Rattle.rl_rows.specs.Index.{IsLeastRow};
    ghost use Rattle.rl_rows.specs.Least.{least_from};
    ghost use Rattle.rl_registry.specs.Answered.{Registers, Resolution};
    ghost use Rattle.rl_graph.specs.Graph.{edge_lists, marked, IsWithin};
    ghost use Rattle.rl_registry.specs.Kept.{AreClosures};
    ghost use Rattle.rl_registry.specs.Search.{unknown, unknown_of, unknown_dep};

    /// The registry of these rows, under these features.
    pub fn read(alloc: Global, rows: Vec<Row>, features: &[Text]) -> Result<Registry, RegistryError>
        requires { AreRegistrable rows.items }
        ensures { Registers result rows.items features.now }
    {
        if rows.len() as u64 > MAX_ROWS {
            return Err(RegistryError::TooMany {
                what: Counted::Rows,
                count: rows.len() as u64,
            });
        }
        if let Some(row) = first_wide(rows.as_slice()) {
            return Err(RegistryError::TooMany {
                what: Counted::Dependencies,
                count: row.deps.as_slice().len() as u64,
            });
        }
        let order = index_of(alloc, rows.as_slice())?;
        if let Some(name) = least_repeated(rows.as_slice(), order.as_slice()) {
            return Err(RegistryError::Duplicate {
                name: Text::of(alloc, name)?,
            });
        }
        if let Some((row, index)) = first_bad_index(rows.as_slice()) {
            return Err(RegistryError::BadIndex { row, index });
        }
        let skips = skips_of(alloc, rows.as_slice(), features)?;
        let edges = all_edges(alloc, rows.as_slice(), order.as_slice(), features)?;
        let ranks = ranks_of(alloc, edges.as_slice())?;
        let features = copies(alloc, features)?;
        Ok(Registry {
            alloc,
            rows,
            features,
            order,
            skips,
            edges,
            ranks,
        })
    }

    /// How many rows there are.
    pub fn count(&self) -> u32
        ensures value { result ≡ length self.now.rows }
        ensures few { length self.now.rows ≤ MAX_ROWS }
        ensures distinct { HasDistinctNames self.now }
        ensures within { HasDepsWithin self.now }
    {
        self.rows.len() as u32
    }

    /// The row of this number.
    pub fn row_at(&self, row: u32) -> &Row
        requires { row < length self.now.rows }
        ensures { slice_get self.now.rows row ≡ Some result.now }
    {
        &self.rows[row as usize]
    }

    /// Whether a feature skips the row.
    pub fn skipped(&self, row: u32) -> bool
        requires { row < length self.now.rows }
        ensures { result ≡ is_skipped_at self.now row }
    {
        self.skips[row as usize]
    }

    /// The number of the row of this name.
    pub fn find(&self, name: &[u8]) -> Option<u32>
        ensures value { result ≡ number_of self.now name.now }
        ensures within { IfSome result (λ row. row < length self.now.rows) }
    {
        find(self.rows.as_slice(), self.order.as_slice(), name)
    }

    /// The numbers of the rows that a row depends on itself, in the order of its dependencies. A dependency without
    /// a row is left out, and a skipped row depends on nothing.
    pub fn needs(&self, row: u32) -> &[u32]
        requires { row < length self.now.rows }
        ensures value { result.now ≡ needs_of self.now row }
        ensures within { All (λ next. next < length self.now.rows) result.now }
    {
        self.edges[row as usize].as_slice()
    }

    /// The numbers of the rows that each row depends on, as `needs` gives them.
    pub fn edges(&self) -> &[Vec<u32>]
        ensures value { edge_lists result.now ≡ map (needed self.now) self.now.rows }
        ensures few { length result.now ≤ MAX_ROWS }
        ensures within { IsWithin (edge_lists result.now) }
    {
        self.edges.as_slice()
    }

    /// Gives the row this version, also where it had none, as a private row.
    pub fn set_version(&mut self, row: u32, version: Version)
        requires { row < length self.old.rows }
        ensures { self.new ≡ with_version self.old row version }
    {
        self.rows[row as usize].version = Some(version);
    }

    /// The numbers of the names that have rows.
    fn starts(&self, names: &[Text]) -> Result<Vec<u32>, NoMemory>
        ensures { IfOk result (λ starts. starts.items ≡ filter_map (number_of self.now) names.now) }
    {
        let mut starts = Vec::new(self.alloc);
        for name in names {
            if let Some(row) = self.find(name.as_bytes()) {
                starts.push(row)?;
            }
        }
        Ok(starts)
    }

    /// A mark for each row, which says whether it is in the closures of the names.
    fn reached(&self, names: &[Text]) -> Result<Vec<bool>, NoMemory>
        ensures { IfOk result (λ marks. AreClosures self.now names.now marks.items) }
    {
        let starts = self.starts(names)?;
        reach(self.alloc, self.edges.as_slice(), starts.as_slice())
    }

    /// Whether a row leads back to itself.
    fn leads_back(&self, row: u32) -> Result<bool, NoMemory>
        requires { row < length self.now.rows }
        ensures { IfOk result (λ back. back ≡ leads_back self.now (name_at self.now row)) }
    {
        let marks = reach(self.alloc, self.edges.as_slice(), self.needs(row))?;
        Ok(is_marked(marks.as_slice(), row))
    }

    /// The name of a dependency that no row has.
    fn unknown_dep<'a>(&'a self, dep: &'a Dep) -> Option<&'a str>
        ensures { option_map (λ name. name.now) result ≡ unknown_dep self.now dep.now }
    {
        match dep_name(self.rows.as_slice(), dep) {
            None => None,
            Some(name) => match self.find(name.as_bytes()) {
                None => Some(name),
                Some(_) => None,
            },
        }
    }

    /// The least of the names that a row depends on and that no row has, and of the one found before.
    fn least_unknown_of<'a>(&'a self, row: u32, found: Option<&'a str>) -> Option<&'a str>
        requires { row < length self.now.rows }
        ensures { option_map (λ name. name.now) result ≡ least_from (option_map (λ name. name.now) found.entry) (unknown_of self.now row) }
    {
        let deps = self.row_at(row).deps.as_slice();
        if self.skipped(row) || self.needs(row).len() == deps.len() {
            return found;
        }
        let mut found = found;
        for dep in deps {
            if let Some(name) = self.unknown_dep(dep) {
                found = Some(lesser(name, found));
            }
        }
        found
    }

    /// The least of these names and of those that these rows depend on that no row has.
    fn least_unknown<'a>(&'a self, names: &'a [Text], rows: &[u32]) -> Option<&'a str>
        requires { All (λ row. row < length self.now.rows) rows.now }
        ensures { option_map (λ name. name.now) result ≡ least_from None (unknown self.now names.now ++ flat_map (unknown_of self.now) rows.now) }
    {
        let mut found: Option<&'a str> = None;
        for name in names {
            if self.find(name.as_bytes()).is_none() {
                found = Some(lesser(name.as_str(), found));
            }
        }
        for row in rows {
            found = self.least_unknown_of(*row, found);
        }
        found
    }

    /// The row of least name of the marked ones that lead back to themselves.
    fn least_cyclic(&self, marks: &[bool]) -> Result<Option<u32>, NoMemory>
        ensures { IfOk result (IsLeastRow self.now (λ row. marked marks.now row && leads_back self.now (name_at self.now row))) }
    {
        for row in self.order.as_slice() {
            if is_marked(marks, *row) && self.leads_back(*row)? {
                return Ok(Some(*row));
            }
        }
        Ok(None)
    }

    /// The numbers of the rows of the name's closure, in row order.
    pub fn resolve(&self, name: &[u8]) -> Result<Vec<u32>, ResolveError>
        requires { IsUtf8 name.now }
        ensures { Resolution result self.now (name.now ∷ []) }
    {
        match str::from_utf8(name) {
            Ok(name) => self.resolve_all(&[Text::of(self.alloc, name)?]),
            Err(_) => unreachable!(),
        }
    }

    /// The numbers of the rows of all closures of the names, in row order.
    pub fn resolve_all(&self, names: &[Text]) -> Result<Vec<u32>, ResolveError>
        ensures { Resolution result self.now names.now }
    {
        let marks = self.reached(names)?;
        let rows = places(self.alloc, marks.as_slice())?;
        if let Some(name) = self.least_unknown(names, rows.as_slice()) {
            let name = Text::of(self.alloc, name)?;
            return Err(ResolveError::Unknown { name });
        }
        if ranks_fall(
            self.edges.as_slice(),
            self.ranks.as_slice(),
            rows.as_slice(),
        ) {
            return Ok(rows);
        }
        match self.least_cyclic(marks.as_slice())? {
            Some(row) => {
                let name = Text::of(self.alloc, self.row_at(row).name.as_str())?;
                Err(ResolveError::Cycle { name })
            }
            None => Ok(rows),
        }
    }
}
