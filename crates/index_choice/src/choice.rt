//! The paths of a source, and the least of them.
ghost use Rattle.std.specs.Prelude.{◌≡◌, ◌<◌, ◌++◌, length, if◌then◌else◌, IfOk, OnOk, map, option_map, option_to_list};
ghost use Rattle.std.specs.List.{list_all};
ghost use Rattle.index_choice.specs.Bounds.{conjunct_data};
ghost use Rattle.index_choice.specs.Sources.{key_data, source_data};
ghost use Rattle.index_choice.specs.Paths.{IsLeastPath, bound_count, equal_run, is_bounded, is_implied, is_taken, is_usable, least_of, least_path, next_bound, path_data, path_of, paths_of, search_data, search_of, served};

use crate::comparisons::Side;
use crate::conjuncts::{Conjunct, all_known, find_bound};
use crate::costs::{agreeing, cost_of, let_through};
use crate::sources::{Key, Source};
use std::alloc::{AllocError, Global};

/// A search of the key at a place of its source's. A bound is named by the place of its conjunct.
#[derive(Debug, Drop)]
pub struct Search {
    pub key: usize,
    pub equal: Vec<usize>,
    pub lower: Option<usize>,
    pub upper: Option<usize>,
}

/// A way to read a source, all of it or a search, with the pages and the rows that are expected.
#[derive(Debug, Drop)]
pub struct Path {
    pub search: Option<Search>,
    pub cost: u64,
    pub rows: u64,
}

/// Equality bounds of the longest run of columns from the first on.
fn run_of_equal(
    alloc: Global,
    known: &[bool],
    conjuncts: &[Conjunct],
    columns: &[usize],
) -> Result<Vec<usize>, AllocError>
    ensures { IfOk result (λ run. run.items ≡ equal_run known.now (map conjunct_data conjuncts.now) columns.now) }
{
    let mut run = Vec::new(alloc);
    for column in columns {
        match find_bound(known, conjuncts, Side::Equal, *column) {
            Some(at) => run.push(at)?,
            None => return Ok(run),
        }
    }
    Ok(run)
}

/// A bound of the column after the first ones, `at` of them.
fn bound_after(
    known: &[bool],
    conjuncts: &[Conjunct],
    side: Side,
    columns: &[usize],
    at: usize,
) -> Option<usize>
    ensures { result ≡ next_bound known.now (map conjunct_data conjuncts.now) side columns.now at }
{
    match columns.get(at) {
        Some(column) => find_bound(known, conjuncts, side, *column),
        None => None,
    }
}

/// The bounds that a search of a key takes.
fn search_key(
    alloc: Global,
    known: &[bool],
    conjuncts: &[Conjunct],
    at: usize,
    key: &Key,
) -> Result<Search, AllocError>
    ensures { IfOk result (λ found. search_data found ≡ search_of known.now (map conjunct_data conjuncts.now) at (key_data key.now)) }
{
    let equal = run_of_equal(alloc, known, conjuncts, &key.columns)?;
    let lower = bound_after(known, conjuncts, Side::Lower, &key.columns, equal.len());
    let upper = bound_after(known, conjuncts, Side::Upper, &key.columns, equal.len());
    Ok(Search {
        key: at,
        equal,
        lower,
        upper,
    })
}

fn count_bound(bound: Option<usize>) -> usize
    ensures { result ≡ bound_count bound }
{
    if bound.is_some() { 1 } else { 0 }
}

/// Whether the conjunct at a place names usable columns alone.
#[tactic(auto, using(crate::proofs::MapLemmas::get_of_map))]
fn usable_at(usable: &[bool], conjuncts: &[Conjunct], at: usize) -> bool
    ensures { result ≡ is_usable usable.now (map conjunct_data conjuncts.now) at }
{
    match conjuncts.get(at) {
        Some(conjunct) => all_known(usable, &conjunct.names),
        None => false,
    }
}

/// Whether one of the conjuncts that imply a condition can be used.
fn any_usable(usable: &[bool], conjuncts: &[Conjunct], implying: &[usize]) -> bool
    ensures { result ≡ is_implied usable.now (map conjunct_data conjuncts.now) implying.now }
{
    implying.iter().any(|at| usable_at(usable, conjuncts, *at))
}

/// Whether each condition of a key is implied, so that it has every row that the conjuncts keep.
fn all_implied(usable: &[bool], conjuncts: &[Conjunct], conditions: &[Vec<usize>]) -> bool
    ensures { result ≡ list_all (λ implying. is_implied usable.now (map conjunct_data conjuncts.now) implying.items) conditions.now }
{
    conditions
        .iter()
        .all(|implying| any_usable(usable, conjuncts, implying))
}

/// Whether a search has a bound.
fn has_bound(search: &Search) -> bool
    ensures { result ≡ is_bounded (search_data search.now) }
{
    !search.equal.is_empty() || search.lower.is_some() || search.upper.is_some()
}

/// A search with what it is expected to give and to cost.
fn path_by(key: &Key, found: Search) -> Path
    ensures { path_data result ≡ path_of (key_data key.now) (search_data found) }
{
    let ranges = count_bound(found.lower) + count_bound(found.upper);
    let rows = let_through(
        agreeing(key.entries, &key.distinct, found.equal.len()),
        ranges,
    );
    Path {
        search: Some(found),
        cost: cost_of(key.depth, key.fetch, rows),
        rows,
    }
}

/// The search of a key, where it serves.
#[tactic(auto, using(crate::proofs::MapLemmas::all_implied_of))]
fn path_of_key(
    alloc: Global,
    known: &[bool],
    usable: &[bool],
    conjuncts: &[Conjunct],
    at: usize,
    key: &Key,
) -> Result<Option<Path>, AllocError>
    ensures { IfOk result (λ path. option_map path_data path ≡ served known.now usable.now (map conjunct_data conjuncts.now) at (key_data key.now)) }
{
    let search = search_key(alloc, known, conjuncts, at, key)?;
    if all_implied(usable, conjuncts, &key.conditions) && has_bound(&search) {
        Ok(Some(path_by(key, search)))
    } else {
        Ok(None)
    }
}

/// Puts a path, where there is one, at the end of a list.
fn push_path(paths: &mut Vec<Path>, path: Option<Path>) -> Result<(), AllocError>
    ensures { OnOk result (map path_data paths.new.items ≡ map path_data paths.old.items ++ option_to_list (option_map path_data path)) }
{
    if let Some(path) = path {
        paths.push(path)?;
    }
    Ok(())
}

/// The paths of a source by their rank: the scan, and a search of each key that serves. `known` tells of each column of
/// FROM whether its source is placed earlier, `usable` the same with the source's own columns.
pub fn paths(
    alloc: Global,
    known: &[bool],
    usable: &[bool],
    conjuncts: &[Conjunct],
    source: &Source,
) -> Result<Vec<Path>, AllocError>
    ensures paths { IfOk result (λ paths. map path_data paths.items ≡ paths_of known.now usable.now (map conjunct_data conjuncts.now) (source_data source.now)) }
    ensures some { IfOk result (λ paths. 0 < length paths.items) }
{
    let mut paths = Vec::new(alloc);
    paths.push(Path {
        search: None,
        cost: source.pages,
        rows: source.rows,
    })?;
    for (at, key) in source.keys.iter().enumerate() {
        let path = path_of_key(alloc, known, usable, conjuncts, at, key)?;
        push_path(&mut paths, path)?;
    }
    Ok(paths)
}

fn precedes(path: &Path, other: &Path) -> bool
    ensures { result ≡ is_taken (path_data path.now) (path_data other.now) }
{
    path.cost < other.cost || (path.cost == other.cost && path.rows < other.rows)
}

/// The better of two, the first where neither is.
fn better<'a>(path: &'a Path, other: &'a Path) -> &'a Path
    ensures { path_data result.now ≡ (if is_taken (path_data other.entry.now) (path_data path.entry.now) then path_data other.entry.now else path_data path.entry.now) }
{
    if precedes(other, path) { other } else { path }
}

/// The least of a path and those after it.
fn best_of<'a>(first: &'a Path, rest: &'a [Path]) -> &'a Path
    ensures { path_data result.now ≡ least_of (path_data first.entry.now) (map path_data rest.entry.now) }
{
    let mut best = first;
    for path in rest {
        best = better(best, path);
    }
    best
}

/// The least path by cost, then by rows, then by rank.
pub fn best(paths: &[Path]) -> &Path
    requires { 0 < length paths.now }
    ensures least { IsLeastPath (map path_data paths.entry.now) (path_data result.now) }
    ensures is { path_data result.now ≡ least_path (map path_data paths.entry.now) }
{
    let Some((first, rest)) = paths.split_first() else {
        unreachable!()
    };
    best_of(first, rest)
}

/// A copy of a search.
fn copy_search(alloc: Global, search: &Search) -> Result<Search, AllocError>
    ensures { IfOk result (λ copy. search_data copy ≡ search_data search.now) }
{
    Ok(Search {
        key: search.key,
        equal: Vec::from_slice(alloc, &search.equal)?,
        lower: search.lower,
        upper: search.upper,
    })
}

/// A copy of a path.
fn copy_path(alloc: Global, path: &Path) -> Result<Path, AllocError>
    ensures { IfOk result (λ copy. path_data copy ≡ path_data path.now) }
{
    let search = match &path.search {
        Some(search) => Some(copy_search(alloc, search)?),
        None => None,
    };
    Ok(Path {
        search,
        cost: path.cost,
        rows: path.rows,
    })
}

/// The least of the paths of a source. `known` and `usable` are those of `paths`.
pub fn best_path(
    alloc: Global,
    known: &[bool],
    usable: &[bool],
    conjuncts: &[Conjunct],
    source: &Source,
) -> Result<Path, AllocError>
    ensures { IfOk result (λ path. path_data path ≡ least_path (paths_of known.now usable.now (map conjunct_data conjuncts.now) (source_data source.now))) }
{
    let paths = paths(alloc, known, usable, conjuncts, source)?;
    copy_path(alloc, best(&paths))
}
