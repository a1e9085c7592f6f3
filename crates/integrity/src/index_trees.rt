//! The indexes of an image, each alone: its tree, and its entries compared with one another.
ghost use Rattle.std.specs.Prelude.{◌≡◌, ◌≢◌, ◌⊎◌, true, All, Contains, IfErr, IfNone, IfOk, IfSome, MatchResult, OnOk, ◌<◌, length, map};
ghost use Rattle.std.specs.List.{AllZip};
ghost use Rattle.pager.specs.Calls.{IsReadFault, ReadsPages};
ghost use Rattle.pager.specs.PagerState.{IsPageNumber};
ghost use Rattle.btree.specs.image.Pages.{Pages, WhereSteady};
ghost use Rattle.schema.specs.indexes.IndexData.{IndexData};
ghost use Rattle.schema.specs.indexes.IndexView.{index_data};
ghost use Rattle.integrity_trees.specs.tree_walk.Used.{IsTreeTwice, MarksTree};
ghost use Rattle.integrity_trees.specs.index_walk.Checked.{IsIndexWalkFault};
ghost use Rattle.integrity_trees.specs.entry_prefixes.Prefixes.{HasPrefixes};
ghost use Rattle.integrity_trees.specs.entry_prefixes.Repeats.{IsUniqueIndex};
ghost use Rattle.integrity.specs.Indexes as spec;
ghost use Rattle.schema_keys.specs.Names.{IsSameName};
ghost use Rattle.schema_tables.specs.TableData.{TableData};
ghost use Rattle.integrity.specs.Indexes.{HasDistinct, IsBrokenIndexTree, IsCheckedAlone, IsCheckedIndexOf, IsCheckedIndexTree, IsIndexCheckFault, IsOwned, descends_of};
ghost use Rattle.integrity.specs.Used.{AreTreesTwice, MarksTrees, index_tree_of};

use integrity_trees::{EntryWidths, IndexTree, Prefixes, TreeCounts, check_counted};
use pager::{Pager, Source};
use schema::Index;
use schema_keys::is_same_name;
use schema_tables::{RowKey, Table};
use sql_reader_grammar::KeyOrder;
use std::alloc::{AllocError, Global};
use values::Fault;

/// What the check counts of an index.
#[derive(Debug, Drop)]
pub struct IndexCounts {
    /// What its tree has.
    pub tree: TreeCounts,
    /// How many different values its first columns have, for each number of columns from one on.
    pub distinct: Vec<u64>,
}

/// The places of an index's columns in its table.
pub(crate) fn places_of(alloc: Global, index: &Index) -> Result<Vec<usize>, AllocError>
    ensures { IfOk result (λ places. places.items ≡ spec.places_of (index_data index.now)) }
{
    index
        .columns()
        .iter()
        .map(|column| column.place())
        .collect(alloc)
}

/// Whether values descend.
fn is_descending(order: KeyOrder) -> bool
    ensures { result ≡ spec.is_descending order }
{
    matches!(order, KeyOrder::Descending)
}

/// Which of its columns descend.
pub(crate) fn directions_of(alloc: Global, index: &Index) -> Result<Vec<bool>, AllocError>
    ensures { IfOk result (λ descends. descends.items ≡ descends_of (index_data index.now)) }
{
    index
        .columns()
        .iter()
        .map(|column| is_descending(column.order()))
        .collect(alloc)
}

/// How many values an entry of an index of a table has: those of the columns, and behind them the rowid, or the rest of the
/// PRIMARY KEY.
fn width_of(table: &Table, index: &Index) -> usize
    ensures { result ≡ spec.width_of table.now (index_data index.now) }
{
    let columns = index.columns().len();
    match table.key() {
        RowKey::Rowid(_) => columns + 1,
        RowKey::Primary(_) => columns + index.others().len(),
    }
}

/// Checks the tree of an index of a table, counts the first values of its entries, and gives its pages and chains their marks.
fn check_tree<S: Source>(
    alloc: Global,
    pager: &mut Pager<S>,
    table: &Table,
    index: &Index,
    used: &mut [bool],
) -> Result<(TreeCounts, Prefixes), Fault>
    requires number { IsPageNumber pager.old.state (index_data index.now).root }
    requires long { pager.old.state.header.pages < length used.old }
    ensures checked { WhereSteady pager.old.state (λ pages. IfOk result (λ counted. IsCheckedIndexTree pages table.now (index_data index.now) counted.0)) }
    ensures prefixes { WhereSteady pager.old.state (λ pages. IfOk result (λ counted.
        HasPrefixes pages (index_data index.now).root (length (spec.places_of (index_data index.now))) counted.1)) }
    ensures marks { WhereSteady pager.old.state (λ pages. OnOk result
        (MarksTree pages (index_tree_of (index_data index.now)) used.old used.new)) }
    ensures fault { WhereSteady pager.old.state (λ pages. IfErr result (λ e. IsReadFault e
        ⊎ IsBrokenIndexTree pages table.now (index_data index.now) e ⊎ IsTreeTwice pages (index_tree_of (index_data index.now)) used.old e)) }
    ensures only { IfErr result IsIndexWalkFault }
    ensures reads { ReadsPages result pager.old.state pager.new.state }
{
    let descends = directions_of(alloc, index)?;
    let tree = IndexTree {
        root: index.root(),
        widths: EntryWidths::exactly(width_of(table, index)),
        descends: descends.as_slice(),
    };
    check_counted(alloc, pager, &tree, index.columns().len(), used)
}

/// How many different values the first columns of an index have, for each number of columns, where this is what its entries show.
/// The fault is `NotUnique` where it is unique and two of its entries agree in all of its columns, none of which is NULL; or one of
/// memory.
fn distinct_of(alloc: Global, index: &Index, prefixes: Prefixes) -> Result<Vec<u64>, Fault>
    ensures counts { (pages : Pages) → HasPrefixes pages (index_data index.now).root (length (spec.places_of (index_data index.now))) prefixes
        → (table : TableData) → MatchResult result
        (λ distinct. HasDistinct pages (index_data index.now).root (length (spec.places_of (index_data index.now))) distinct.items × ((index_data index.now).is_unique ≡ true
        → IsUniqueIndex pages (index_data index.now).root (length (spec.places_of (index_data index.now)))))
        (λ e. IsReadFault e ⊎ IsBrokenIndexTree pages table (index_data index.now) e) }
    ensures only { IfErr result IsIndexCheckFault }
    ensures read { IfErr result (λ e. e ≢ Fault.ReadFailed) }
{
    if index.is_unique() && prefixes.repeats {
        return Err(Fault::NotUnique(String::from_str(alloc, index.name())?));
    }
    Ok(prefixes.distinct)
}

/// Checks an index of a table alone: its tree, whose pages and chains get their marks, and its entries beside one another.
fn check_alone<S: Source>(
    alloc: Global,
    pager: &mut Pager<S>,
    table: &Table,
    index: &Index,
    used: &mut [bool],
) -> Result<IndexCounts, Fault>
    requires number { IsPageNumber pager.old.state (index_data index.now).root }
    requires long { pager.old.state.header.pages < length used.old }
    ensures checked { WhereSteady pager.old.state (λ pages. IfOk result (IsCheckedAlone pages table.now (index_data index.now))) }
    ensures marks { WhereSteady pager.old.state (λ pages. OnOk result
        (MarksTree pages (index_tree_of (index_data index.now)) used.old used.new)) }
    ensures fault { WhereSteady pager.old.state (λ pages. IfErr result (λ e. IsReadFault e
        ⊎ IsBrokenIndexTree pages table.now (index_data index.now) e ⊎ IsTreeTwice pages (index_tree_of (index_data index.now)) used.old e)) }
    ensures only { IfErr result IsIndexCheckFault }
    ensures reads { ReadsPages result pager.old.state pager.new.state }
{
    let (tree, prefixes) = check_tree(alloc, pager, table, index, used)?;
    let distinct = distinct_of(alloc, index, prefixes)?;
    Ok(IndexCounts { tree, distinct })
}

/// The table that has the name of an index's.
fn table_of<'t>(tables: &'t [Table], index: &Index) -> Option<&'t Table>
    ensures found { IfSome result (λ table. Contains tables.now table.now × IsSameName (index_data index.now).table table.now.name) }
    ensures none { IfNone result (All (λ table. ¬ IsSameName (index_data index.now).table table.name) tables.now) }
{
    for table in tables {
        if is_same_name(index.table(), table.name()) {
            return Some(table);
        }
    }
    None
}

/// Checks each index of these tables alone, and gives the pages and chains of their trees their marks.
pub(crate) fn check_indexes<S: Source>(
    alloc: Global,
    pager: &mut Pager<S>,
    tables: &[Table],
    indexes: &[Index],
    used: &mut [bool],
) -> Result<Vec<IndexCounts>, Fault>
    requires roots { All (λ index. IsPageNumber pager.old.state index.root) (map index_data indexes.now) }
    requires owned { All (IsOwned tables.now) (map index_data indexes.now) }
    requires long { pager.old.state.header.pages < length used.old }
    ensures checked { WhereSteady pager.old.state (λ pages. IfOk result (λ counted.
        AllZip (IsCheckedIndexOf pages tables.now) (map index_data indexes.now) counted.items)) }
    ensures marks { WhereSteady pager.old.state (λ pages. OnOk result
        (MarksTrees pages (map index_tree_of (map index_data indexes.now)) used.old used.new)) }
    ensures fault { WhereSteady pager.old.state (λ pages. IfErr result (λ e. IsReadFault e
        ⊎ ((table : TableData) × (index : IndexData) × Contains tables.now table × Contains (map index_data indexes.now) index
        × IsSameName index.table table.name × IsBrokenIndexTree pages table index e)
        ⊎ AreTreesTwice pages (map index_tree_of (map index_data indexes.now)) used.old e)) }
    ensures only { IfErr result IsIndexCheckFault }
    ensures reads { ReadsPages result pager.old.state pager.new.state }
{
    let mut counted = Vec::with_capacity(alloc, indexes.len())?;
    for index in indexes {
        // The schema's rows were read, so that each index has its table.
        let Some(table) = table_of(tables, index) else {
            return Err(Fault::SchemaRow);
        };
        let counts = check_alone(alloc, pager, table, index, used)?;
        counted.push(counts)?;
    }
    Ok(counted)
}
