//! The trees of an image's tables, and the rows of its schema.
ghost use Rattle.std.specs.Prelude.{◌≡◌, ◌⊎◌, All, Contains, IfErr, IfOk, OnOk, ◌<◌, length, map};
ghost use Rattle.std.specs.List.{AllZip};
ghost use Rattle.pager.specs.Calls.{IsReadFault, ReadsPages};
ghost use Rattle.pager.specs.PagerState.{IsPageNumber};
ghost use Rattle.btree.specs.image.Pages.{WhereSteady};
ghost use Rattle.schema_tables.specs.TableData.{TableData, schema_table};
ghost use Rattle.integrity.specs.Checked.{HasCause};
ghost use Rattle.integrity_trees.specs.tree_walk.Used.{IsTreeTwice, MarksTree};
ghost use Rattle.integrity.specs.Used.{AreTreesTwice, MarksTrees};
ghost use Rattle.integrity.specs.Tables.{IsAnyBroken, IsAnyChecked, any_tree};
ghost use Rattle.records_tables.specs.stored_rows.Stored.{HoldsRows};
ghost use Rattle.integrity_trees.specs.table_walk.Checked.{IsCheckedTree, tree_of};
ghost use Rattle.integrity_trees.specs.table_walk.Walked.{IsWalkFault};

use integrity_trees::{TreeCounts, all_rows, check_primary, check_table};
use pager::{Pager, Source};
use schema_tables::{RowKey, Table};
use std::alloc::Global;
use values::{Fault, Row};

/// What is read of the schema: the counts of its own tree, and its rows.
#[derive(Drop)]
pub(crate) struct SchemaRows {
    pub(crate) tree: TreeCounts,
    pub(crate) rows: Vec<Row>,
}

/// Checks the tree of a table of either kind, and gives its pages and chains their marks.
fn check_tree<S: Source>(
    alloc: Global,
    pager: &mut Pager<S>,
    table: &Table,
    used: &mut [bool],
) -> Result<TreeCounts, Fault>
    requires number { IsPageNumber pager.old.state table.now.root }
    requires long { pager.old.state.header.pages < length used.old }
    ensures checked { WhereSteady pager.old.state (λ pages. IfOk result (IsAnyChecked pages table.now)) }
    ensures marks { WhereSteady pager.old.state (λ pages. OnOk result (MarksTree pages (any_tree table.now) used.old used.new)) }
    ensures fault { WhereSteady pager.old.state (λ pages. IfErr result (λ e. IsReadFault e
        ⊎ IsAnyBroken pages table.now e ⊎ IsTreeTwice pages (any_tree table.now) used.old e)) }
    ensures only { IfErr result IsWalkFault }
    ensures reads { ReadsPages result pager.old.state pager.new.state }
{
    match table.key() {
        RowKey::Rowid(_) => check_table(alloc, pager, table, used),
        RowKey::Primary(_) => check_primary(alloc, pager, table, used),
    }
}

/// Checks the tree of each table, and gives their pages and chains their marks.
pub(crate) fn check_tables<S: Source>(
    alloc: Global,
    pager: &mut Pager<S>,
    tables: &[Table],
    used: &mut [bool],
) -> Result<Vec<TreeCounts>, Fault>
    requires roots { All (λ table. IsPageNumber pager.old.state table.root) tables.now }
    requires long { pager.old.state.header.pages < length used.old }
    ensures checked { WhereSteady pager.old.state (λ pages. IfOk result (λ trees. AllZip (IsAnyChecked pages) tables.now trees.items)) }
    ensures marks { WhereSteady pager.old.state (λ pages. OnOk result (MarksTrees pages (map any_tree tables.now) used.old used.new)) }
    ensures fault { WhereSteady pager.old.state (λ pages. IfErr result (λ e. IsReadFault e
        ⊎ ((table : TableData) × Contains tables.now table × IsAnyBroken pages table e)
        ⊎ AreTreesTwice pages (map any_tree tables.now) used.old e)) }
    ensures only { IfErr result IsWalkFault }
    ensures reads { ReadsPages result pager.old.state pager.new.state }
{
    let mut trees = Vec::with_capacity(alloc, tables.len())?;
    for table in tables {
        let counts = check_tree(alloc, pager, table, used)?;
        trees.push(counts)?;
    }
    Ok(trees)
}

/// Checks the schema's tree, counts what it has, gives its pages and chains their marks, and reads its rows.
pub(crate) fn read_schema<S: Source>(
    alloc: Global,
    pager: &mut Pager<S>,
    schema: &Table,
    used: &mut [bool],
) -> Result<SchemaRows, Fault>
    requires is { schema.now ≡ schema_table }
    requires root { IsPageNumber pager.old.state schema.now.root }
    requires long { pager.old.state.header.pages < length used.old }
    ensures rows { WhereSteady pager.old.state (λ pages. IfOk result (λ own. HoldsRows pages schema_table own.rows.items)) }
    ensures checked { WhereSteady pager.old.state (λ pages. IfOk result (λ own. IsCheckedTree pages schema_table own.tree)) }
    ensures marks { WhereSteady pager.old.state (λ pages. OnOk result (MarksTree pages (tree_of schema_table) used.old used.new)) }
    ensures fault { WhereSteady pager.old.state (λ pages. IfErr result (λ e. HasCause pages e ⊎ IsTreeTwice pages (tree_of schema_table) used.old e)) }
    ensures only { IfErr result IsWalkFault }
    ensures reads { ReadsPages result pager.old.state pager.new.state }
{
    let tree = check_table(alloc, pager, schema, used)?;
    let rows = all_rows(alloc, pager, schema)?;
    Ok(SchemaRows { tree, rows })
}
