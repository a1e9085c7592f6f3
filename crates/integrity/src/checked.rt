//! The check of a whole image.
ghost use Rattle.std.specs.Prelude.{◌≡◌, MatchResult, map};
ghost use Rattle.pager.specs.Calls.{ReadsPages};
ghost use Rattle.schema.specs.indexes.IndexView.{index_data};
ghost use Rattle.integrity.specs.CheckedView.{checked_data};
ghost use Rattle.integrity.specs.Checked.{HasCheckedImage, IsCheckFailure};

use crate::entries::check_entries;
use crate::index_trees::{IndexCounts, check_indexes};
use crate::keys::{KeyCounts, count_keys};
use crate::trees::{check_tables, read_schema};
use btree::check_rest;
use integrity_trees::TreeCounts;
use pager::{Pager, Source};
use schema::{Catalog, Index};
use schema_tables::Table;
use std::alloc::Global;
use values::Fault;

/// What the check of an image finds: its tables and indexes, and what the tree of each has, and that of the schema.
#[derive(Drop)]
pub struct Checked {
    schema_tree: TreeCounts,
    catalog: Catalog,
    trees: Vec<TreeCounts>,
    key_counts: Vec<KeyCounts>,
    index_counts: Vec<IndexCounts>,
}

impl Checked {
    /// What the tree of the schema's own rows has.
    pub fn schema_tree(&self) -> TreeCounts
        ensures { result ≡ (checked_data self.now).schema_tree }
    {
        self.schema_tree
    }

    /// The tables of the image, in the order of the schema's rows.
    pub fn tables(&self) -> &[Table]
        ensures { result.now ≡ (checked_data self.now).tables }
    {
        self.catalog.tables()
    }

    /// What the tree of each table has, in the same order.
    pub fn trees(&self) -> &[TreeCounts]
        ensures { result.now ≡ (checked_data self.now).trees }
    {
        self.trees.as_slice()
    }

    /// What the check counts of each table's key, in the same order.
    pub fn key_counts(&self) -> &[KeyCounts]
        ensures { result.now ≡ (checked_data self.now).key_counts }
    {
        self.key_counts.as_slice()
    }

    /// The indexes of the image, in the order of the schema's rows.
    pub fn indexes(&self) -> &[Index]
        ensures { map index_data result.now ≡ (checked_data self.now).indexes }
    {
        self.catalog.indexes()
    }

    /// What the check counts of each index, in the same order.
    pub fn index_counts(&self) -> &[IndexCounts]
        ensures { result.now ≡ (checked_data self.now).index_counts }
    {
        self.index_counts.as_slice()
    }
}

/// Checks an image: its schema, the tree and the rows of each of its tables, the tree and the entries of each of its indexes,
/// its freelist, and that each of its pages is used once. (Database File Format, sections 1.5, 1.6, 2.3 and 2.4; The Schema
/// Table)
///
/// # Errors
///
/// `BadPage`, `BadChain`, `BadOrder`, `BadDepth`, `BadRecord`, `FloatValue`, `BadText` and `ValueBreaksColumn` where a table
/// or an index has that condition; `PageUse` of a page that isn't used once, and `BadFreelist`; `SchemaRow`, `SchemaText` and
/// `UnsupportedObject` where a row of the schema has that condition; `IndexDiffers` of an index that hasn't just the entries
/// that its table's rows want, and `NotUnique` of a unique one in whose columns two of them agree; `ReadFailed` and `NoMemory`.
pub fn check<S: Source>(alloc: Global, pager: &mut Pager<S>) -> Result<Checked, Fault>
    ensures outcome { MatchResult result (λ c. HasCheckedImage pager.old.state (checked_data c)) (IsCheckFailure pager.old.state) }
    ensures reads { ReadsPages result pager.old.state pager.new.state }
{
    let pages = pager.header().pages;
    let mut marks = vec![in alloc; false; pages as usize + 1]?;
    let used = marks.as_mut_slice();
    let schema = Table::schema(alloc)?;
    let own = read_schema(alloc, pager, &schema, used)?;
    let catalog = Catalog::read(alloc, own.rows.as_slice(), pages)?;
    let tables = catalog.tables();
    let indexes = catalog.indexes();
    let trees = check_tables(alloc, pager, tables, used)?;
    let index_counts = check_indexes(alloc, pager, tables, indexes, used)?;
    check_rest(pager, used)?;
    let counted = index_counts.as_slice();
    check_entries(alloc, pager, tables, indexes, counted)?;
    let key_counts = count_keys(alloc, pager, tables)?;
    Ok(Checked {
        schema_tree: own.tree,
        catalog,
        trees,
        key_counts,
        index_counts,
    })
}
