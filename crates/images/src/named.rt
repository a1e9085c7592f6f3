//! The tables and indexes of an image by their names, as they are searched for ranges.
use anyhow::{Result, anyhow};
use integrity::Checked;
use records_searches::{RowFinder, RowIndex};
use schema::Index;
use schema_tables::Table;
use sql_reader_grammar::KeyOrder;
use std::alloc::Global;

/// The most columns that an index is searched with.
const MOST_COLUMNS: usize = 1000;

/// What is searched: a table's own tree, or an index of a table.
#[derive(Drop)]
pub enum NamedTree<'c> {
    Own(&'c Table),
    Of(&'c Table, RowIndex),
}

/// An index of a table, as the rows of this are searched by it.
fn row_index(alloc: Global, table: &Table, index: &Index) -> Result<RowIndex> {
    let (mut columns, mut descends) = (Vec::new(alloc), Vec::new(alloc));
    for column in index.columns() {
        columns.push(column.place())?;
        descends.push(matches!(column.order(), KeyOrder::Descending))?;
    }
    let others = index.others();
    if columns.len() > MOST_COLUMNS || others.len() > MOST_COLUMNS {
        return Err(anyhow!("too many columns"));
    }
    let finder = RowFinder::of(alloc, table, columns.as_slice(), others)?;
    Ok(RowIndex {
        root: index.root(),
        descends,
        finder,
    })
}

/// The table of an image that has this name, if there is one.
fn table_named<'c>(checked: &'c Checked, name: &str) -> Option<&'c Table> {
    for table in checked.tables() {
        if table.name() == name {
            return Some(table);
        }
    }
    None
}

/// The table or the index of an image that has this name.
pub fn tree_named<'c>(alloc: Global, checked: &'c Checked, name: &str) -> Result<NamedTree<'c>> {
    if let Some(table) = table_named(checked, name) {
        return Ok(NamedTree::Own(table));
    }
    for index in checked.indexes() {
        if index.name() != name {
            continue;
        }
        if let Some(table) = table_named(checked, index.table()) {
            return Ok(NamedTree::Of(table, row_index(alloc, table, index)?));
        }
    }
    Err(anyhow!("no such tree"))
}
