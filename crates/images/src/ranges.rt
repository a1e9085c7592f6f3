//! The rows that searches for ranges give.
use crate::bounds::search_of;
use crate::named::{NamedTree, tree_named};
use anyhow::Result;
use btree::{Cell, payload};
use integrity::{Checked, check};
use pager::{Pager, Source};
use records_searches::{
    RangeValues, RowIndex, first_of_index, first_of_table, index_row, next_entry, table_row,
};
use records_tables::ValueReader;
use schema_tables::Table;
use std::alloc::Global;
use values::{Fault, Sink, ValueRef, write_all};

/// An image whose tables and indexes are searched.
#[derive(Drop)]
pub struct Image<S: Source> {
    pager: Pager<S>,
    checked: Checked,
}

impl<S: Source + Drop> Image<S> {
    /// An image, once it is checked.
    pub fn open(alloc: Global, mut pager: Pager<S>) -> Result<Image<S>, Fault> {
        let checked = check(alloc, &mut pager)?;
        Ok(Image { pager, checked })
    }
}

/// Writes the columns of the row in a cell, as literals with commas between them.
fn write_row<S: Source, O: Sink>(
    alloc: Global,
    pager: &mut Pager<S>,
    table: &Table,
    cell: &Cell<'_>,
    out: &mut O,
) -> Result<(), Fault> {
    let bytes = payload(alloc, pager, cell)?.ok_or(Fault::Changed)?;
    let Some(mut reader) = ValueReader::new(table, cell.rowid, bytes.as_slice()) else {
        return Err(Fault::Changed);
    };
    for column in 0..table.columns().len() {
        if column > 0 {
            write_all(out, b",")?;
        }
        let value = reader.value(column).ok_or(Fault::Changed)?;
        value.write_literal(out)?;
    }
    write_all(out, b"\n")
}

/// A number of pages, as it is written.
fn pages(count: u64) -> ValueRef<'static> {
    ValueRef::Int(i64::try_from(count).unwrap_or(i64::MAX))
}

/// Writes the rows that a search of a table gives; how many pages had been asked for when it was opened.
fn write_table<S: Source, O: Sink>(
    alloc: Global,
    pager: &mut Pager<S>,
    table: &Table,
    range: &RangeValues,
    out: &mut O,
) -> Result<u64, Fault> {
    let cursor = first_of_table(alloc, pager, table, range)?;
    let opened = pager.asked();
    let Some(mut cursor) = cursor else {
        return Ok(opened);
    };
    while let Some(cell) = table_row(alloc, pager, &cursor, table, range)? {
        write_row(alloc, pager, table, &cell, out)?;
        next_entry(&mut cursor, pager)?;
    }
    Ok(opened)
}

/// Writes the rows to which the entries lead that a search of an index gives; how many pages had been asked for when it was opened.
fn write_index<S: Source, O: Sink>(
    alloc: Global,
    pager: &mut Pager<S>,
    table: &Table,
    index: &RowIndex,
    range: &RangeValues,
    out: &mut O,
) -> Result<u64, Fault> {
    let cursor = first_of_index(alloc, pager, index, range)?;
    let opened = pager.asked();
    let Some(mut cursor) = cursor else {
        return Ok(opened);
    };
    let mut key = Vec::new(alloc);
    while let Some(found) = index_row(alloc, pager, &cursor, table, index, range, &mut key)? {
        write_row(alloc, pager, table, &found.cell(), out)?;
        next_entry(&mut cursor, pager)?;
    }
    Ok(opened)
}

/// Writes a line for each row that a search gives, in the order of its tree, and one with the pages that its opening and its rows asked
/// for.
fn write_search<S: Source, O: Sink>(
    alloc: Global,
    pager: &mut Pager<S>,
    tree: &NamedTree<'_>,
    range: &RangeValues,
    out: &mut O,
) -> Result<(), Fault> {
    let before = pager.asked();
    let opened = match tree {
        NamedTree::Own(table) => write_table(alloc, pager, table, range, out)?,
        NamedTree::Of(table, index) => write_index(alloc, pager, table, index, range, out)?,
    };
    pages(opened.saturating_sub(before)).write_literal(out)?;
    write_all(out, b" ")?;
    pages(pager.asked().saturating_sub(opened)).write_literal(out)?;
    write_all(out, b" pages\n")
}

/// Writes what the search for a range gives that a line names: a table or an index, and its bounds.
pub fn write_range<S: Source, O: Sink>(
    alloc: Global,
    image: &mut Image<S>,
    line: &str,
    out: &mut O,
) -> Result<()> {
    let search = search_of(alloc, line)?;
    let tree = tree_named(alloc, &image.checked, search.tree.as_str())?;
    write_search(alloc, &mut image.pager, &tree, &search.range, out)?;
    Ok(())
}
