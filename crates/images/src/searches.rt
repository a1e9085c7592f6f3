//! The entries of an index, as lines, and where searches of an index or of a table end.
use crate::keys::{SearchKey, Way};
use crate::rows::write_row;
use anyhow::{Result, anyhow};
use btree::Cell;
use btree_cursor::{Cursor, End, Found, IndexKey, find_entry, find_row};
use explain::rows_text;
use integrity_trees::{all_entries, entry_row};
use pager::{Pager, Source};
use std::alloc::Global;
use std::slice;
use values::{Fault, Row, Sink, Value, write_all};

/// A tree of an image that is searched, a table or an index, and which columns of the index descend.
#[derive(Drop)]
pub struct Tree<S: Source> {
    pub pager: Pager<S>,
    pub root: u32,
    pub is_index: bool,
    pub descends: Vec<bool>,
}

/// Writes the entries of the index with this root, a line each.
pub fn write_entries<S: Source, O: Sink>(
    alloc: Global,
    pager: &mut Pager<S>,
    root: u32,
    out: &mut O,
) -> Result<(), Fault> {
    let entries = all_entries(alloc, pager, root)?;
    rows_text(entries.as_slice(), out)
}

/// The values of the entry that a cursor is at, and none after the last.
fn values_at<S: Source>(
    alloc: Global,
    pager: &mut Pager<S>,
    cursor: &Cursor,
) -> Result<Row, Fault> {
    let Some(cell) = cursor.entry()? else {
        return Ok(Row::new(alloc));
    };
    let page = cursor.page().ok_or(Fault::Finished)?;
    entry_row(alloc, pager, &cell, page)
}

/// The values of the entry that is found by a key, and none where there is none.
fn values_found<S: Source>(
    alloc: Global,
    pager: &mut Pager<S>,
    found: Option<&Found>,
) -> Result<Row, Fault> {
    let Some(found) = found else {
        return Ok(Row::new(alloc));
    };
    entry_row(alloc, pager, &found.cell(), found.page())
}

/// How many pages were asked for since the count was this one.
fn asked_since<S: Source>(pager: &Pager<S>, before: u64) -> Value {
    Value::Int(i64::try_from(pager.asked().saturating_sub(before)).unwrap_or(i64::MAX))
}

/// Writes a line for a search of the index with this root: the values of the entry at which it ends or that is found, and how many
/// pages were asked for, those of chains apart.
fn write_search<'k, S: Source, O: Sink>(
    alloc: Global,
    pager: &mut Pager<S>,
    root: u32,
    descends: &'k [bool],
    sought: &'k SearchKey,
    out: &mut O,
) -> Result<(), Fault> {
    let equal = sought.values.as_slice();
    let behind = match sought.way {
        Way::At => false,
        Way::After => true,
        Way::Find => return write_found(alloc, pager, root, descends, equal, out),
    };
    let key = IndexKey {
        descends,
        equal,
        end: End {
            value: None,
            behind,
        },
    };
    let before = pager.asked();
    let cursor = Cursor::seek_entry(alloc, pager, root, &key)?;
    let asked = asked_since(pager, before);
    let mut line = values_at(alloc, pager, &cursor)?;
    line.push(asked)?;
    rows_text(slice::from_ref(&line), out)
}

/// Writes a line for the entry that is found by a key.
fn write_found<S: Source, O: Sink>(
    alloc: Global,
    pager: &mut Pager<S>,
    root: u32,
    descends: &[bool],
    key: &[Value],
    out: &mut O,
) -> Result<(), Fault> {
    let before = pager.asked();
    let found = find_entry(alloc, pager, root, descends, key)?;
    let asked = asked_since(pager, before);
    let mut line = values_found(alloc, pager, found.as_ref())?;
    line.push(asked)?;
    rows_text(slice::from_ref(&line), out)
}

/// Writes a row, if there is one, and how many pages were asked for.
fn write_row_line<O: Sink>(
    alloc: Global,
    cell: Option<Cell<'_>>,
    asked: &Value,
    out: &mut O,
) -> Result<(), Fault> {
    if let Some(cell) = cell {
        write_row(alloc, &cell, out)?;
        write_all(out, b",")?;
    }
    asked.as_ref().write_literal(out)?;
    write_all(out, b"\n")
}

/// Writes a line for a search of the table with this root: the row at which it ends or that is found, if any, and how many pages
/// were asked for.
fn write_row_search<S: Source, O: Sink>(
    alloc: Global,
    pager: &mut Pager<S>,
    root: u32,
    rowid: i64,
    way: Way,
    out: &mut O,
) -> Result<(), Fault> {
    let before = pager.asked();
    let behind = match way {
        Way::At => false,
        Way::After => true,
        Way::Find => {
            let found = find_row(pager, root, rowid)?;
            let asked = asked_since(pager, before);
            let cell = found.as_ref().map(|found| found.cell());
            return write_row_line(alloc, cell, &asked, out);
        }
    };
    let cursor = Cursor::seek_row(alloc, pager, root, rowid, behind)?;
    let asked = asked_since(pager, before);
    write_row_line(alloc, cursor.entry()?, &asked, out)
}

/// Writes a line for a search of a tree.
pub fn write_tree_search<S: Source, O: Sink>(
    alloc: Global,
    tree: &mut Tree<S>,
    sought: &SearchKey,
    out: &mut O,
) -> Result<()> {
    let (root, descends) = (tree.root, tree.descends.as_slice());
    if tree.is_index {
        write_search(alloc, &mut tree.pager, root, descends, sought, out)?;
        return Ok(());
    }
    match sought.values.first() {
        Some(Value::Int(rowid)) => {
            write_row_search(alloc, &mut tree.pager, root, *rowid, sought.way, out)?;
            Ok(())
        }
        _ => Err(anyhow!("no rowid")),
    }
}
