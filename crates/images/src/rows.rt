//! The rows of a table, as lines.
use btree::{Cell, TreeKind};
use btree_cursor::Cursor;
use pager::{Pager, Source};
use records::RecordView;
use std::alloc::Global;
use values::{Fault, Sink, ValueRef, write_all};

/// Writes a row's number and the values of its record, as literals with commas between them.
pub fn write_row<O: Sink>(alloc: Global, cell: &Cell<'_>, out: &mut O) -> Result<(), Fault> {
    if cell.payload.overflow.is_some() {
        return Err(Fault::NotYet);
    }
    let Ok(record) = RecordView::read(alloc, cell.payload.local) else {
        return Err(Fault::NotYet);
    };
    let rowid = match cell.rowid {
        Some(rowid) => ValueRef::Int(rowid),
        None => ValueRef::Null,
    };
    rowid.write_literal(out)?;
    for index in 0..record.count() {
        write_all(out, b",")?;
        record.field(index).write_literal(out)?;
    }
    Ok(())
}

/// Writes the rows of the table with this root, a line each.
pub fn write_rows<S: Source, O: Sink>(
    alloc: Global,
    pager: &mut Pager<S>,
    root: u32,
    out: &mut O,
) -> Result<(), Fault> {
    let mut cursor = Cursor::first(alloc, pager, TreeKind::Table, root)?;
    while let Some(cell) = cursor.entry()? {
        write_row(alloc, &cell, out)?;
        write_all(out, b"\n")?;
        cursor.next(pager)?;
    }
    Ok(())
}
