//! Catalogs as lines.
use schema::{Catalog, Index};
use schema_tables::{Column, Missing, RowKey, Table};
use sql_reader_grammar::KeyOrder;
use std::alloc::{AllocError, Global};
use values::{Ty, Value};

/// The word for a type.
const fn word_of(ty: Ty) -> &'static str {
    match ty {
        Ty::Int => "int",
        Ty::Text => "text",
        Ty::Blob => "blob",
        Ty::Null => "null",
    }
}

/// Writes what rows that are older than a column have in it, where that isn't NULL.
fn write_missing(alloc: Global, text: &mut String, missing: &Missing) -> Result<(), AllocError> {
    match missing {
        Missing::Fill(Value::Null) => Ok(()),
        Missing::Fill(Value::Int(number)) => {
            text.push_str(format!(in alloc; " or {number}")?.as_str())
        }
        Missing::Fill(Value::Text(content)) => {
            text.push_str(format!(in alloc; " or '{content}'")?.as_str())
        }
        Missing::Fill(Value::Blob(_)) => text.push_str(" or a blob"),
        Missing::Refused => text.push_str(" or refused"),
    }
}

/// Writes a column's name, its type, whether none of its values is NULL, and what older rows have in it.
fn write_column(alloc: Global, text: &mut String, column: &Column) -> Result<(), AllocError> {
    text.push_str("    column ")?;
    text.push_str(column.name())?;
    text.push(' ')?;
    text.push_str(word_of(column.ty()))?;
    text.push_str(if column.is_not_null() {
        " not null"
    } else {
        ""
    })?;
    write_missing(alloc, text, column.missing())?;
    text.push('\n')
}

/// Writes places of columns.
fn write_places(alloc: Global, text: &mut String, places: &[usize]) -> Result<(), AllocError> {
    for place in places {
        text.push_str(format!(in alloc; " {place}")?.as_str())?;
    }
    Ok(())
}

/// Writes the place of the column that is the rowid, or the places of those by which rows are found.
fn write_key(alloc: Global, text: &mut String, key: &RowKey) -> Result<(), AllocError> {
    match key {
        RowKey::Rowid(None) => Ok(()),
        RowKey::Rowid(Some(place)) => text.push_str(format!(in alloc; " rowid {place}")?.as_str()),
        RowKey::Primary(places) => {
            text.push_str(" key")?;
            write_places(alloc, text, places.as_slice())
        }
    }
}

/// Writes a table's name, its root, how its rows are found, and its columns.
fn write_table(alloc: Global, text: &mut String, table: &Table) -> Result<(), AllocError> {
    text.push_str(format!(in alloc; "table {} {}", table.name(), table.root())?.as_str())?;
    write_key(alloc, text, table.key())?;
    text.push('\n')?;
    for column in table.columns() {
        write_column(alloc, text, column)?;
    }
    Ok(())
}

/// Writes an index's name, its table's, its root, what it is, the places and orders of its columns, and the places of those that
/// its entries have after them.
fn write_index(alloc: Global, text: &mut String, index: &Index) -> Result<(), AllocError> {
    text.push_str(format!(in alloc;
        "index {} {} {}",
        index.name(),
        index.table(),
        index.root()
    )?.as_str())?;
    text.push_str(if index.is_unique() { " unique" } else { "" })?;
    text.push_str(if index.condition().is_some() {
        " partial"
    } else {
        ""
    })?;
    for column in index.columns() {
        text.push_str(format!(in alloc; " {}", column.place())?.as_str())?;
        text.push_str(match column.order() {
            KeyOrder::Ascending => "",
            KeyOrder::Descending => "-",
        })?;
    }
    text.push_str(if index.others().is_empty() {
        ""
    } else {
        " with"
    })?;
    write_places(alloc, text, index.others())?;
    text.push('\n')
}

/// The tables of a catalog and then its indexes, each on a line, and the columns of a table after it.
pub fn written_catalog(alloc: Global, catalog: &Catalog) -> Result<String, AllocError> {
    let mut text = String::new(alloc);
    for table in catalog.tables() {
        write_table(alloc, &mut text, table)?;
    }
    for index in catalog.indexes() {
        write_index(alloc, &mut text, index)?;
    }
    Ok(text)
}
