//! The second engine.

use anyhow::{Context, Result, bail};
use explain::row_text;
use sqlite::types::ValueRef as Other;
use sqlite::{Connection, MemStore, Row};
use std::alloc::Global;
use std::str;
use values::{MemSink, ValueRef};

/// The kit's `sqlite`, over tables in memory.
#[derive(Drop)]
pub(crate) struct Second {
    connection: Connection<MemStore>,
    alloc: Global,
}

/// A value of the second engine. Neither the tables nor the statements have floats.
fn value_of(value: Other<'_>) -> Result<ValueRef<'_>> {
    match value {
        Other::Null => Ok(ValueRef::Null),
        Other::Int(number) => Ok(ValueRef::Int(number)),
        Other::Text(text) => Ok(ValueRef::Text(str::from_utf8(text)?)),
        Other::Blob(bytes) => Ok(ValueRef::Blob(bytes)),
        Other::Real(_) => bail!("a float"),
    }
}

/// A row of the second engine as a line.
fn line_of(alloc: Global, row: &Row) -> Result<String> {
    let mut values = Vec::new(alloc);
    for place in 0..row.column_count() {
        values.push(value_of(row.get_ref(place)?)?)?;
    }
    let mut line = MemSink::new(alloc);
    row_text(values.as_slice(), &mut line)?;
    Ok(String::from_str(alloc, str::from_utf8(line.as_slice())?)?)
}

impl Second {
    /// The engine with the tables that a text makes. It has no tables without rowids: there these are like the others.
    pub(crate) fn open(alloc: Global, tables: &str) -> Result<Second> {
        let tables = tables.replace(alloc, ", WITHOUT ROWID", "")?;
        let mut connection = Connection::open_in_memory(alloc)?;
        connection
            .execute_batch(tables.as_str())
            .context("the second engine takes no such tables")?;
        Ok(Second { connection, alloc })
    }

    /// The rows of a statement's answer as lines.
    pub(crate) fn answer(&mut self, text: &str) -> Result<Vec<String>> {
        let rows = self.connection.query_all(text, &[])?;
        let mut lines = Vec::new(self.alloc);
        for row in &rows {
            lines.push(line_of(self.alloc, row)?)?;
        }
        Ok(lines)
    }
}
