//! How an entry of an index leads to its row.
ghost use Rattle.std.specs.Prelude.{◌≡◌, ◌+◌, ◌<◌, ◌^◌, ◌++◌, IfOk, OnOk, length, map};
ghost use Rattle.records_tables.specs.primary_rows.Firsts as spec;
ghost use Rattle.records_tables.specs.primary_rows.Firsts.{firsts};
ghost use Rattle.records_searches.specs.Finders.{IsFinderBy};

use schema_tables::{RowKey, Table};
use std::alloc::{AllocError, Global};

/// How an entry of an index leads to the row of its table.
#[derive(Debug, Drop)]
pub enum RowFinder {
    /// It has the rowid at this place. (Database File Format, section 2.3 "Representation Of SQL Indices")
    Rowid(usize),
    /// It has the columns of the PRIMARY KEY at these places, in the order in which the table's records begin with them.
    /// (Database File Format, section 2.4 "Representation Of WITHOUT ROWID Tables")
    Key(Vec<usize>),
}

/// An index, as the rows of its table are searched by it.
#[derive(Debug, Drop)]
pub struct RowIndex {
    /// The page at the root of its tree.
    pub root: u32,
    /// Which of its columns descend; further ones ascend.
    pub descends: Vec<bool>,
    pub finder: RowFinder,
}

/// The first position of a number in a list, or the list's length where it doesn't.
fn place_of(numbers: &[usize], number: usize) -> usize
    ensures { result ≡ spec.place_of numbers.now number }
{
    for (at, other) in numbers.iter().enumerate() {
        if *other == number {
            return at;
        }
    }
    numbers.len()
}

/// Where an entry has a column: its own columns come first, and then the others.
fn place_in_entry(columns: &[usize], others: &[usize], column: usize) -> usize
    requires { length columns.now + length others.now < 2 ^ 64 }
    ensures { result ≡ spec.place_of (columns.now ++ others.now) column }
{
    let own = place_of(columns, column);
    if own < columns.len() {
        return own;
    }
    own + place_of(others, column)
}

/// Puts those numbers of a list that aren't among others yet after them, each once.
fn put_each(met: &mut Vec<usize>, numbers: &[usize]) -> Result<(), AllocError>
    ensures { OnOk result (met.new.items ≡ met.old.items ++ firsts met.old.items numbers.now) }
{
    for number in numbers {
        if !met.contains(number) {
            met.push(*number)?;
        }
    }
    Ok(())
}

/// Where an entry has each of these columns.
fn places_in_entry(
    alloc: Global,
    columns: &[usize],
    others: &[usize],
    sought: &[usize],
) -> Result<Vec<usize>, AllocError>
    requires { length columns.now + length others.now < 2 ^ 64 }
    ensures { IfOk result (λ places. places.items ≡ map (spec.place_of (columns.now ++ others.now)) sought.now) }
{
    let mut places = Vec::with_capacity(alloc, sought.len())?;
    for column in sought {
        places.push(place_in_entry(columns, others, *column))?;
    }
    Ok(places)
}

impl RowFinder {
    /// How an entry of an index of these columns of a table leads to its row. `others` are the columns that it has after them
    /// where the table has no rowids. (Database File Format, section 2.3 "Representation Of SQL Indices", and section 2.4
    /// "Suppression of redundant columns in WITHOUT ROWID secondary indexes")
    pub fn of(
        alloc: Global,
        table: &Table,
        columns: &[usize],
        others: &[usize],
    ) -> Result<RowFinder, AllocError>
        requires { length columns.now + length others.now < 2 ^ 64 }
        ensures { IfOk result (IsFinderBy table.now.key columns.now others.now) }
    {
        match table.key() {
            RowKey::Rowid(_) => Ok(RowFinder::Rowid(columns.len())),
            RowKey::Primary(key) => {
                let mut sought = Vec::new(alloc);
                put_each(&mut sought, key.as_slice())?;
                let places = places_in_entry(alloc, columns, others, sought.as_slice())?;
                Ok(RowFinder::Key(places))
            }
        }
    }
}
