//! What the check of an image finds, as lines.
use anyhow::Result;
use integrity::{Checked, check};
use pager::{Pager, Source};
use std::alloc::Global;
use values::{Sink, write_all};

/// Writes the counts of each table.
fn write_tables<O: Sink>(alloc: Global, checked: &Checked, out: &mut O) -> Result<()> {
    for (table, counts) in checked.tables().iter().zip(checked.trees()) {
        let (name, rows, pages, levels) = (table.name(), counts.cells, counts.pages, counts.levels);
        let line = format!(in alloc; "{name} {rows} {pages} {levels}\n")?;
        write_all(out, line.as_str().as_bytes())?;
    }
    Ok(())
}

/// Writes numbers, each after a blank, and ends the line.
fn write_numbers<O: Sink>(alloc: Global, numbers: &[u64], out: &mut O) -> Result<()> {
    for number in numbers {
        let word = format!(in alloc; " {number}")?;
        write_all(out, word.as_str().as_bytes())?;
    }
    write_all(out, b"\n")?;
    Ok(())
}

/// Writes the counts of each index.
fn write_indexes<O: Sink>(alloc: Global, checked: &Checked, out: &mut O) -> Result<()> {
    for (index, counts) in checked.indexes().iter().zip(checked.index_counts()) {
        let (name, tree) = (index.name(), counts.tree);
        let (entries, pages, levels) = (tree.cells, tree.pages, tree.levels);
        let begin = format!(in alloc; "{name} {entries} {pages} {levels}")?;
        write_all(out, begin.as_str().as_bytes())?;
        write_numbers(alloc, counts.distinct.as_slice(), out)?;
    }
    Ok(())
}

/// Writes what the check of an image finds of each table and then of each index.
pub fn write_counts<S: Source, O: Sink>(
    alloc: Global,
    pager: &mut Pager<S>,
    out: &mut O,
) -> Result<()> {
    let checked = check(alloc, pager)?;
    write_tables(alloc, &checked, out)?;
    write_indexes(alloc, &checked, out)
}
