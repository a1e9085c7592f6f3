//! Trees of CREATE texts.
use crate::pieces::{Piece, write_whole};
use sql_reader_grammar::{Column, ColumnType, CreateIndex, CreateTable};
use std::alloc::{AllocError, Global};

fn write_type(ty: &ColumnType, out: &mut String) -> Result<(), AllocError> {
    for word in &ty.words {
        write!(out, " {}", word.as_str())?;
    }
    out.push_str(if ty.is_sized { " sized" } else { "" })
}

fn write_column(column: &Column, out: &mut String) -> Result<(), AllocError> {
    write!(out, " | {}:", column.name.as_str())?;
    write_type(&column.ty, out)?;
    for constraint in &column.constraints {
        write!(out, " {constraint:?}")?;
    }
    Ok(())
}

/// Writes a table's constraints, and its options.
fn write_ends(table: &CreateTable, out: &mut String) -> Result<(), AllocError> {
    for constraint in &table.constraints {
        write!(out, " / {constraint:?}")?;
    }
    for option in &table.options {
        write!(out, " / {option:?}")?;
    }
    Ok(())
}

/// Writes a table: its name, its columns, each with its type and its constraints, and its constraints and options.
pub fn write_create(table: &CreateTable, out: &mut String) -> Result<(), AllocError> {
    out.push_str(table.name.as_str())?;
    for column in &table.columns {
        write_column(column, out)?;
    }
    write_ends(table, out)
}

/// Writes an index: its name, its table, whether it is unique, its columns, and its condition.
pub fn write_index(alloc: Global, index: &CreateIndex, out: &mut String) -> Result<(), AllocError> {
    write!(out, "{} on {}", index.name.as_str(), index.table.as_str())?;
    out.push_str(if index.is_unique { ", unique:" } else { ":" })?;
    for column in &index.columns {
        write!(out, " {column:?}")?;
    }
    if let Some(condition) = &index.condition {
        out.push_str(" / where ")?;
        write_whole(alloc, Piece::Expr(condition), out)?;
    }
    Ok(())
}
