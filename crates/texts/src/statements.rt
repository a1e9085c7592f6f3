//! Trees of whole statements.
use crate::pieces::{Piece, write_whole};
use crate::queries::{write_direction, write_names};
use sql_reader_grammar::{CommonTableExpr, OrderingTerm, ResultColumn, SignedNumber, Statement};
use sql_reader_syntax::ResultName;
use std::alloc::{AllocError, Global};

fn write_items(
    alloc: Global,
    items: &[CommonTableExpr],
    out: &mut String,
) -> Result<(), AllocError> {
    for item in items {
        write!(out, "with [{}]", item.name.as_str())?;
        write_names(item.columns.as_slice(), out)?;
        out.push_str(" {")?;
        write_whole(alloc, Piece::Query(&item.query), out)?;
        out.push_str("} ")?;
    }
    Ok(())
}

fn write_order(alloc: Global, order: &[OrderingTerm], out: &mut String) -> Result<(), AllocError> {
    out.push_str(if order.is_empty() { "" } else { " order" })?;
    for term in order {
        out.push(' ')?;
        write_whole(alloc, Piece::Expr(&term.value), out)?;
        write_direction(term.direction, out)?;
    }
    Ok(())
}

fn write_number(
    word: &str,
    number: &Option<SignedNumber>,
    out: &mut String,
) -> Result<(), AllocError> {
    match number {
        Some(SignedNumber::Number(number)) => write!(out, "{word} {number}"),
        Some(SignedNumber::Negative(number)) => write!(out, "{word} -{number}"),
        None => Ok(()),
    }
}

/// Writes a statement: whether it is explained, its WITH list, its query, its order and its limits.
pub fn write_statement(
    alloc: Global,
    statement: &Statement,
    out: &mut String,
) -> Result<(), AllocError> {
    out.push_str(if statement.explain { "explain " } else { "" })?;
    write_items(alloc, statement.items.as_slice(), out)?;
    write_whole(alloc, Piece::Query(&statement.query), out)?;
    write_order(alloc, statement.order.as_slice(), out)?;
    write_number(" limit", &statement.limit, out)?;
    write_number(" offset", &statement.offset, out)
}

fn write_heading(column: &ResultColumn, out: &mut String) -> Result<(), AllocError> {
    match column {
        ResultColumn::All => out.push_str("*"),
        ResultColumn::AllOf(table) => write!(out, "[{}].*", table.as_str()),
        ResultColumn::Value(_, ResultName::Alias(name)) => write!(out, "alias {:?}", name.as_str()),
        ResultColumn::Value(_, ResultName::SourceText(text)) => write!(
            out,
            "text {:?}",
            text.as_str()
        ),
    }
}

/// Writes what the result columns of a statement's first SELECT are called.
pub fn write_headings(statement: &Statement, out: &mut String) -> Result<(), AllocError> {
    for (place, column) in statement.query.first.columns.iter().enumerate() {
        out.push_str(if place > 0 { ", " } else { "" })?;
        write_heading(column, out)?;
    }
    Ok(())
}
