//! What is still to be written of a tree. A piece that is taken up writes what is at its front, and leaves
//! the pieces inside it to be taken up next, so that nothing calls itself.
use crate::expressions::{write_expr, write_frame, write_window};
use crate::queries::{
    add_query, write_alias, write_column, write_condition, write_core, write_direction,
    write_source,
};
use sql_reader_grammar::{Expr, JoinCondition, Query, ResultColumn, SelectCore, Source, Window};
use sql_reader_syntax::{CompoundOperator, Direction, Frame, Join};
use std::alloc::{AllocError, Global};

/// A part of a tree that is still to be written, or a word between two.
#[derive(Clone, Copy)]
pub enum Piece<'a> {
    Word(&'a str),
    /// In brackets.
    Name(&'a String),
    Alias(&'a Option<String>),
    Expr(&'a Expr),
    Window(&'a Window),
    Direction(Direction),
    Frame(Frame),
    Column(&'a ResultColumn),
    Join(Join),
    Source(&'a Source),
    Condition(&'a JoinCondition),
    SelectCore(&'a SelectCore),
    Compound(CompoundOperator),
    Query(&'a Query),
}

/// Writes the front of a piece, and leaves what comes after it in `then`.
fn write_piece<'a>(
    piece: Piece<'a>,
    out: &mut String,
    then: &mut Vec<Piece<'a>>,
) -> Result<(), AllocError> {
    match piece {
        Piece::Word(word) => out.push_str(word),
        Piece::Name(name) => write!(out, "[{}]", name.as_str()),
        Piece::Alias(alias) => write_alias(alias, out),
        Piece::Expr(expr) => write_expr(expr, out, then),
        Piece::Window(window) => write_window(window, out, then),
        Piece::Direction(direction) => write_direction(direction, out),
        Piece::Frame(frame) => write_frame(frame, out),
        Piece::Column(column) => write_column(column, out, then),
        Piece::Join(join) => write!(out, " {join:?}"),
        Piece::Source(source) => write_source(source, out, then),
        Piece::Condition(condition) => write_condition(condition, out, then),
        Piece::SelectCore(core) => write_core(core, out, then),
        Piece::Compound(operator) => write!(out, " | {operator:?} "),
        Piece::Query(query) => add_query(query, then),
    }
}

/// Writes a piece, with all that is inside it.
pub fn write_whole(alloc: Global, first: Piece<'_>, out: &mut String) -> Result<(), AllocError> {
    // The piece that comes next is the last.
    let mut ahead = vec![in alloc; first]?;
    for _ in 0..u64::MAX {
        let Some(piece) = ahead.pop() else { break };
        let mut then = Vec::new(alloc);
        write_piece(piece, out, &mut then)?;
        then.reverse();
        ahead.extend(then)?;
    }
    Ok(())
}
