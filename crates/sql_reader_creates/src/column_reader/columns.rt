//! Columns.
ghost use Rattle.std.specs.Prelude.{◌<◌, IfOk, length};
ghost use Rattle.sql_reader_creates.specs.column_reader.ColumnReading as spec;
ghost use Rattle.sql_reader_grammar.specs.phrases.Steps.{HasFound};
ghost use Rattle.sql_reader_grammar.specs.phrases.Texts.{lexemes_of};
ghost use Rattle.sql_reader_grammar.specs.create_trees.CreateView.{column_of};

use crate::column_reader::constraints::{begins_constraint, constraint};
use crate::column_reader::types::column_type;
use sql_reader_grammar::{Column, name};
use sql_reader_tokens::Token;
use std::alloc::Global;
use values::Fault;

/// The column at the front, and what is behind it.
pub fn column<'t>(
    alloc: Global,
    tokens: &'t [Token<'t>],
    end: usize,
) -> Result<(Column, &'t [Token<'t>]), Fault>
    ensures value { HasFound (λ r. (column_of r.0, lexemes_of r.1.now)) result (spec.column (lexemes_of tokens.now)) }
    ensures shorter { IfOk result (λ r. length r.1.now < length tokens.now) }
{
    let (name, rest) = name(alloc, tokens, end)?;
    let (ty, mut rest) = column_type(alloc, rest, end)?;
    let mut constraints = Vec::new(alloc);
    while begins_constraint(rest) {
        let (next, after) = constraint(alloc, rest, end)?;
        constraints.push(next)?;
        rest = after;
    }
    let column = Column {
        name,
        ty,
        constraints,
    };
    Ok((column, rest))
}
