//! Trees of queries, which are in expressions and in sources.
use crate::expressions::{add_list, add_operand};
use crate::pieces::Piece;
use sql_reader_grammar::{
    CompoundArm, Expr, JoinCondition, Joined, NamedWindow, OrderingTerm, Query, ResultColumn,
    SelectCore, Source, Sources,
};
use sql_reader_syntax::Direction;
use std::alloc::AllocError;

/// Writes names, each in brackets.
pub fn write_names(names: &[String], out: &mut String) -> Result<(), AllocError> {
    for name in names {
        write!(out, " [{}]", name.as_str())?;
    }
    Ok(())
}

/// Writes an alias where there is one.
pub fn write_alias(alias: &Option<String>, out: &mut String) -> Result<(), AllocError> {
    match alias {
        Some(alias) => write!(out, " as [{}]", alias.as_str()),
        None => Ok(()),
    }
}

/// Writes how an expression of ORDER BY sorts.
pub fn write_direction(direction: Direction, out: &mut String) -> Result<(), AllocError> {
    out.push_str(if direction.descending { " falling" } else { "" })?;
    out.push_str(if direction.nulls_first {
        ""
    } else {
        " nulls-last"
    })
}

/// Adds expressions of ORDER BY.
pub fn add_terms<'a>(
    terms: &'a [OrderingTerm],
    then: &mut Vec<Piece<'a>>,
) -> Result<(), AllocError> {
    for term in terms {
        add_operand(&term.value, then)?;
        then.push(Piece::Direction(term.direction))?;
    }
    Ok(())
}

/// Writes the front of a result column.
pub fn write_column<'a>(
    column: &'a ResultColumn,
    out: &mut String,
    then: &mut Vec<Piece<'a>>,
) -> Result<(), AllocError> {
    match column {
        ResultColumn::All => out.push_str("*"),
        ResultColumn::AllOf(table) => write!(out, "[{}].*", table.as_str()),
        ResultColumn::Value(value, _) => {
            then.push(Piece::Expr(value))?;
            Ok(())
        }
    }
}

fn add_columns<'a>(
    columns: &'a [ResultColumn],
    then: &mut Vec<Piece<'a>>,
) -> Result<(), AllocError> {
    for (place, column) in columns.iter().enumerate() {
        then.push(Piece::Word(if place > 0 { ", " } else { "" }))?;
        then.push(Piece::Column(column))?;
    }
    Ok(())
}

/// Writes the front of a source.
pub fn write_source<'a>(
    source: &'a Source,
    out: &mut String,
    then: &mut Vec<Piece<'a>>,
) -> Result<(), AllocError> {
    match source {
        Source::Table(name, alias) => {
            write!(out, " [{}]", name.as_str())?;
            write_alias(alias, out)
        }
        Source::Derived(query, alias) => {
            add_inner(query, then)?;
            then.push(Piece::Alias(alias))?;
            Ok(())
        }
    }
}

fn add_joined<'a>(others: &'a [Joined], then: &mut Vec<Piece<'a>>) -> Result<(), AllocError> {
    for joined in others {
        then.push(Piece::Join(joined.join))?;
        then.push(Piece::Source(&joined.source))?;
        then.push(Piece::Condition(&joined.condition))?;
    }
    Ok(())
}

/// Writes the front of the condition of a join.
pub fn write_condition<'a>(
    condition: &'a JoinCondition,
    out: &mut String,
    then: &mut Vec<Piece<'a>>,
) -> Result<(), AllocError> {
    match condition {
        JoinCondition::Always => Ok(()),
        JoinCondition::On(condition) => {
            out.push_str(" on")?;
            add_operand(condition, then)
        }
        JoinCondition::Using(names) => {
            out.push_str(" using")?;
            write_names(names.as_slice(), out)
        }
    }
}

fn add_sources<'a>(
    sources: &'a Option<Sources>,
    then: &mut Vec<Piece<'a>>,
) -> Result<(), AllocError> {
    if let Some(sources) = sources {
        then.push(Piece::Word(" from"))?;
        then.push(Piece::Source(&sources.first))?;
        add_joined(sources.others.as_slice(), then)?;
    }
    Ok(())
}

/// Adds an expression that may be absent, after a word.
fn add_clause<'a>(
    word: &'a str,
    clause: &'a Option<Expr>,
    then: &mut Vec<Piece<'a>>,
) -> Result<(), AllocError> {
    if let Some(clause) = clause {
        then.push(Piece::Word(word))?;
        add_operand(clause, then)?;
    }
    Ok(())
}

fn add_groups<'a>(groups: &'a [Expr], then: &mut Vec<Piece<'a>>) -> Result<(), AllocError> {
    if !groups.is_empty() {
        then.push(Piece::Word(" group"))?;
        add_list(groups, then)?;
    }
    Ok(())
}

fn add_windows<'a>(
    windows: &'a [NamedWindow],
    then: &mut Vec<Piece<'a>>,
) -> Result<(), AllocError> {
    for defined in windows {
        then.push(Piece::Word(" window "))?;
        then.push(Piece::Name(&defined.name))?;
        then.push(Piece::Word(" "))?;
        then.push(Piece::Window(&defined.window))?;
    }
    Ok(())
}

/// Writes the front of a SELECT: its result columns, and then its clauses in the order in which they are written.
pub fn write_core<'a>(
    core: &'a SelectCore,
    out: &mut String,
    then: &mut Vec<Piece<'a>>,
) -> Result<(), AllocError> {
    out.push_str(if core.distinct { "distinct " } else { "" })?;
    add_columns(core.columns.as_slice(), then)?;
    add_sources(&core.sources, then)?;
    add_clause(" where", &core.condition, then)?;
    add_groups(core.groups.as_slice(), then)?;
    add_clause(" having", &core.having, then)?;
    add_windows(core.windows.as_slice(), then)
}

fn add_arranged<'a>(
    others: &'a [CompoundArm],
    then: &mut Vec<Piece<'a>>,
) -> Result<(), AllocError> {
    for arranged in others {
        then.push(Piece::Compound(arranged.operator))?;
        then.push(Piece::SelectCore(&arranged.core))?;
    }
    Ok(())
}

/// Adds the SELECTs of a query.
pub fn add_query<'a>(query: &'a Query, then: &mut Vec<Piece<'a>>) -> Result<(), AllocError> {
    then.push(Piece::SelectCore(&query.first))?;
    add_arranged(query.others.as_slice(), then)
}

/// Adds a query that is inside another, in braces.
pub fn add_inner<'a>(query: &'a Query, then: &mut Vec<Piece<'a>>) -> Result<(), AllocError> {
    then.push(Piece::Word(" {"))?;
    then.push(Piece::Query(query))?;
    then.push(Piece::Word("}"))?;
    Ok(())
}
