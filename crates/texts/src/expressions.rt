//! Trees of expressions, as an operator or a function before its operands, in parentheses; and of windows.
use crate::pieces::Piece;
use crate::queries::{add_inner, add_terms};
use sql_reader_grammar::{Arm, CallSuffix, Expr, Over, Window};
use sql_reader_syntax::Frame;
use std::alloc::AllocError;

/// Writes the name of a column, after that of its table where it is written.
fn write_name(table: &Option<String>, name: &String, out: &mut String) -> Result<(), AllocError> {
    if let Some(table) = table {
        write!(out, "[{}].", table.as_str())?;
    }
    write!(out, "[{}]", name.as_str())
}

/// Writes the front of an expression.
pub fn write_expr<'a>(
    expr: &'a Expr,
    out: &mut String,
    then: &mut Vec<Piece<'a>>,
) -> Result<(), AllocError> {
    match expr {
        Expr::Null => out.push_str("null"),
        Expr::Number(number) => write!(out, "{number}"),
        Expr::Text(text) => write!(out, "{:?}", text.as_str()),
        Expr::Blob(bytes) => write!(out, "{bytes:?}"),
        Expr::Column(table, name) => write_name(table, name, out),
        Expr::CountRows(suffix) => {
            out.push_str("CountRows")?;
            add_suffix(suffix, then)
        }
        _ => {
            out.push('(')?;
            write_operator(expr, out)?;
            add_operands(expr, then)?;
            then.push(Piece::Word(")"))?;
            Ok(())
        }
    }
}

/// Writes the head of an operator, a call or a CASE.
fn write_operator(expr: &Expr, out: &mut String) -> Result<(), AllocError> {
    match expr {
        Expr::Prefix(operator, _) => write!(out, "{operator:?}"),
        Expr::Postfix(operator, _) => write!(out, "{operator:?}"),
        Expr::Binary(operator, _, _) => write!(out, "{operator:?}"),
        Expr::Between(true, _, _, _) => out.push_str("NotBetween"),
        Expr::Between(false, _, _, _) => out.push_str("Between"),
        Expr::In(true, _, _) | Expr::InQuery(true, _, _) => out.push_str("NotIn"),
        Expr::In(false, _, _) | Expr::InQuery(false, _, _) => out.push_str("In"),
        Expr::Exists(_) => out.push_str("Exists"),
        Expr::Call(function, _, _) => write!(out, "{function:?}"),
        Expr::Case(_, _, _) => out.push_str("Case"),
        _ => Ok(()),
    }
}

/// Adds the operands of an operator, a call or a CASE.
fn add_operands<'a>(expr: &'a Expr, then: &mut Vec<Piece<'a>>) -> Result<(), AllocError> {
    match expr {
        Expr::Prefix(_, operand) | Expr::Postfix(_, operand) => add_operand(operand, then),
        Expr::Binary(_, left, right) => {
            add_operand(left, then)?;
            add_operand(right, then)
        }
        Expr::Between(_, value, lower, upper) => {
            add_operand(value, then)?;
            add_operand(lower, then)?;
            add_operand(upper, then)
        }
        Expr::In(_, value, members) => {
            add_operand(value, then)?;
            add_list(members.as_slice(), then)
        }
        Expr::InQuery(_, value, query) => {
            add_operand(value, then)?;
            add_inner(query, then)
        }
        Expr::Exists(query) => add_inner(query, then),
        Expr::Call(_, arguments, suffix) => {
            add_list(arguments.as_slice(), then)?;
            add_suffix(suffix, then)
        }
        Expr::Case(operand, arms, otherwise) => {
            add_part("", operand, then)?;
            add_arms(arms.as_slice(), then)?;
            add_part(" else", otherwise, then)
        }
        _ => Ok(()),
    }
}

/// Adds an expression after a blank.
pub fn add_operand<'a>(operand: &'a Expr, then: &mut Vec<Piece<'a>>) -> Result<(), AllocError> {
    then.push(Piece::Word(" "))?;
    then.push(Piece::Expr(operand))?;
    Ok(())
}

/// Adds expressions, each after a blank.
pub fn add_list<'a>(operands: &'a [Expr], then: &mut Vec<Piece<'a>>) -> Result<(), AllocError> {
    for operand in operands {
        add_operand(operand, then)?;
    }
    Ok(())
}

/// Adds an expression that may be absent, after a word.
fn add_part<'a>(
    word: &'a str,
    part: &'a Option<Box<Expr>>,
    then: &mut Vec<Piece<'a>>,
) -> Result<(), AllocError> {
    if let Some(part) = part {
        then.push(Piece::Word(word))?;
        add_operand(part, then)?;
    }
    Ok(())
}

fn add_arms<'a>(arms: &'a [Arm], then: &mut Vec<Piece<'a>>) -> Result<(), AllocError> {
    for arm in arms {
        then.push(Piece::Word(" when"))?;
        add_operand(&arm.when, then)?;
        then.push(Piece::Word(" then"))?;
        add_operand(&arm.then, then)?;
    }
    Ok(())
}

/// Adds the FILTER and the OVER of a call.
fn add_suffix<'a>(suffix: &'a CallSuffix, then: &mut Vec<Piece<'a>>) -> Result<(), AllocError> {
    add_part(" filter", &suffix.filter, then)?;
    match &suffix.over {
        Over::Absent => {}
        Over::Name(name) => {
            then.push(Piece::Word(" over "))?;
            then.push(Piece::Name(name))?;
        }
        Over::Window(window) => {
            then.push(Piece::Word(" over "))?;
            then.push(Piece::Window(window))?;
        }
    }
    Ok(())
}

/// Writes the front of a window, in parentheses.
pub fn write_window<'a>(
    window: &'a Window,
    out: &mut String,
    then: &mut Vec<Piece<'a>>,
) -> Result<(), AllocError> {
    out.push_str("(partition")?;
    add_list(window.partition.as_slice(), then)?;
    then.push(Piece::Word(" order"))?;
    add_terms(window.order.as_slice(), then)?;
    if let Some(frame) = window.frame {
        then.push(Piece::Frame(frame))?;
    }
    then.push(Piece::Word(")"))?;
    Ok(())
}

/// Writes a frame.
pub fn write_frame(frame: Frame, out: &mut String) -> Result<(), AllocError> {
    write!(
        out,
        " {:?} {:?} {:?} {:?}",
        frame.unit, frame.start, frame.end, frame.exclusion
    )
}
