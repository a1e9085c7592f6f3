//! Expressions, as written.

use crate::statement_trees::queries::Query;
use sql_reader_syntax::{
    BinaryOperator, Direction, Frame, Function, PostfixOperator, PrefixOperator,
};

/// An expression. Parentheses are gone. (SQL Language Expressions)
#[cycle(tree)]
#[derive(Drop)]
pub enum Expr {
    Null,
    Number(i64),
    Text(String),
    Blob(Vec<u8>),
    /// A column, behind the name of its table where that is written.
    Column(Option<String>, String),
    Prefix(PrefixOperator, Box<Expr>),
    Binary(BinaryOperator, Box<Expr>, Box<Expr>),
    Postfix(PostfixOperator, Box<Expr>),
    /// Whether NOT is written, the value, the lower bound, the upper bound.
    Between(bool, Box<Expr>, Box<Expr>, Box<Expr>),
    /// Whether NOT is written, the value, the members.
    In(bool, Box<Expr>, Vec<Expr>),
    /// Whether NOT is written, the value, the query.
    InQuery(bool, Box<Expr>, Box<Query>),
    Exists(Box<Query>),
    /// `count(*)`
    CountRows(CallSuffix),
    Call(Function, Vec<Expr>, CallSuffix),
    /// The operand if there is one, the arms, and what stands behind ELSE.
    Case(Option<Box<Expr>>, Vec<Arm>, Option<Box<Expr>>),
}

/// WHEN and THEN of a CASE.
#[cycle(tree)]
#[derive(Drop)]
pub struct Arm {
    pub when: Expr,
    pub then: Expr,
}

/// What stands behind a call. (Built-in Aggregate Functions; Window Functions)
#[cycle(tree)]
#[derive(Drop)]
pub struct CallSuffix {
    /// The condition of FILTER.
    pub filter: Option<Box<Expr>>,
    pub over: Over,
}

/// What stands behind OVER. (Window Functions)
#[cycle(tree)]
#[derive(Drop)]
pub enum Over {
    /// No OVER is written.
    Absent,
    Name(String),
    Window(Box<Window>),
}

/// A window. (Window Functions)
#[cycle(tree)]
#[derive(Drop)]
pub struct Window {
    /// What stands behind PARTITION BY.
    pub partition: Vec<Expr>,
    /// What stands behind ORDER BY.
    pub order: Vec<OrderingTerm>,
    pub frame: Option<Frame>,
}

/// An expression of ORDER BY, and how it sorts. (SELECT, "The ORDER BY clause")
#[cycle(tree)]
#[derive(Drop)]
pub struct OrderingTerm {
    pub value: Expr,
    pub direction: Direction,
}
