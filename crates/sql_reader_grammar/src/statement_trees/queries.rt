//! Queries and statements, as written.

use crate::statement_trees::expressions::{Expr, OrderingTerm, Window};
use sql_reader_syntax::{CompoundOperator, Join, ResultName};

/// What stands between two commas of a SELECT. (SELECT)
#[cycle(tree)]
#[derive(Drop)]
pub enum ResultColumn {
    /// `*`
    All,
    /// `t.*`
    AllOf(String),
    Value(Expr, ResultName),
}

/// A table, an item of WITH, or a query, with its alias. (SELECT, "Determination of input data")
#[cycle(tree)]
#[derive(Drop)]
pub enum Source {
    Table(String, Option<String>),
    Derived(Box<Query>, Option<String>),
}

/// The condition of a join. (SELECT, "Determination of input data")
#[cycle(tree)]
#[derive(Drop)]
pub enum JoinCondition {
    /// None is written.
    Always,
    On(Expr),
    /// The columns of USING.
    Using(Vec<String>),
}

/// A source that is joined to those before it.
#[cycle(tree)]
#[derive(Drop)]
pub struct Joined {
    pub join: Join,
    pub source: Source,
    pub condition: JoinCondition,
}

/// What stands behind FROM: sources, joined from the left. (SELECT, "Determination of input data")
#[cycle(tree)]
#[derive(Drop)]
pub struct Sources {
    pub first: Source,
    pub others: Vec<Joined>,
}

/// A window that is named behind WINDOW. (Window Functions)
#[cycle(tree)]
#[derive(Drop)]
pub struct NamedWindow {
    pub name: String,
    pub window: Window,
}

/// A SELECT alone. (SELECT, "Simple Select Processing")
#[cycle(tree)]
#[derive(Drop)]
pub struct SelectCore {
    pub distinct: bool,
    pub columns: Vec<ResultColumn>,
    pub sources: Option<Sources>,
    /// What stands behind WHERE.
    pub condition: Option<Expr>,
    /// What stands behind GROUP BY.
    pub groups: Vec<Expr>,
    pub having: Option<Expr>,
    pub windows: Vec<NamedWindow>,
}

/// A SELECT behind what joins it to those before it. (SELECT, "Compound Select Statements")
#[cycle(tree)]
#[derive(Drop)]
pub struct CompoundArm {
    pub operator: CompoundOperator,
    pub core: SelectCore,
}

/// SELECTs, joined from the left. (SELECT, "Compound Select Statements")
#[cycle(tree)]
#[derive(Drop)]
pub struct Query {
    pub first: SelectCore,
    pub others: Vec<CompoundArm>,
}

/// An item of WITH, with the names of its columns, or none. (SELECT, "Common Table Expressions")
#[derive(Drop)]
pub struct CommonTableExpr {
    pub name: String,
    pub columns: Vec<String>,
    pub query: Query,
}

/// A whole number with its sign. (SELECT, "The LIMIT clause")
#[derive(Clone, Copy, Debug, PartialEq, Eq)]
pub enum SignedNumber {
    Number(i64),
    /// A number behind a minus, without it.
    Negative(i64),
}

/// A statement. (SELECT; EXPLAIN QUERY PLAN)
#[derive(Drop)]
pub struct Statement {
    /// Whether EXPLAIN QUERY PLAN is written.
    pub explain: bool,
    pub items: Vec<CommonTableExpr>,
    pub query: Query,
    pub order: Vec<OrderingTerm>,
    pub limit: Option<SignedNumber>,
    pub offset: Option<SignedNumber>,
}
