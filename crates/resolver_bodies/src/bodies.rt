//! Queries, and the sources that they read.

use expr::Expr;
use resolver_terms::Select;
use sql_reader_syntax::{CompoundOperator, Join};

/// A source of a FROM. (SELECT, "Determination of input data")
#[cycle(bodies)]
#[derive(Drop)]
pub enum Source {
    /// A table of the catalog by its place, from 0, with the number of its columns.
    Table(usize, usize),
    /// The table of the schema's rows.
    Schema,
    Derived(Box<Body>),
}

/// A source that is joined to those before it. (SELECT, "Determination of input data")
#[cycle(bodies)]
#[derive(Drop)]
pub struct Joined {
    pub join: Join,
    pub source: Source,
    /// What stands behind ON, or what USING says, over the rows of the sources up to its own.
    pub condition: Expr,
}

/// A query inside an expression. (SQL Language Expressions, "The IN and NOT IN Operators", "The EXISTS Operator")
#[cycle(bodies)]
#[derive(Drop)]
pub enum InnerQuery {
    /// Its values of one column, as IN takes them.
    Values(Box<Body>),
    /// Whether it has a row, as EXISTS asks.
    Exists(Box<Body>),
}

/// What a SELECT stands on. (SELECT, "Determination of input data")
#[cycle(bodies)]
#[derive(Drop)]
pub struct Tables {
    /// The sources of FROM, joined from the left.
    pub sources: Vec<Joined>,
    /// The queries inside the SELECT's expressions, whose answers its terms name by their places.
    pub inner: Vec<InnerQuery>,
}

/// A SELECT alone. (SELECT, "Simple Select Processing")
#[cycle(bodies)]
#[derive(Drop)]
pub struct Single {
    pub tables: Tables,
    pub select: Select,
}

/// What a query computes, without its ORDER BY and LIMIT. (SELECT, "Compound Select Statements")
#[cycle(bodies)]
#[derive(Drop)]
pub enum Body {
    Select(Single),
    /// The SELECTs before it, what joins it to them, and the last SELECT.
    Compound(Box<Body>, CompoundOperator, Single),
}
