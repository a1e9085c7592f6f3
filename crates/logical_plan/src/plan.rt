//! Plans.

use expr::Expr;
use resolver_terms::WindowCall;
use windows_groups::GroupTerms;

/// An end of the range that a search lets through of a column. (SELECT, "WHERE clause filtering"; The SQLite Query Optimizer Overview,
/// "WHERE Clause Analysis")
#[derive(Drop)]
pub struct Edge {
    /// What the column is compared with, over the values of the rows before the table.
    pub value: Expr,
    /// Whether the value itself lies outside.
    pub strict: bool,
}

/// A search of a table: it leaves out only rows on which the conditions that are tested of them aren't all true.
#[derive(Drop)]
pub struct Search {
    /// The columns of the key by which it goes, by their places in the table.
    pub key: Vec<usize>,
    /// What the first of these equal, over the values of the rows before the table.
    pub equal: Vec<Expr>,
    /// The range of the column of the key after these.
    pub lower: Option<Edge>,
    pub upper: Option<Edge>,
}

/// A table that is read behind the rows before it. (SELECT, "Determination of input data")
#[derive(Drop)]
pub struct Nested {
    /// The table's place in the catalog.
    pub table: usize,
    /// The places of the columns that are read.
    pub columns: Vec<usize>,
    /// The conditions that are tested of a row before the table beside one of the table.
    pub tests: Vec<Expr>,
    /// Whether a row before the table that meets none of its rows stands beside NULLs.
    pub padded: bool,
    /// The search by which the table is read, or none where it is read whole.
    pub search: Option<Search>,
}

/// A table that a RIGHT or FULL JOIN puts behind the rows before it: it is read once, and tells of each of its rows whether one
/// before it met it. (SELECT, "Determination of input data")
#[derive(Drop)]
pub struct OuterTable {
    /// The table and its conditions. It is padded where the join is a FULL JOIN.
    pub nested: Nested,
    /// The number of values of a row before the table: so many NULLs stand before a row of the table that none of these met.
    pub before: usize,
}

/// A plan of the rows that a SELECT computes its result columns on. (SELECT, "Determination of input data", "WHERE clause
/// filtering" and "Generation of the set of result rows")
#[derive(Drop)]
pub enum Plan {
    /// One row of no values.
    SingleRow,
    /// The rows on which conditions are true.
    Filter(Box<Plan>, Vec<Expr>),
    /// Rows with those of a table behind them.
    NestedLoop(Box<Plan>, Nested),
    /// Rows with those of a table behind them, and the rows of the table that none of them met.
    OuterJoin(Box<Plan>, OuterTable),
    /// A row for each group of rows: what they are gathered by, and then the aggregates.
    Aggregate(Box<Plan>, GroupTerms),
    /// The values of rows at these places, in their order, with the values of calls over windows after them. (Window Functions)
    Window(Box<Plan>, Vec<usize>, Vec<WindowCall>),
}
