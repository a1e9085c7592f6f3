//! What a SELECT computes after its FROM.

use expr::Expr;
use sql_reader_syntax::{Direction, Exclusion, FrameUnit};

/// A term of ORDER BY. (SELECT, "The ORDER BY clause")
#[derive(Drop)]
pub struct SortTerm {
    pub term: Expr,
    pub direction: Direction,
}

/// A function of the values of many rows. (Built-in Aggregate Functions)
#[derive(Clone, Copy, Debug, PartialEq, Eq)]
pub enum AggregateFunction {
    Count,
    Sum,
    Min,
    Max,
}

/// An aggregate of the values of its argument that aren't NULL. (Built-in Aggregate Functions)
#[derive(Drop)]
pub struct Aggregate {
    pub function: AggregateFunction,
    pub argument: Expr,
}

/// GROUP BY and HAVING. (SELECT, "Generation of the set of result rows")
#[derive(Drop)]
pub struct Grouping {
    pub by: Vec<Expr>,
    /// In the order of their first mention.
    pub aggregates: Vec<Aggregate>,
    pub having: Expr,
}

/// Where a frame begins or ends. (Window Functions, "Frame Boundaries")
#[derive(Clone, Copy, Debug, PartialEq, Eq)]
pub enum Edge {
    UnboundedPreceding,
    Preceding(u64),
    CurrentRow,
    Following(u64),
    UnboundedFollowing,
}

/// The rows of a window that a function sees from one row. (Window Functions, "Frame Specifications")
#[derive(Clone, Copy, Debug, PartialEq, Eq)]
pub struct Frame {
    pub unit: FrameUnit,
    pub start: Edge,
    pub end: Edge,
    pub exclusion: Exclusion,
}

/// A window. (Window Functions)
#[derive(Drop)]
pub struct Window {
    /// What stands behind PARTITION BY.
    pub partition: Vec<Expr>,
    /// What stands behind ORDER BY.
    pub order: Vec<SortTerm>,
    pub frame: Frame,
}

/// A function over a window. (Window Functions, "Built-in Window Functions")
#[derive(Drop)]
pub enum WindowFunction {
    Aggregate(Aggregate),
    RowNumber,
    Rank,
    DenseRank,
    /// The number of buckets.
    NTile(u64),
    /// The value, how many rows before, and what stands where there is no such row.
    Lag(Expr, u64, Expr),
    /// The value, how many rows behind, and what stands where there is no such row.
    Lead(Expr, u64, Expr),
    FirstValue(Expr),
    LastValue(Expr),
    /// The value, and the row of the frame, from 1.
    NthValue(Expr, u64),
}

/// A call with OVER. (Window Functions)
#[derive(Drop)]
pub struct WindowCall {
    pub window: Window,
    pub function: WindowFunction,
}

/// A SELECT without its FROM. (SELECT)
#[derive(Drop)]
pub struct Select {
    /// WHERE, over the rows of FROM.
    pub condition: Expr,
    pub grouping: Option<Grouping>,
    /// In the order of their first mention, over the rows of FROM, or of groups where there are groups.
    pub windows: Vec<WindowCall>,
    /// Over the same rows, followed by the value of each window call.
    pub columns: Vec<Expr>,
    pub distinct: bool,
}

/// What ORDER BY puts rows in order by. (SELECT, "The ORDER BY clause")
#[derive(Drop)]
pub enum KeyTerm {
    /// A result column, by its place, from 0.
    Result(usize),
    /// An expression over the rows of the one SELECT.
    Term(Expr),
}

/// A key of ORDER BY, and how it sorts. (SELECT, "The ORDER BY clause")
#[derive(Drop)]
pub struct Key {
    pub by: KeyTerm,
    pub direction: Direction,
}
