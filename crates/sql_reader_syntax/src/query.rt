//! Joins, compound operators, sort orders, frames and the names of result columns, as written.

/// How a source is joined to those before it. A comma, CROSS JOIN and JOIN are inner. (SELECT, "Determination of input
/// data")
#[derive(Clone, Copy, Debug, PartialEq, Eq)]
pub enum Join {
    Inner,
    Left,
    Right,
    Full,
}

/// What stands between two SELECTs. (SELECT, "Compound Select Statements")
#[derive(Clone, Copy, Debug, PartialEq, Eq)]
pub enum CompoundOperator {
    Union,
    UnionAll,
    Intersect,
    Except,
}

/// How an expression of ORDER BY sorts. NULLs come first in ASC and last in DESC, unless their place is written. (SELECT,
/// "The ORDER BY clause")
#[derive(Clone, Copy, Debug, PartialEq, Eq)]
pub struct Direction {
    pub descending: bool,
    pub nulls_first: bool,
}

/// What a frame is measured in. (Window Functions, "Frame Specifications")
#[derive(Clone, Copy, Debug, PartialEq, Eq)]
pub enum FrameUnit {
    Rows,
    Range,
    Groups,
}

/// Where a frame begins or ends. (Window Functions, "Frame Boundaries")
#[derive(Clone, Copy, Debug, PartialEq, Eq)]
pub enum Edge {
    UnboundedPreceding,
    Preceding(i64),
    CurrentRow,
    Following(i64),
    UnboundedFollowing,
}

/// What a frame leaves out. (Window Functions, "The EXCLUDE Clause")
#[derive(Clone, Copy, Debug, PartialEq, Eq)]
pub enum Exclusion {
    NoOthers,
    CurrentRow,
    Group,
    Ties,
}

/// The frame of a window. Where one edge is written, the other is the current row. (Window Functions, "Frame
/// Specifications")
#[derive(Clone, Copy, Debug, PartialEq, Eq)]
pub struct Frame {
    pub unit: FrameUnit,
    pub start: Edge,
    pub end: Edge,
    pub exclusion: Exclusion,
}

/// What a result column is called. (SELECT, "Generation of the set of result rows")
#[derive(Debug, Drop)]
pub enum ResultName {
    /// What is written behind it, with AS or without.
    Alias(String),
    /// Nothing is written: the text of its expression, from the first token to the last.
    SourceText(String),
}
