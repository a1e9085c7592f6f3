//! Statements whose names are resolved.

use crate::bodies::Body;
use resolver_terms::Key;

/// A query with its ORDER BY, LIMIT and OFFSET. (SELECT)
#[derive(Drop)]
pub struct Query {
    pub body: Body,
    pub order: Vec<Key>,
    pub limit: Option<i64>,
    /// 0 where none is written.
    pub offset: i64,
}

/// A statement whose names are resolved. (SELECT)
#[derive(Drop)]
pub struct NamedStatement {
    pub query: Query,
    /// The names of the result columns.
    pub names: Vec<String>,
    /// What else is written in it and has to be typed by itself.
    pub beside: Vec<Body>,
}
