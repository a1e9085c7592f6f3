//! The trees of labels.

/// What a source is called. (SELECT, "Determination of input data")
#[cycle(labels)]
#[derive(Drop)]
pub enum SourceLabel {
    /// A table, by its alias.
    Table(Option<String>),
    /// A mention of an item of WITH, by its place among them, with its alias.
    Item(usize, Option<String>),
    /// A query, by its alias.
    Derived(Box<QueryLabels>, Option<String>),
}

/// The sources of a SELECT, and the queries inside its expressions and its ORDER BY.
#[cycle(labels)]
#[derive(Drop)]
pub struct SelectLabels {
    pub sources: Vec<SourceLabel>,
    pub inner: Vec<QueryLabels>,
}

/// The SELECTs of a query, in their order. (SELECT, "Compound Select Statements")
#[cycle(labels)]
#[derive(Drop)]
pub struct QueryLabels {
    pub selects: Vec<SelectLabels>,
}

/// An item of WITH. (SELECT, "Common Table Expressions")
#[derive(Drop)]
pub struct ItemLabels {
    pub name: String,
    pub query: QueryLabels,
}

/// A statement.
#[derive(Drop)]
pub struct StatementLabels {
    pub items: Vec<ItemLabels>,
    pub query: QueryLabels,
}
