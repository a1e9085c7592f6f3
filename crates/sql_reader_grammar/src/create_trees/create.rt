//! CREATE TABLEs and CREATE INDEXes, as written.

use crate::statement_trees::Expr;

/// The type of a column. (CREATE TABLE, "Column data types")
#[derive(Debug, Drop)]
pub struct ColumnType {
    /// There may be none.
    pub words: Vec<String>,
    /// Whether numbers in parentheses stand behind the words. They aren't kept.
    pub is_sized: bool,
}

/// The order of a key's column. (CREATE TABLE)
#[derive(Clone, Copy, Debug, PartialEq, Eq)]
pub enum KeyOrder {
    /// ASC, or neither word.
    Ascending,
    /// DESC
    Descending,
}

/// What stands behind DEFAULT. (CREATE TABLE, "The DEFAULT clause")
#[derive(Debug, Drop)]
pub enum DefaultValue {
    Null,
    /// A number, behind a plus or none.
    Number(i64),
    /// A number behind a minus, without it.
    Negative(i64),
    Text(String),
    Blob(Vec<u8>),
    /// A parenthesis, whose expression isn't kept.
    Expression,
}

/// A constraint of a column, without its own name. (CREATE TABLE)
#[derive(Debug, Drop)]
pub enum ColumnConstraint {
    /// PRIMARY KEY, in which order, and whether AUTOINCREMENT stands behind it.
    PrimaryKey(KeyOrder, bool),
    NotNull,
    Unique,
    /// CHECK, whose expression isn't kept.
    Check,
    Default(DefaultValue),
    /// The name of the collation.
    Collate(String),
    /// REFERENCES. What it refers to isn't kept.
    References,
}

/// A column of a table, with its constraints as they are written. (CREATE TABLE)
#[derive(Debug, Drop)]
pub struct Column {
    pub name: String,
    pub ty: ColumnType,
    pub constraints: Vec<ColumnConstraint>,
}

/// A column of a key, as it is written. (CREATE INDEX, "Indexed column")
#[derive(Debug, Drop)]
pub struct IndexedColumn {
    pub name: String,
    /// The name of the collation, where one is written.
    pub collation: Option<String>,
    pub order: KeyOrder,
}

/// A constraint of a table, without its own name. (CREATE TABLE)
#[derive(Debug, Drop)]
pub enum TableConstraint {
    PrimaryKey(Vec<IndexedColumn>),
    Unique(Vec<IndexedColumn>),
    /// CHECK, whose expression isn't kept.
    Check,
    /// FOREIGN KEY, with the columns of this table. What they refer to isn't kept.
    ForeignKey(Vec<String>),
}

/// What stands behind the columns of a table. (CREATE TABLE, "Table options")
#[derive(Clone, Copy, Debug, PartialEq, Eq)]
pub enum TableOption {
    /// STRICT
    Strict,
    /// WITHOUT ROWID
    WithoutRowid,
}

/// A table that is created, with its constraints and options as they are written. (CREATE TABLE)
#[derive(Debug, Drop)]
pub struct CreateTable {
    pub name: String,
    pub columns: Vec<Column>,
    pub constraints: Vec<TableConstraint>,
    pub options: Vec<TableOption>,
}

/// An index that is created. (CREATE INDEX)
#[derive(Drop)]
pub struct CreateIndex {
    pub name: String,
    /// The name of the table whose index it is.
    pub table: String,
    pub is_unique: bool,
    pub columns: Vec<IndexedColumn>,
    /// What stands behind WHERE. (Partial Indexes)
    pub condition: Option<Expr>,
}
