//! The grammar of statements, whole: which tokens spell which statement, as definitions, and what holds of
//! them; the steps over tokens that all readers share; and the trees that they make. It promises that tokens
//! spell at most one statement; that a reader on lists finds exactly what is spelt within a limit of levels;
//! that each step finds exactly what is at the front of the tokens; and that two queries reported to be
//! written alike are one tree. The readers are in other crates, and each of them does what the reader on
//! lists does.
//!
//! The definitions, in the order in which a reader meets them: `Statements`, `Queries` (one family: queries
//! are in expressions, and expressions in queries), `Clauses` (phrases without expressions), `Operators`.
//! `Fronts` and `Reading` are a reader on lists, which the proofs go by; `Read` defines its results.
//!
//! The modules, in the order in which data passes them: `phrases` (what the readers of SQL texts share: steps
//! over tokens, lists and limits), `laws`, `statement_trees` (the trees of whole statements, as written),
//! `create_trees` (the trees of CREATE texts, as written) and `same_queries` (whether two queries are written
//! alike).
#![tactic(auto)]

mod create_trees;
pub mod laws;
mod phrases;
mod same_queries;
mod statement_trees;

pub use create_trees::{
    Column, ColumnConstraint, ColumnType, CreateIndex, CreateTable, DefaultValue, IndexedColumn,
    KeyOrder, TableConstraint, TableOption,
};
pub use phrases::{
    MAX_COLUMNS, MAX_TEXT, after_keyword, after_semicolon, after_sign, after_word, ends, name,
    needed, needed_name, place_of, syntax_at,
};
pub use same_queries::same_query;
pub use statement_trees::{
    Arm, CallSuffix, CommonTableExpr, CompoundArm, Expr, JoinCondition, Joined, NamedWindow,
    OrderingTerm, Over, Query, ResultColumn, SelectCore, SignedNumber, Source, Sources, Statement,
    Window,
};
