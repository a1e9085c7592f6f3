//! The trees of whole statements, as written: what the readers of statements make. Parentheses and quotes are
//! gone. Of the trees themselves it promises nothing.
//!
//! Its modules: `expressions` and `queries` (queries are in expressions, and expressions in queries).
mod expressions;
mod queries;

pub use expressions::{Arm, CallSuffix, Expr, OrderingTerm, Over, Window};
pub use queries::{
    CommonTableExpr, CompoundArm, JoinCondition, Joined, NamedWindow, Query, ResultColumn,
    SelectCore, SignedNumber, Source, Sources, Statement,
};
