//! The kinds of operations, comparisons and functions.

/// An operation on two whole numbers. (SQL Language Expressions, "Operators, and Parse-Affecting Attributes")
#[derive(Clone, Copy, Debug, PartialEq, Eq)]
pub enum Arithmetic {
    Add,
    Sub,
    Mul,
    Div,
    Rem,
    BitAnd,
    BitOr,
}

/// A comparison of two values. (Datatypes In SQLite, "Comparison Expressions")
#[derive(Clone, Copy, Debug, PartialEq, Eq)]
pub enum Comparison {
    Eq,
    Ne,
    Lt,
    Le,
    Gt,
    Ge,
}

/// A function of one value; `-x`, `~x` and `NOT x` are among them. (Built-In Scalar SQL Functions)
#[derive(Clone, Copy, Debug, PartialEq, Eq)]
pub enum Function {
    Neg,
    BitNot,
    Not,
    Abs,
    Length,
    Lower,
    Upper,
    Hex,
    TypeOf,
}
