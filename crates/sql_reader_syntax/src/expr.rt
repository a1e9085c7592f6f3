//! What expressions are made of, as written.

/// An operator before its operand. (SQL Language Expressions, "Operators, and Parse-Affecting Attributes")
#[derive(Clone, Copy, Debug, PartialEq, Eq)]
pub enum PrefixOperator {
    Not,
    Minus,
    Plus,
    BitNot,
}

/// An operator between its operands. (SQL Language Expressions, "Operators, and Parse-Affecting Attributes")
#[derive(Clone, Copy, Debug, PartialEq, Eq)]
pub enum BinaryOperator {
    Or,
    And,
    /// `=` or `==`
    Equal,
    /// `<>` or `!=`
    NotEqual,
    Is,
    IsNot,
    Like,
    NotLike,
    Less,
    LessEqual,
    Greater,
    GreaterEqual,
    BitAnd,
    BitOr,
    Add,
    Subtract,
    Multiply,
    Divide,
    Remainder,
    Concatenate,
}

/// An operator behind its operand. (SQL Language Expressions, "Operators, and Parse-Affecting Attributes")
#[derive(Clone, Copy, Debug, PartialEq, Eq)]
pub enum PostfixOperator {
    IsNull,
    NotNull,
}

/// A function that a call may name. (Built-In Scalar SQL Functions; Built-in Aggregate Functions; Window Functions)
#[derive(Clone, Copy, Debug, PartialEq, Eq)]
pub enum Function {
    Abs,
    Coalesce,
    Count,
    DenseRank,
    FirstValue,
    Hex,
    IfNull,
    Iif,
    Lag,
    LastValue,
    Lead,
    Length,
    Lower,
    Max,
    Min,
    NthValue,
    NTile,
    NullIf,
    Rank,
    RowNumber,
    Sum,
    TypeOf,
    Upper,
}
