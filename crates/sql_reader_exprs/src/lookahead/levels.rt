//! The levels of the grammar of expressions, from the loosest operators to the tightest.
//! (SQL Language Expressions, "Operators, and Parse-Affecting Attributes")
ghost use Rattle.std.specs.Prelude.{◌≡◌, ◌≤◌};
ghost use Rattle.sql_reader_grammar.specs.Operators as operators;

use sql_reader_syntax::{BinaryOperator, PrefixOperator};

/// Where an expression ends: looser than each operator.
pub(crate) const NO_LEVEL: u8 = 0;

/// An expression of this level is any.
pub const OR_LEVEL: u8 = 1;

const AND_LEVEL: u8 = 2;

const NOT_LEVEL: u8 = 3;

/// Of `=`, `<>`, IS, LIKE, BETWEEN, IN, ISNULL and NOTNULL.
pub(crate) const EQUALITY_LEVEL: u8 = 4;

/// Of `<`, `<=`, `>` and `>=`.
pub const COMPARISON_LEVEL: u8 = 5;

const BITS_LEVEL: u8 = 6;

const SUM_LEVEL: u8 = 7;

const PRODUCT_LEVEL: u8 = 8;

const CONCATENATION_LEVEL: u8 = 9;

/// Of `-`, `+` and `~` before an operand.
const SIGN_LEVEL: u8 = 10;

/// Of what belongs to a name or a call: tighter than each operator.
pub(crate) const PART_LEVEL: u8 = 12;

/// The level of the phrases that an operator makes.
pub fn level_of(operator: BinaryOperator) -> u8
    ensures value { result ≡ operators.level_of operator }
    ensures small { result ≤ operators.concatenation_level }
{
    match operator {
        BinaryOperator::Or => OR_LEVEL,
        BinaryOperator::And => AND_LEVEL,
        BinaryOperator::Equal
        | BinaryOperator::NotEqual
        | BinaryOperator::Is
        | BinaryOperator::IsNot
        | BinaryOperator::Like
        | BinaryOperator::NotLike => EQUALITY_LEVEL,
        BinaryOperator::Less
        | BinaryOperator::LessEqual
        | BinaryOperator::Greater
        | BinaryOperator::GreaterEqual => COMPARISON_LEVEL,
        BinaryOperator::BitAnd | BinaryOperator::BitOr => BITS_LEVEL,
        BinaryOperator::Add | BinaryOperator::Subtract => SUM_LEVEL,
        BinaryOperator::Multiply | BinaryOperator::Divide | BinaryOperator::Remainder => {
            PRODUCT_LEVEL
        }
        BinaryOperator::Concatenate => CONCATENATION_LEVEL,
    }
}

/// The same of an operator before its operand.
pub fn level_of_prefix(operator: PrefixOperator) -> u8
    ensures value { result ≡ operators.level_of_prefix operator }
    ensures small { result ≤ operators.sign_level }
{
    match operator {
        PrefixOperator::Not => NOT_LEVEL,
        PrefixOperator::Minus | PrefixOperator::Plus | PrefixOperator::BitNot => SIGN_LEVEL,
    }
}
