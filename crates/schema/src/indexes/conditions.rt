//! The condition of a partial index, over the columns of its table.
ghost use Rattle.std.specs.Prelude.{◌≡◌, ◌⊎◌, ◌↔◌, IfErr, IfOk, IsTrue, map, option_map, string_bytes};
ghost use Rattle.values.specs.declared.fault.Fault.TheVariants.{NoMemory};
ghost use Rattle.expr.specs.Term.{Term};
ghost use Rattle.expr.specs.TermType.{Finds};
ghost use Rattle.expr.specs.View.{term};
ghost use Rattle.schema.specs.indexes.Condition as spec;
ghost use Rattle.schema.specs.indexes.Condition.{IsConditionOf, column_of, term_of, terms_of};
ghost use Rattle.semantics_names.specs.Expression as n;
ghost use Rattle.semantics_names.specs.Expression.{among_items, between_bounds};
ghost use Rattle.resolver_terms.specs.Outcome.{Gives};
ghost use Rattle.schema_tables.specs.ColumnTypes as column_types;
ghost use Rattle.sql_reader_grammar.specs.statement_trees.TreeView.{expr_of};
ghost use Rattle.sql_reader_syntax.specs.ExprTree.{trees_of};

use crate::indexes::places::place_of;
use expr::{Comparison, Expr, Function};
use expr_types::type_of;
use schema_keys::is_same_name;
use schema_tables::Table;
use sql_reader_grammar::Expr as Tree;
use sql_reader_syntax::{BinaryOperator, PostfixOperator, PrefixOperator};
use std::alloc::{AllocError, Global};
use values::{Fault, Ty, Value, ValueRef};

/// Whether a column of the table may stand behind this name of a table, or behind none.
fn is_owner(table: &Table, owner: &Option<String>) -> bool
    ensures { result ≡ spec.is_owner table.now (option_map (λ n. string_bytes n) owner.now) }
{
    match owner {
        Some(owner) => is_same_name(table.name(), owner.as_str()),
        None => true,
    }
}

/// A column of the table. The fault is `UnknownColumn`.
fn column(table: &Table, owner: &Option<String>, name: &str) -> Result<Expr, Fault>
    ensures { Gives term result (column_of table.now (option_map (λ n. string_bytes n) owner.now) name.now) }
{
    if !is_owner(table, owner) {
        return Err(Fault::UnknownColumn);
    }
    match place_of(table.columns(), name) {
        Some(place) => Ok(Expr::Column(place)),
        None => Err(Fault::UnknownColumn),
    }
}

/// Whether an expression is a number without a sign.
fn is_number(tree: &Tree) -> bool
    ensures { result ≡ spec.is_number (expr_of tree.now) }
{
    matches!(tree, Tree::Number(_))
}

/// NOT, where it is written.
fn negated(alloc: Global, not: bool, operand: Expr) -> Result<Expr, AllocError>
    ensures { IfOk result (λ e. term e ≡ n.negated not (term operand)) }
{
    if not {
        Ok(Expr::Call(Function::Not, Box::new(alloc, operand)?))
    } else {
        Ok(operand)
    }
}

/// NOT before an expression, or a sign before a number. The fault is `WrongPlace` of another operator, and of a sign before
/// what is no number; or `NoMemory`. (SQL Language Expressions, "Literal Values (Constants)")
fn prefixed(
    alloc: Global,
    operator: PrefixOperator,
    is_number: bool,
    operand: Expr,
) -> Result<Expr, Fault>
    ensures { Gives term result (spec.prefixed operator is_number (term operand)) }
{
    match operator {
        PrefixOperator::Not => Ok(negated(alloc, true, operand)?),
        PrefixOperator::Minus if is_number => {
            Ok(Expr::Call(Function::Neg, Box::new(alloc, operand)?))
        }
        PrefixOperator::Plus if is_number => Ok(operand),
        PrefixOperator::Minus | PrefixOperator::Plus | PrefixOperator::BitNot => {
            Err(Fault::WrongPlace)
        }
    }
}

/// ISNULL and NOTNULL. (SQL Language Expressions, "Operators, and Parse-Affecting Attributes")
fn postfixed(alloc: Global, operator: PostfixOperator, operand: Expr) -> Result<Expr, AllocError>
    ensures { IfOk result (λ e. term e ≡ n.postfix operator (term operand)) }
{
    let null = Box::new(alloc, Expr::Literal(Value::Null))?;
    let is_null = Expr::Is(Box::new(alloc, operand)?, null);
    match operator {
        PostfixOperator::IsNull => Ok(is_null),
        PostfixOperator::NotNull => negated(alloc, true, is_null),
    }
}

/// AND, OR, IS or a comparison between operands. The fault is `WrongPlace` of another operator, or `NoMemory`.
fn joined(alloc: Global, operator: BinaryOperator, left: Expr, right: Expr) -> Result<Expr, Fault>
    ensures { Gives term result (spec.joined operator (term left) (term right)) }
{
    let left = Box::new(alloc, left)?;
    let right = Box::new(alloc, right)?;
    match operator {
        BinaryOperator::Or => Ok(Expr::Or(left, right)),
        BinaryOperator::And => Ok(Expr::And(left, right)),
        BinaryOperator::Equal => Ok(Expr::Compare(Comparison::Eq, left, right)),
        BinaryOperator::NotEqual => Ok(Expr::Compare(Comparison::Ne, left, right)),
        BinaryOperator::Is => Ok(Expr::Is(left, right)),
        BinaryOperator::IsNot => Ok(negated(alloc, true, Expr::Is(left, right))?),
        BinaryOperator::Less => Ok(Expr::Compare(Comparison::Lt, left, right)),
        BinaryOperator::LessEqual => Ok(Expr::Compare(Comparison::Le, left, right)),
        BinaryOperator::Greater => Ok(Expr::Compare(Comparison::Gt, left, right)),
        BinaryOperator::GreaterEqual => Ok(Expr::Compare(Comparison::Ge, left, right)),
        BinaryOperator::Like
        | BinaryOperator::NotLike
        | BinaryOperator::BitAnd
        | BinaryOperator::BitOr
        | BinaryOperator::Add
        | BinaryOperator::Subtract
        | BinaryOperator::Multiply
        | BinaryOperator::Divide
        | BinaryOperator::Remainder
        | BinaryOperator::Concatenate => Err(Fault::WrongPlace),
    }
}

/// `value BETWEEN low AND high`, or NOT BETWEEN.
fn between(alloc: Global, not: bool, value: Expr, low: Expr, high: Expr) -> Result<Expr, AllocError>
    ensures { IfOk result (λ e. term e ≡ between_bounds not (term value) (term low) (term high)) }
{
    let value = Box::new(alloc, value)?;
    let low = Box::new(alloc, low)?;
    let high = Box::new(alloc, high)?;
    negated(alloc, not, Expr::Between(value, low, high))
}

/// `value IN (..)`, or NOT IN.
fn among(alloc: Global, not: bool, value: Expr, members: Vec<Expr>) -> Result<Expr, AllocError>
    ensures { IfOk result (λ e. term e ≡ among_items not (term value) (map term members.items)) }
{
    let value = Box::new(alloc, value)?;
    negated(alloc, not, Expr::In(value, members))
}

/// A part of a condition. The fault is that of what may not stand there, the first from the left; or `NoMemory`.
#[cycle(part)]
fn part(alloc: Global, table: &Table, tree: &Tree) -> Result<Expr, Fault>
    ensures { Gives term result (term_of table.now (expr_of tree.now)) }
{
    match tree {
        Tree::Null => Ok(Expr::Literal(Value::Null)),
        Tree::Number(number) => Ok(Expr::Literal(Value::Int(*number))),
        Tree::Text(content) => Ok(Expr::Literal(ValueRef::Text(content.as_str()).to_value(alloc)?)),
        Tree::Blob(bytes) => Ok(Expr::Literal(ValueRef::Blob(bytes.as_slice()).to_value(alloc)?)),
        Tree::Column(owner, name) => column(table, owner, name.as_str()),
        Tree::Prefix(operator, operand) => {
            let made = part(alloc, table, operand)?;
            prefixed(alloc, *operator, is_number(operand), made)
        }
        Tree::Binary(operator, left, right) => {
            let left = part(alloc, table, left)?;
            let right = part(alloc, table, right)?;
            joined(alloc, *operator, left, right)
        }
        Tree::Postfix(operator, operand) => {
            let operand = part(alloc, table, operand)?;
            Ok(postfixed(alloc, *operator, operand)?)
        }
        Tree::Between(not, value, low, high) => {
            let value = part(alloc, table, value)?;
            let low = part(alloc, table, low)?;
            let high = part(alloc, table, high)?;
            Ok(between(alloc, *not, value, low, high)?)
        }
        Tree::In(not, value, members) => {
            let value = part(alloc, table, value)?;
            let members = parts(alloc, table, members)?;
            Ok(among(alloc, *not, value, members)?)
        }
        _ => Err(Fault::WrongPlace),
    }
}

/// The members of a list.
#[cycle(part)]
fn parts(alloc: Global, table: &Table, trees: &[Tree]) -> Result<Vec<Expr>, Fault>
    ensures { Gives (λ v. map term v.items) result (terms_of table.now (trees_of (map expr_of trees.now))) }
{
    let mut terms = Vec::new(alloc);
    for tree in trees {
        let next = part(alloc, table, tree)?;
        terms.push(next)?;
    }
    Ok(terms)
}

/// The types of the columns of a table.
fn types_of(alloc: Global, table: &Table) -> Result<Vec<Ty>, AllocError>
    ensures { IfOk result (λ types. types.items ≡ column_types.types_of table.now) }
{
    table
        .columns()
        .iter()
        .map(|column| column.ty())
        .collect(alloc)
}

/// Whether a type was found that a condition may have.
fn is_whole(found: Option<Ty>) -> bool
    ensures { IsTrue result ↔ Finds found Ty.Int }
{
    match found {
        Some(Ty::Int | Ty::Null) => true,
        Some(Ty::Text | Ty::Blob) | None => false,
    }
}

/// The condition that an expression is on rows of the table. Any fault but `NoMemory` says that it is none. (Partial Indexes)
pub(crate) fn condition(alloc: Global, table: &Table, tree: &Tree) -> Result<Expr, Fault>
    ensures made { IfOk result (λ e. IsConditionOf table.now (expr_of tree.now) (term e)) }
    ensures refused { IfErr result (λ fault. (fault ≡ NoMemory)
        ⊎ ((condition : Term) → ¬ IsConditionOf table.now (expr_of tree.now) condition)) }
{
    let condition = part(alloc, table, tree)?;
    let types = types_of(alloc, table)?;
    if is_whole(type_of(types.as_slice(), &[], &condition)) {
        Ok(condition)
    } else {
        Err(Fault::TypeMismatch)
    }
}
