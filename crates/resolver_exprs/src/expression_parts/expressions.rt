//! The parts of an expression.
ghost use Rattle.std.specs.Prelude.{◌≡◌, ◌++◌, ◌∷◌, [], OnOk, map, option_map};
ghost use Rattle.resolver_exprs.specs.expression_parts.Found.{found_in};
ghost use Rattle.sql_reader_grammar.specs.Reading.{terms_of};
ghost use Rattle.semantics_names.specs.Parts as spec;
ghost use Rattle.sql_reader_syntax.specs.ExprView.{maybe_of};
ghost use Rattle.sql_reader_grammar.specs.statement_trees.TreeView.{arm_of, behind_of, expr_of, over_of, term_of, window_of};
ghost use Rattle.sql_reader_syntax.specs.ExprTree.{arms_of, trees_of};

use sql_reader_grammar::{Arm, CallSuffix, Expr, OrderingTerm, Over, Window};
use std::alloc::AllocError;

/// Adds an expression behind its parts; what stands in a query inside it is none of these. At an error some of them may have
/// been added.
#[cycle(parts)]
pub fn parts<'a>(tree: &'a Expr, found: &mut Vec<&'a Expr>) -> Result<(), AllocError>
    ensures { OnOk result (found_in found.new ≡ found_in found.old ++ spec.parts (expr_of tree.now)) }
{
    operand_parts(tree, found)?;
    found.push(tree)?;
    Ok(())
}

// Adds the parts of an expression, without itself.
#[cycle(parts)]
fn operand_parts<'a>(tree: &'a Expr, found: &mut Vec<&'a Expr>) -> Result<(), AllocError>
    ensures { OnOk result (found_in found.new ++ expr_of tree.now ∷ [] ≡ found_in found.old ++ spec.parts (expr_of tree.now)) }
{
    match tree {
        Expr::Prefix(_, x) => parts(x, found),
        Expr::Postfix(_, x) => parts(x, found),
        Expr::InQuery(_, x, _) => parts(x, found),
        Expr::Binary(_, x, y) => {
            parts(x, found)?;
            parts(y, found)
        }
        Expr::Between(_, x, low, high) => {
            parts(x, found)?;
            parts(low, found)?;
            parts(high, found)
        }
        Expr::In(_, x, items) => {
            parts(x, found)?;
            all_parts(items.as_slice(), found)
        }
        Expr::CountRows(behind) => behind_parts(behind, found),
        Expr::Call(_, items, behind) => {
            all_parts(items.as_slice(), found)?;
            behind_parts(behind, found)
        }
        Expr::Case(operand, arms, otherwise) => {
            maybe_parts(operand, found)?;
            arms_parts(arms.as_slice(), found)?;
            maybe_parts(otherwise, found)
        }
        Expr::Null | Expr::Number(_) | Expr::Text(_) | Expr::Blob(_) => Ok(()),
        Expr::Column(_, _) | Expr::Exists(_) => Ok(()),
    }
}

/// Adds the parts of expressions.
#[cycle(parts)]
pub fn all_parts<'a>(items: &'a [Expr], found: &mut Vec<&'a Expr>) -> Result<(), AllocError>
    ensures { OnOk result (found_in found.new ≡ found_in found.old ++ spec.all_parts (trees_of (map expr_of items.now))) }
{
    for item in items {
        parts(item, found)?;
    }
    Ok(())
}

#[cycle(parts)]
fn maybe_parts<'a>(tree: &'a Option<Box<Expr>>, found: &mut Vec<&'a Expr>) -> Result<(), AllocError>
    ensures { OnOk result (found_in found.new
        ≡ found_in found.old ++ spec.maybe_parts (maybe_of (option_map (λ e. expr_of e.value) tree.now))) }
{
    match tree {
        None => Ok(()),
        Some(e) => parts(e, found),
    }
}

#[cycle(parts)]
fn arms_parts<'a>(arms: &'a [Arm], found: &mut Vec<&'a Expr>) -> Result<(), AllocError>
    ensures { OnOk result (found_in found.new ≡ found_in found.old ++ spec.arms_parts (arms_of (map arm_of arms.now))) }
{
    for arm in arms {
        parts(&arm.when, found)?;
        parts(&arm.then, found)?;
    }
    Ok(())
}

#[cycle(parts)]
fn behind_parts<'a>(behind: &'a CallSuffix, found: &mut Vec<&'a Expr>) -> Result<(), AllocError>
    ensures { OnOk result (found_in found.new ≡ found_in found.old ++ spec.behind_parts (behind_of behind.now)) }
{
    maybe_parts(&behind.filter, found)?;
    over_parts(&behind.over, found)
}

#[cycle(parts)]
fn over_parts<'a>(over: &'a Over, found: &mut Vec<&'a Expr>) -> Result<(), AllocError>
    ensures { OnOk result (found_in found.new ≡ found_in found.old ++ spec.over_parts (over_of over.now)) }
{
    match over {
        Over::Absent | Over::Name(_) => Ok(()),
        Over::Window(window) => window_parts(window, found),
    }
}

/// Adds the parts of what stands behind PARTITION BY and ORDER BY of a window.
#[cycle(parts)]
pub fn window_parts<'a>(window: &'a Window, found: &mut Vec<&'a Expr>) -> Result<(), AllocError>
    ensures { OnOk result (found_in found.new ≡ found_in found.old ++ spec.window_parts (window_of window.now)) }
{
    all_parts(window.partition.as_slice(), found)?;
    terms_parts(window.order.as_slice(), found)
}

/// Adds the parts of what stands behind ORDER BY.
#[cycle(parts)]
pub fn terms_parts<'a>(
    terms: &'a [OrderingTerm],
    found: &mut Vec<&'a Expr>,
) -> Result<(), AllocError>
    ensures { OnOk result (found_in found.new ≡ found_in found.old ++ spec.terms_parts (terms_of (map term_of terms.now))) }
{
    for term in terms {
        parts(&term.value, found)?;
    }
    Ok(())
}
