//! ORDER BY as places in rows.
ghost use Rattle.std.specs.Prelude.{◌≡◌, ◌<◌, All, IfOk, MatchOption, map, option_map, ⊤};
ghost use Rattle.expr.specs.View.{term};
ghost use Rattle.semantics.specs.Hits.{key_terms, order_terms};
ghost use Rattle.semantics.specs.Query as query;
ghost use Rattle.resolver_terms.specs.SelectView.{direction_of, key_of, key_term_of};
ghost use Rattle.windows_groups.specs.Keys.{result_key};
ghost use Rattle.logical_plan.specs.answers.Answers.{order_data};
ghost use Rattle.logical_plan.specs.answers.Permitted.{AreResults, IsOrderOf, IsResultColumn};
ghost use Rattle.logical_plan_terms.specs.Over.{IsOver};
ghost use Rattle.logical_plan_queries.specs.Made.{IsOrderOver};
ghost use Rattle.logical_plan_queries.specs.Places.{IsPlacedOver};

use expr::Expr;
use logical_plan::Order;
use logical_plan_terms::expr_over;
use resolver_terms::{Key, KeyTerm};
use std::alloc::{AllocError, Global};
use windows_groups::ResultKey;

/// The result column that a term of ORDER BY is, if it is one.
fn result_at(by: &KeyTerm) -> Option<usize>
    ensures { MatchOption result (¬ IsResultColumn (key_term_of by.now)) (λ at. key_term_of by.now ≡ query.KeyTerm.result at) }
{
    match by {
        KeyTerm::Result(at) => Some(*at),
        KeyTerm::Term(_) => None,
    }
}

/// A term of ORDER BY whose values rows have at a place.
fn key_at(key: &Key, at: usize) -> ResultKey
    ensures at { result.at ≡ at }
    ensures direction { direction_of result.direction ≡ (key_of key.now).direction }
{
    let direction = key.direction;
    ResultKey { at, direction }
}

/// The result columns that ORDER BY names. There are none where it has another term, which after DISTINCT, and after SELECTs that
/// are joined, has no row that it is computed on.
pub(crate) fn result_keys(
    alloc: Global,
    order: &[Key],
) -> Result<Option<Vec<ResultKey>>, AllocError>
    ensures { IfOk result (λ keys. MatchOption keys (¬ AreResults (map key_of order.now))
        (λ keys. AreResults (map key_of order.now) × (map result_key keys.items ≡ map key_of order.now))) }
{
    let mut keys = Vec::with_capacity(alloc, order.len())?;
    for key in order {
        let at = match result_at(&key.by) {
            None => return Ok(None),
            Some(at) => at,
        };
        keys.push(key_at(key, at))?;
    }
    Ok(Some(keys))
}

/// The order of result columns, if there is one.
pub(crate) fn in_order(keys: Vec<ResultKey>) -> Option<Order>
    ensures { IsOrderOf (map result_key keys.items) (option_map order_data result) }
{
    if keys.is_empty() {
        return None;
    }
    Some(Order { keys, hidden: 0 })
}

/// The place of the values of a term of ORDER BY in rows of `width` result columns. One that is no result column becomes the last of
/// the columns. There is none where it names another column than those that are read, or the answer of an inner query.
fn place_over(
    alloc: Global,
    read: &[usize],
    by: &KeyTerm,
    width: usize,
    columns: &mut Vec<Expr>,
) -> Result<Option<usize>, AllocError>
    ensures over { IfOk result (λ at. MatchOption at (¬ All (IsOver read.now 0) (key_terms (key_term_of by.now))) (λ _. ⊤)) }
    ensures placed { IfOk result (λ at. MatchOption at ⊤
        (λ at. IsPlacedOver read.now width (key_term_of by.now) (map term columns.old.items) (map term columns.new.items) at)) }
{
    match by {
        KeyTerm::Result(at) if *at < width => Ok(Some(*at)),
        // No row is so long, so that the value is NULL.
        KeyTerm::Result(_) => Ok(Some(usize::MAX)),
        KeyTerm::Term(t) => match expr_over(alloc, read, 0, t)? {
            None => Ok(None),
            Some(e) => {
                let at = columns.len();
                columns.push(e)?;
                Ok(Some(at))
            }
        },
    }
}

/// ORDER BY over the columns that are read. Its terms that are no result columns come after these, and aren't shown. There is none
/// where one names another column, or the answer of an inner query. (SELECT, "The ORDER BY clause")
pub(crate) fn order_over(
    alloc: Global,
    read: &[usize],
    order: &[Key],
    columns: &mut Vec<Expr>,
) -> Result<Option<Order>, AllocError>
    ensures over { IfOk result (λ o. MatchOption o (¬ All (IsOver read.now 0) (order_terms (map key_of order.now))) (λ _. ⊤)) }
    ensures placed { IfOk result (λ o. MatchOption o ⊤ (λ o.
        IsOrderOver read.now (map key_of order.now) (map term columns.old.items) (map term columns.new.items) (order_data o))) }
{
    let width = columns.len();
    let mut keys = Vec::with_capacity(alloc, order.len())?;
    for key in order {
        let placed = place_over(alloc, read, &key.by, width, columns)?;
        let at = match placed {
            None => return Ok(None),
            Some(at) => at,
        };
        keys.push(key_at(key, at))?;
    }
    let count = columns.len();
    let hidden = count - width;
    Ok(Some(Order { keys, hidden }))
}
