//! What a choice of paths sees of a conjunct: numbers alone.
ghost use Rattle.std.specs.Prelude.{◌≡◌, ◌&&◌, ◌++◌, map, option_map, option_to_list, position, IfOk, OnOk};
ghost use Rattle.expr.specs.View.{term};
ghost use Rattle.index_choice.specs.Bounds.{are_known, bound_data, conjunct_data, has_bound_on, is_bound_on, same_side, seen_bound, seen_of};
ghost use Rattle.index_choice.specs.View.{bound_term};

use crate::comparisons::{ColumnBound, Side, bounds};
use expr::{Expr, columns};
use std::alloc::{AllocError, Global};

/// A column that a conjunct bounds on a side, and the columns that the value names by which it does. Columns are told by
/// their places in the row of the whole FROM.
#[derive(Debug, Drop)]
pub struct Bound {
    pub side: Side,
    pub column: usize,
    pub over: Vec<usize>,
}

/// The columns that a conjunct names, and its bounds.
#[derive(Debug, Drop)]
pub struct Conjunct {
    pub names: Vec<usize>,
    pub bounds: Vec<Bound>,
}

/// Whether two sides are one.
pub fn same_side(a: Side, b: Side) -> bool
    ensures { result ≡ same_side a b }
{
    match a {
        Side::Equal => matches!(b, Side::Equal),
        Side::Lower => matches!(b, Side::Lower),
        Side::Upper => matches!(b, Side::Upper),
    }
}

/// Whether each of these columns is known.
pub(crate) fn all_known(known: &[bool], columns: &[usize]) -> bool
    ensures { result ≡ are_known known.now columns.now }
{
    columns
        .iter()
        .all(|column| known.get(*column).copied().unwrap_or(false))
}

impl Bound {
    /// Whether it bounds a column on a side, by a value of known columns alone.
    fn is_on(&self, known: &[bool], side: Side, column: usize) -> bool
        ensures { result ≡ is_bound_on known.now side column (bound_data self.now) }
    {
        same_side(self.side, side) && self.column == column && all_known(known, &self.over)
    }
}

/// Puts what is seen of a bound, where there is one, at the end of a list.
fn push_bound(
    alloc: Global,
    out: &mut Vec<Bound>,
    bound: Option<ColumnBound<'_>>,
) -> Result<(), AllocError>
    ensures { OnOk result (map bound_data out.new.items ≡ map bound_data out.old.items ++ map seen_bound (option_to_list (option_map bound_term bound.entry))) }
{
    if let Some(
        ColumnBound {
            side,
            column,
            value,
            ..
        },
    ) = bound
    {
        let mut over = Vec::new(alloc);
        columns(value, &mut over)?;
        out.push(Bound { side, column, over })?;
    }
    Ok(())
}

impl Conjunct {
    /// What is seen of an expression.
    pub fn new(alloc: Global, expr: &Expr) -> Result<Conjunct, AllocError>
        ensures { IfOk result (λ conjunct. conjunct_data conjunct ≡ seen_of (term expr.now)) }
    {
        let mut names = Vec::new(alloc);
        columns(expr, &mut names)?;
        let (left, right) = bounds(expr);
        let mut seen = Vec::new(alloc);
        push_bound(alloc, &mut seen, left)?;
        push_bound(alloc, &mut seen, right)?;
        Ok(Conjunct {
            names,
            bounds: seen,
        })
    }

    /// Whether it bounds a column on a side, by a value of known columns alone.
    fn bounds_column(&self, known: &[bool], side: Side, column: usize) -> bool
        ensures { result ≡ has_bound_on known.now side column self.now }
    {
        self.bounds
            .iter()
            .any(|bound| bound.is_on(known, side, column))
    }
}

/// The place of the first conjunct that bounds a column on a side.
pub(crate) fn find_bound(
    known: &[bool],
    conjuncts: &[Conjunct],
    side: Side,
    column: usize,
) -> Option<usize>
    ensures { result ≡ position (has_bound_on known.now side column) conjuncts.now }
{
    conjuncts
        .iter()
        .position(|conjunct| conjunct.bounds_column(known, side, column))
}
