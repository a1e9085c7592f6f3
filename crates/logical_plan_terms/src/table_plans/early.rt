//! Where conditions are tested, and which of them need the first values of a row alone.
ghost use Rattle.std.specs.Prelude.{◌≡◌, IfOk, map, nat_lt};
ghost use Rattle.std.specs.List.{list_all};
ghost use Rattle.expr.specs.View.{term};
ghost use Rattle.logical_plan_terms.specs.table_plans.Parted.{ArePlaced, IsParted, names_within};

use expr::{Expr, columns};
use std::alloc::{AllocError, Global};

/// Conditions, those apart that need the first values of a row alone.
#[derive(Drop)]
pub(crate) struct Parts {
    /// Those that need no more than these values, in their order.
    pub(crate) early: Vec<Expr>,
    /// The others, in their order.
    pub(crate) late: Vec<Expr>,
}

/// Whether each of these places is one of so many first.
fn are_first(places: &[usize], count: usize) -> bool
    ensures { result ≡ list_all (λ at. nat_lt at count) places.now }
{
    places.iter().all(|at| *at < count)
}

/// Whether an expression names no more than so many first values of a row.
fn is_early(alloc: Global, e: &Expr, count: usize) -> Result<bool, AllocError>
    ensures { IfOk result (λ b. b ≡ names_within count (term e.now)) }
{
    let mut named = Vec::new(alloc);
    columns(e, &mut named)?;
    Ok(are_first(named.as_slice(), count))
}

/// Conditions, those apart that need no more than so many first values of a row.
pub(crate) fn parted(alloc: Global, tests: Vec<Expr>, count: usize) -> Result<Parts, AllocError>
    ensures { IfOk result (λ parts. IsParted count (map term tests.items) (map term parts.early.items) (map term parts.late.items)) }
{
    let mut early = Vec::new(alloc);
    let mut late = Vec::new(alloc);
    for e in tests {
        if is_early(alloc, &e, count)? {
            early.push(e)?;
        } else {
            late.push(e)?;
        }
    }
    Ok(Parts { early, late })
}

/// Conditions, by where they are tested.
#[derive(Drop)]
pub(crate) struct Placed {
    /// On the rows before a table.
    pub(crate) before: Vec<Expr>,
    /// On these, beside each row of the table.
    pub(crate) here: Vec<Expr>,
    /// On the rows of the join.
    pub(crate) above: Vec<Expr>,
}

/// Where the conjuncts of ON and other conditions are tested, before a table of which so many first values of a row are read. Of
/// a LEFT JOIN the conjuncts of ON only choose what stands beside a row, and the others only keep rows of the join. (SELECT,
/// "Determination of input data")
pub(crate) fn tests_placed(
    alloc: Global,
    padded: bool,
    on: Vec<Expr>,
    tests: Vec<Expr>,
    count: usize,
) -> Result<Placed, AllocError>
    ensures { IfOk result (λ placed. ArePlaced padded count (map term on.items) (map term tests.items)
        (map term placed.before.items) (map term placed.here.items) (map term placed.above.items)) }
{
    if padded {
        let parts = parted(alloc, tests, count)?;
        return Ok(Placed {
            before: parts.early,
            here: on,
            above: parts.late,
        });
    }
    let (mut all, mut tests) = (on, tests);
    all.append(&mut tests)?;
    let parts = parted(alloc, all, count)?;
    Ok(Placed {
        before: parts.early,
        here: parts.late,
        above: Vec::new(alloc),
    })
}
