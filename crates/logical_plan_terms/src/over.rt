//! Expressions over the columns that are read.
ghost use Rattle.std.specs.Prelude.{◌≡◌, ◌==◌, All, IfOk, MatchBool, MatchOption, map, nat_le, ⊤};
ghost use Rattle.std.specs.List.{AllZip, list_all, list_any};
ghost use Rattle.expr.specs.Names.{IsAnswered};
ghost use Rattle.logical_plan_terms.specs.Over.{AreWhole, IsItself, IsOver, StandsOver};
ghost use Rattle.expr.specs.View.{term};

use expr::{Expr, Leaves, answers, columns};
use std::alloc::{AllocError, Global};

/// Whether each of these columns is read.
fn are_read(read: &[usize], columns: &[usize]) -> bool
    ensures { result ≡ list_all (λ column. list_any (λ at. at == column) read.now) columns.now }
{
    columns.iter().all(|column| read.contains(column))
}

/// Whether these are the places of none of so many inner queries.
fn are_behind(inner: usize, answers: &[usize]) -> bool
    ensures { result ≡ list_all (λ at. nat_le inner at) answers.now }
{
    answers.iter().all(|at| inner <= *at)
}

/// Whether each column that a term names is read, and it names the answer of none of so many inner queries.
pub(crate) fn is_over(
    alloc: Global,
    read: &[usize],
    inner: usize,
    t: &Expr,
) -> Result<bool, AllocError>
    ensures { IfOk result (λ b. MatchBool b (IsOver read.now inner (term t.now)) (¬ IsOver read.now inner (term t.now))) }
{
    let mut named = Vec::new(alloc);
    columns(t, &mut named)?;
    if !are_read(read, named.as_slice()) {
        return Ok(false);
    }
    let mut asked = Vec::new(alloc);
    answers(t, &mut asked)?;
    Ok(are_behind(inner, asked.as_slice()))
}

/// The expression of a term over the columns that are read, beside so many inner queries. There is none exactly where the term
/// names a column that isn't read, or the answer of one of these queries. Where each column stands in its place, it is the term
/// itself. It names no answer. (SQL Language Expressions)
pub fn expr_over(
    alloc: Global,
    read: &[usize],
    inner: usize,
    t: &Expr,
) -> Result<Option<Expr>, AllocError>
    ensures over { IfOk result (λ e. MatchOption e (¬ IsOver read.now inner (term t.now)) (λ _. IsOver read.now inner (term t.now))) }
    ensures stands { IfOk result (λ e. MatchOption e ⊤ (λ e. StandsOver read.now inner (term e) (term t.now))) }
    ensures itself { IfOk result (λ e. MatchOption e ⊤ (λ e. AreWhole read.now → IsItself inner (term e) (term t.now))) }
    ensures answered { IfOk result (λ e. MatchOption e ⊤ (λ e. IsAnswered (term e))) }
{
    if is_over(alloc, read, inner, t)? {
        Ok(Some(Leaves::Placed(read).copy(alloc, t)?))
    } else {
        Ok(None)
    }
}

/// The expressions of terms, in their order. There are none exactly where one of the terms has none.
pub fn exprs_over(
    alloc: Global,
    read: &[usize],
    inner: usize,
    terms: &[Expr],
) -> Result<Option<Vec<Expr>>, AllocError>
    ensures over { IfOk result (λ es. MatchOption es (¬ All (IsOver read.now inner) (map term terms.now))
        (λ _. All (IsOver read.now inner) (map term terms.now))) }
    ensures stand { IfOk result (λ es. MatchOption es ⊤
        (λ es. AllZip (StandsOver read.now inner) (map term es.items) (map term terms.now))) }
    ensures itself { IfOk result (λ es. MatchOption es ⊤
        (λ es. AreWhole read.now → AllZip (IsItself inner) (map term es.items) (map term terms.now))) }
    ensures answered { IfOk result (λ es. MatchOption es ⊤ (λ es. All IsAnswered (map term es.items))) }
{
    let mut es = Vec::with_capacity(alloc, terms.len())?;
    for t in terms {
        let over = expr_over(alloc, read, inner, t)?;
        match over {
            None => return Ok(None),
            Some(e) => es.push(e)?,
        }
    }
    Ok(Some(es))
}
