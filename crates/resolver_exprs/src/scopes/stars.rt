//! The columns of `*` and of `t.*`.
ghost use Rattle.std.specs.Prelude.{◌≡◌, IfOk, map};
ghost use Rattle.expr.specs.Term.{column};
ghost use Rattle.semantics_names.specs.Scope as scopes;
ghost use Rattle.semantics_names.specs.Statement as spec;
ghost use Rattle.resolver_exprs.specs.scopes.ResultView.{result_of};

use crate::scopes::Shown;
use expr::Expr;
use std::alloc::{AllocError, Global};

/// A result column. (SELECT, "Generation of the set of result rows")
#[derive(Drop)]
pub struct ResultColumn {
    pub term: Expr,
    pub name: String,
}

// A column by its bare name.
fn bare(alloc: Global, shown: &Shown) -> Result<ResultColumn, AllocError>
    ensures { IfOk result (λ r. result_of r ≡ spec.result shown.now.name (scopes.bare_term shown.now.places)) }
{
    Ok(ResultColumn {
        term: shown.term(alloc, None, 0)?,
        name: shown.name(alloc)?,
    })
}

// A column of a source, which stands at this place of the row.
fn placed(alloc: Global, shown: &Shown, at: usize) -> Result<ResultColumn, AllocError>
    ensures { IfOk result (λ r. result_of r ≡ spec.result shown.now.name (column at)) }
{
    Ok(ResultColumn {
        term: Expr::Column(at),
        name: shown.name(alloc)?,
    })
}

/// The columns of `*`. (SELECT, "Generation of the set of result rows")
pub(crate) fn starred(alloc: Global, scope: &[Shown]) -> Result<Vec<ResultColumn>, AllocError>
    ensures { IfOk result (λ v. map result_of v.items ≡ spec.starred scope.now) }
{
    let mut results = Vec::new(alloc);
    for shown in scope {
        if shown.is_bare() {
            results.push(bare(alloc, shown)?)?;
        }
    }
    Ok(results)
}

/// The columns of `t.*`. (SELECT, "Generation of the set of result rows")
pub(crate) fn starred_of(
    alloc: Global,
    scope: &[Shown],
    table: &str,
) -> Result<Vec<ResultColumn>, AllocError>
    ensures { IfOk result (λ v. map result_of v.items ≡ spec.starred_of table.now 0 scope.now) }
{
    let mut results = Vec::new(alloc);
    for (at, shown) in scope.iter().enumerate() {
        if shown.is_of(table) {
            results.push(placed(alloc, shown, at)?)?;
        }
    }
    Ok(results)
}
