//! Columns of FROM, over the rows of groups.
ghost use Rattle.std.specs.Prelude.{Ok, map};
ghost use Rattle.semantics_names.specs.Outcome.{also, each};
ghost use Rattle.semantics_names.specs.Places.{key_column};
ghost use Rattle.semantics_names.specs.Statement as spec;
ghost use Rattle.resolver_terms.specs.Outcome.{Gives};
ghost use Rattle.expr.specs.View.{term};
ghost use Rattle.resolver_exprs.specs.scopes.ResultView.{result_of};

use expr::Expr;
use resolver_exprs::{ResultColumn, term_place};
use std::alloc::Global;
use values::Fault;

// A column of FROM, over the rows of groups.
fn key(alloc: Global, by: &[Expr], column: &ResultColumn) -> Result<ResultColumn, Fault>
    ensures { let r = result_of column.now in
        Gives result_of result (also (spec.result r.name) (spec.or_bare (key_column (map term by.now) (Ok r.term)))) }
{
    let Some(at) = term_place(by, &column.term) else {
        return Err(Fault::BareColumn);
    };
    Ok(ResultColumn {
        term: Expr::Column(at),
        name: String::from_str(alloc, column.name.as_str())?,
    })
}

/// Columns of FROM, over the rows of groups. The fault is `BareColumn` where one is no expression of GROUP BY, or `NoMemory`.
/// (SELECT, "Generation of the set of result rows")
pub(crate) fn keys(
    alloc: Global,
    by: &[Expr],
    columns: &[ResultColumn],
) -> Result<Vec<ResultColumn>, Fault>
    ensures { Gives (λ v. map result_of v.items) result
        (each (λ r. also (spec.result r.name) (spec.or_bare (key_column (map term by.now) (Ok r.term))))
        (map result_of columns.now)) }
{
    let mut keys = Vec::new(alloc);
    for column in columns {
        let next = key(alloc, by, column)?;
        keys.push(next)?;
    }
    Ok(keys)
}
