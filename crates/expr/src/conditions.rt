//! Conditions split at AND.
ghost use Rattle.std.specs.Prelude.{◌≡◌, ◌⊎◌, ◌++◌, map, Err, IfErr, IfOk, OnOk};
ghost use Rattle.values.specs.Datum.{Datum, datum_of};
ghost use Rattle.expr.specs.Meaning.{eval, Overflows};
ghost use Rattle.expr.specs.operations.Operations.{truth};
ghost use Rattle.expr.specs.View.{term};
ghost use Rattle.expr.specs.Conjuncts.{conjuncts, keeps};

use crate::numbers::{number_among, numbers_compare};
use crate::operations::{Comparison, truth};
use crate::{Expr, copy, eval};
use std::alloc::{AllocError, Global};
use values::{Fault, Value};

/// Puts the conjuncts of a condition at the end of a list, a BETWEEN as two.
pub fn conjuncts(alloc: Global, e: Expr, out: &mut Vec<Expr>) -> Result<(), AllocError>
    ensures { OnOk result (map term out.new.items ≡ map term out.old.items ++ conjuncts (term e)) }
{
    match e {
        Expr::And(a, b) => {
            conjuncts(alloc, Box::into_inner(a), out)?;
            conjuncts(alloc, Box::into_inner(b), out)
        }
        Expr::Between(x, a, b) => {
            let same = copy(alloc, &x)?;
            let same = Box::new(alloc, same)?;
            out.push(Expr::Compare(Comparison::Ge, x, a))?;
            out.push(Expr::Compare(Comparison::Le, same, b))?;
            Ok(())
        }
        e => {
            out.push(e)?;
            Ok(())
        }
    }
}

/// Whether a condition is true on a row, whatever stands for results out of range; faults as those of `eval`.
#[inline(always)]
pub fn is_true(alloc: Global, condition: &Expr, row: &[Value]) -> Result<bool, Fault>
    ensures value { IfOk result (λ b. (w : Datum) → keeps (truth (eval w (term condition.now) (map datum_of row.now))) ≡ b) }
    ensures whole { IfOk result (λ _. ¬ Overflows (term condition.now) (map datum_of row.now)) }
    ensures overflow { result ≡ Err Fault.Overflow → Overflows (term condition.now) (map datum_of row.now) }
    ensures faults { IfErr result (λ fault. (fault ≡ Fault.Overflow) ⊎ (fault ≡ Fault.NoMemory)) }
{
    if let Some(holds) = numbers_compare(condition, row) {
        return Ok(holds);
    }
    if let Some(found) = number_among(condition, row) {
        return Ok(found.unwrap_or(false));
    }
    let value = eval(alloc, condition, row)?;
    Ok(truth(&value) == Some(true))
}
