//! Rows in the order of terms on them.
ghost use Rattle.std.specs.Prelude.{◌≡◌, ◌⊎◌, Any, Err, IfErr, IfOk, IsPermutation, length, map};
ghost use Rattle.values.specs.Datum.{Datum};
ghost use Rattle.values.specs.Row.{rows_data};
ghost use Rattle.expr.specs.Meaning.{Overflows, eval};
ghost use Rattle.expr.specs.View.{term};
ghost use Rattle.semantics.specs.Valuation.{term_values};
ghost use Rattle.semantics.specs.Windows as windows;
ghost use Rattle.resolver_terms.specs.SelectView.{direction_of, sort_of};
ghost use Rattle.windows_groups.specs.window_order.Entries.{IsInWindowOrder, keys_of, rows_of};
ghost use Rattle.windows.specs.window_entries.Tags.{tags_of};
ghost use Rattle.windows.specs.window_partitions.Tagged.{AreAlike, tagged, terms_of};

use crate::window_entries::{entries, with_keys};
use expr::Expr;
use resolver_terms::SortTerm;
use sql_reader_syntax::Direction;
use std::alloc::Global;
use values::{Fault, Value};
use windows_groups::{Entry, sort};

/// Rows with the values of terms on them, in the order of these values, each by its direction, and then of the whole rows; equal
/// rows stay as they were. Its faults are `Overflow` and `NoMemory`.
pub(crate) fn rows_in_order<'a>(
    alloc: Global,
    terms: &[Expr],
    directions: &[Direction],
    rows: &'a [Vec<Value>],
) -> Result<Vec<Entry<'a>>, Fault>
    requires { length terms.now ≡ length directions.now }
    ensures in_order { IfOk result (λ placed. IsInWindowOrder (map direction_of directions.now) (keys_of placed.items)) }
    ensures same { IfOk result (λ placed. IsPermutation (tagged 0 (rows_data rows.now)) (tags_of placed.items)) }
    ensures ties { IfOk result (λ placed. AreAlike (tagged 0 (rows_data rows.now)) (tags_of placed.items)) }
    ensures keys { IfOk result (λ placed. (w : Datum) → keys_of placed.items ≡ map (term_values (eval w) (map term terms.now)) (rows_of placed.items)) }
    ensures overflow { result ≡ Err Fault.Overflow → Any (λ row. Any (λ t. Overflows t row) (map term terms.now)) (rows_data rows.now) }
    ensures only { IfErr result (λ e. (e ≡ Fault.Overflow) ⊎ (e ≡ Fault.NoMemory)) }
{
    let mut sorted = entries(alloc, terms, rows)?;
    sort(directions, &mut sorted)?;
    Ok(sorted)
}

/// The rows of entries with the values of the terms of ORDER BY on them, in the order of these values, each by its direction,
/// and then of the whole rows; equal rows stay as they were. Its faults are `Overflow` and `NoMemory`. (Window Functions)
pub fn ordered<'a>(
    alloc: Global,
    order: &[SortTerm],
    directions: &[Direction],
    entries: &[Entry<'a>],
) -> Result<Vec<Entry<'a>>, Fault>
    requires { windows.directions (map sort_of order.now) ≡ map direction_of directions.now }
    ensures in_order { IfOk result (λ placed. IsInWindowOrder (map direction_of directions.now) (keys_of placed.items)) }
    ensures same { IfOk result (λ placed. IsPermutation (tags_of entries.now) (tags_of placed.items)) }
    ensures ties { IfOk result (λ placed. AreAlike (tags_of entries.now) (tags_of placed.items)) }
    ensures keys { IfOk result (λ placed. (w : Datum) → keys_of placed.items ≡ map (term_values (eval w) (terms_of (map sort_of order.now))) (rows_of placed.items)) }
    ensures sequence { IfOk result (λ placed. (w : Datum) → rows_of placed.items ≡ windows.sequence (eval w) (map sort_of order.now) (rows_of entries.now)) }
    ensures overflow { result ≡ Err Fault.Overflow → Any (λ row. Any (λ t. Overflows t row) (terms_of (map sort_of order.now))) (rows_of entries.now) }
    ensures only { IfErr result (λ e. (e ≡ Fault.Overflow) ⊎ (e ≡ Fault.NoMemory)) }
{
    let mut placed = with_keys(alloc, order, entries)?;
    sort(directions, &mut placed)?;
    Ok(placed)
}
