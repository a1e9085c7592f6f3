//! What holds of the definitions alone.
ghost use Rattle.std.specs.Prelude.{◌≡◌, ◌↔◌, IsTrue, List};
ghost use Rattle.std.specs.Cmp.{IsTotalOrder};
ghost use Rattle.std.specs.FinMap.{IsAntisymmetric};
ghost use Rattle.values.specs.Datum.{Datum};
ghost use Rattle.values.specs.Order.{datum_cmp, row_cmp};

use crate::Row;

/// The order of values is total, and only equal values tie.
pub fn order_of_values()
    ensures total { IsTotalOrder datum_cmp }
    ensures ties { IsAntisymmetric datum_cmp }
{}

/// The order of rows is total, and only equal rows tie.
pub fn order_of_rows()
    ensures total { IsTotalOrder row_cmp }
    ensures ties { IsAntisymmetric row_cmp }
{}

/// Rows are equal by `==` where they are one row.
pub fn equality_of_rows()
    ensures { (a b : List Datum) → IsTrue (⟦<Row as PartialEq>⟧.eq a b) ↔ (a ≡ b) }
{}
