//! A row of values.
ghost use Rattle.std.specs.Prelude.{◌≡◌, ◌<◌, ◌↔◌, ◌++◌, ◌∷◌, [], IfOk, IsTrue, OnErr, OnOk, length, map, Some, slice_get};
ghost use Rattle.values.specs.Datum.{datum_of};

use crate::Value;
use std::alloc::{AllocError, Global};
use std::cmp::Ordering;
use std::hash::{Hash, Hasher};
use std::marker::Model;

/// The values of a row, in the order of its columns. Rows are compared value by value, so they serve as keys.
#[derive(Clone, Debug, Drop)]
pub struct Row {
    values: Vec<Value>,
}

impl Model for Row {
    ghost use Rattle.std.specs.Prelude.{List, map};
    ghost use Rattle.values.specs.Datum.{Datum, datum_of};

    ghost Value = { List Datum };

    ghost view = { λ r. map datum_of r.values.items };
}

impl From<Vec<Value>> for Row {
    ghost use Rattle.std.specs.Prelude.{◌≡◌, map};
    ghost use Rattle.values.specs.Datum.{datum_of};

    ghost from_gives = { λ values row. row ≡ map datum_of values.items };

    fn from(values: Vec<Value>) -> Row {
        Row { values }
    }
}

impl Row {
    /// A row of no values.
    pub fn new(alloc: Global) -> Row
        ensures { result ≡ [] }
    {
        Row {
            values: Vec::new(alloc),
        }
    }

    /// A row of no values, with room for so many.
    pub fn with_capacity(alloc: Global, count: usize) -> Result<Row, AllocError>
        ensures { IfOk result (λ row. row ≡ []) }
    {
        let values = Vec::with_capacity(alloc, count)?;
        Ok(Row { values })
    }

    /// Puts a value behind the others. An error leaves the row as it was.
    pub fn push(&mut self, value: Value) -> Result<(), AllocError>
        ensures ok { OnOk result (self.new ≡ self.old ++ datum_of value ∷ []) }
        ensures err { OnErr result (self.new ≡ self.old) }
    {
        self.values.push(value)?;
        Ok(())
    }

    /// How many values the row has.
    pub fn len(&self) -> usize
        ensures { result ≡ length self.now }
    {
        self.values.len()
    }

    /// Whether the row has no value.
    pub fn is_empty(&self) -> bool
        ensures { IsTrue result ↔ (self.now ≡ []) }
    {
        self.values.is_empty()
    }

    /// The values, in the order of the columns.
    pub fn as_slice(&self) -> &[Value]
        ensures { map datum_of result.now ≡ self.now }
    {
        self.values.as_slice()
    }

    /// The value of a column.
    pub fn value(&self, column: usize) -> &Value
        requires { column < length self.now }
        ensures { slice_get self.now column ≡ Some (datum_of result.now) }
    {
        &self.values[column]
    }

    /// The values, without the row.
    pub fn into_values(self) -> Vec<Value>
        ensures { map datum_of result.items ≡ self }
    {
        let Row { values } = self;
        values
    }
}

impl PartialEq for Row {
    ghost use Rattle.std.specs.Cmp.{partial_equiv_from_equiv};
    ghost use Rattle.std.specs.Ordering.{eq_by_cmp};
    ghost use Rattle.values.specs.Order.{row_cmp};
    ghost use Rattle.values.specs.OrderLaws.{row_eq-IsEquivalence};

    ghost eq = { eq_by_cmp row_cmp };

    ghost laws = { partial_equiv_from_equiv row_eq-IsEquivalence };

    fn eq(&self, other: &Row) -> bool {
        self.values == other.values
    }
}

impl Eq for Row {
    ghost use Rattle.values.specs.OrderLaws.{row_eq-IsEquivalence};

    ghost laws = { row_eq-IsEquivalence };
}

impl Ord for Row {
    ghost use Rattle.std.specs.Prelude.{refl};
    ghost use Rattle.values.specs.Order.{row_cmp};
    ghost use Rattle.values.specs.OrderLaws.{row_cmp_total};

    ghost cmp = { row_cmp };

    ghost total = { row_cmp_total };

    ghost matches_partial_cmp = { λ _ _. refl };

    ghost matches_eq = { λ _ _. refl };

    fn cmp(&self, other: &Row) -> Ordering {
        self.values.cmp(&other.values)
    }
}

impl PartialOrd for Row {
    ghost use Rattle.std.specs.Prelude.{refl};
    ghost use Rattle.std.specs.Cmp.{po};
    ghost use Rattle.std.specs.Ordering.{as_partial_cmp};
    ghost use Rattle.values.specs.Order.{row_cmp};
    ghost use Rattle.values.specs.OrderLaws.{row_cmp_total};

    ghost partial_cmp = { as_partial_cmp row_cmp };

    ghost laws = { po row_cmp_total (λ _ _. refl) };

    fn partial_cmp(&self, other: &Row) -> Option<Ordering> {
        Some(self.cmp(other))
    }
}

impl Hash for Row {
    ghost use Rattle.values.specs.Hashed.{row_hash};
    ghost use Rattle.values.specs.OrderLaws.{row_hash-row_eq};

    ghost hash_input = { row_hash };

    ghost respects_eq = { row_hash-row_eq };

    fn hash<H: Hasher>(&self, state: &mut H) {
        self.values.hash(state);
    }
}
