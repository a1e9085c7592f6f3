//! The first different rows in order, kept as they come.
ghost use Rattle.std.specs.Prelude.{◌≡◌, ◌++◌, ◌∷◌, [], IfOk, IsFalse, IsTrue, List, OnOk, length, map};
ghost use Rattle.std.specs.List.Sorted.{IsSortedBy};
ghost use Rattle.values.specs.Datum.{Datum, datum_of};
ghost use Rattle.windows_groups.specs.declared.order.ResultKey.{ResultKey as KeyData};
ghost use Rattle.values.specs.Row.{rows_data};
ghost use Rattle.windows_groups.specs.Firsts.{BeginsAll, HasRoom, IsBehind, at_most};
ghost use Rattle.windows_groups.specs.Keys.{comes_before};
ghost use Rattle.windows_groups.specs.distinct_rows.Firsts.{firsts};
ghost use Rattle.windows_groups.specs.distinct_rows.OnceView.{FewAreKeptOnce, KeepsOnce, first_of, more_of};

use crate::distinct_rows::sets::rows_of;
use crate::{LEAST_GATHERED, ResultKey, compare_rows, sort_rows};
use indexmap::IndexSet;
use std::alloc::{AllocError, Global};
use values::{Row, Value};

/// The first in order of the different rows that came, as many as are looked for.
#[derive(Drop)]
pub struct DistinctInOrder {
    /// How many are looked for, if not all.
    most: Option<usize>,
    /// The first of those that were put in order, and behind them those that came since.
    kept: IndexSet<Row>,
    /// How many of these were put in order.
    ordered: usize,
}

/// Leaves as many rows as are looked for.
fn cut(rows: &mut IndexSet<Row>, most: Option<usize>)
    ensures { rows.new.keys ≡ at_most most rows.old.keys }
{
    if let Some(most) = most {
        rows.truncate(most);
    }
}

impl DistinctInOrder {
    /// None came.
    pub fn new(alloc: Global, most: Option<usize>) -> DistinctInOrder
        ensures most { result.most ≡ most }
        ensures few { FewAreKeptOnce result }
        ensures none { (order : List KeyData) → KeepsOnce order result [] }
    {
        DistinctInOrder {
            most,
            kept: IndexSet::new(alloc),
            ordered: 0,
        }
    }

    /// Whether as many of the rows that were put in order as are looked for come before this one, or tie with it.
    fn is_behind(&self, order: &[ResultKey], row: &[Value]) -> bool
        ensures behind { IsTrue result → IsSortedBy (comes_before order.now) (first_of self.now)
            → IsBehind (comes_before order.now) self.now.most (first_of self.now) (map datum_of row.now) }
        ensures ahead { IsFalse result → IsSortedBy (comes_before order.now) (first_of self.now)
            → IsBehind (comes_before order.now) self.now.most (first_of self.now) (map datum_of row.now) → ⊥ }
    {
        let Some(most) = self.most else {
            return false;
        };
        if self.ordered < most {
            return false;
        }
        let Some(at) = most.checked_sub(1) else {
            return true;
        };
        match self.kept.get_index(at) {
            Some(last) => compare_rows(order, row, last.as_slice()).is_ge(),
            None => false,
        }
    }

    /// Whether so many rows came that those behind are let go.
    fn is_full(&self) -> bool
        ensures { IsFalse result → HasRoom self.now.most (length (more_of self.now)) }
    {
        match self.most {
            Some(most) => self.kept.len().saturating_sub(self.ordered) >= most.max(LEAST_GATHERED),
            None => false,
        }
    }

    /// Puts what is kept in order, and lets those go that aren't looked for.
    fn put_in_order(&mut self, order: &[ResultKey]) -> Result<(), AllocError>
        ensures most { self.new.most ≡ self.old.most }
        ensures few { OnOk result (FewAreKeptOnce self.new) }
        ensures kept { OnOk result ((came : List (List Datum)) → KeepsOnce order.now self.old came → KeepsOnce order.now self.new came) }
    {
        self.kept
            .sort_by(|a, b| compare_rows(order, a.as_slice(), b.as_slice()))?;
        cut(&mut self.kept, self.most);
        self.ordered = self.kept.len();
        Ok(())
    }

    /// One more came. Where it isn't kept, its memory comes back.
    pub fn push(
        &mut self,
        alloc: Global,
        order: &[ResultKey],
        row: Vec<Value>,
    ) -> Result<Vec<Value>, AllocError>
        ensures most { self.new.most ≡ self.old.most }
        ensures few { FewAreKeptOnce self.old → OnOk result (FewAreKeptOnce self.new) }
        ensures kept { OnOk result ((came : List (List Datum)) → KeepsOnce order.now self.old came
            → KeepsOnce order.now self.new (came ++ map datum_of row.items ∷ [])) }
    {
        if self.is_behind(order, row.as_slice()) {
            return Ok(row);
        }
        let row = Row::from(row);
        if self.kept.contains(&row) {
            return Ok(row.into_values());
        }
        self.kept.insert(row)?;
        if !self.is_full() {
            return Ok(Vec::new(alloc));
        }
        self.put_in_order(order)?;
        Ok(Vec::new(alloc))
    }

    /// The rows that are kept, in order.
    pub fn in_order(self, alloc: Global, order: &[ResultKey]) -> Result<Vec<Vec<Value>>, AllocError>
        ensures { IfOk result (λ rows. (came : List (List Datum)) → KeepsOnce order.now self came
            → BeginsAll (comes_before order.now) self.most (rows_data rows.items) (firsts came)) }
    {
        let DistinctInOrder { kept, .. } = self;
        let mut rows = rows_of(alloc, kept)?;
        sort_rows(order, &mut rows)?;
        Ok(rows)
    }
}
