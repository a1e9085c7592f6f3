//! The first rows in order, kept as they come.
ghost use Rattle.std.specs.Prelude.{◌≡◌, ◌++◌, [], ◌∷◌, IfOk, IsFalse, IsTrue, List, OnOk, length, map};
ghost use Rattle.std.specs.List.Sorted.{IsSortedBy};
ghost use Rattle.values.specs.Datum.{datum_of};
ghost use Rattle.values.specs.Row.{Row, rows_data};
ghost use Rattle.windows_groups.specs.declared.order.ResultKey.{ResultKey as KeyData};
ghost use Rattle.windows_groups.specs.Firsts.{BeginsAll, HasRoom, IsBehind, at_most};
ghost use Rattle.windows_groups.specs.FirstView.{FewAreKept, KeepsFirst};
ghost use Rattle.windows_groups.specs.Keys.{comes_before};

use crate::order::{ResultKey, compare_rows, sort_rows};
use std::alloc::{AllocError, Global};
use values::Value;

/// So many rows at least are gathered before they are put in order.
pub const LEAST_GATHERED: usize = 64;

/// The first rows in order of those that came, as many as are looked for.
#[derive(Drop)]
pub struct FirstInOrder {
    /// How many are looked for, if not all.
    most: Option<usize>,
    /// The first of those that were put in order.
    first: Vec<Vec<Value>>,
    /// Those that came since.
    more: Vec<Vec<Value>>,
}

/// Leaves as many rows as are looked for.
fn cut(rows: &mut Vec<Vec<Value>>, most: Option<usize>)
    ensures { rows.new.items ≡ at_most most rows.old.items }
{
    if let Some(most) = most {
        rows.truncate(most);
    }
}

impl FirstInOrder {
    /// None came.
    pub fn new(alloc: Global, most: Option<usize>) -> FirstInOrder
        ensures most { result.most ≡ most }
        ensures few { FewAreKept result }
        ensures none { (order : List KeyData) → KeepsFirst order result [] }
    {
        FirstInOrder {
            most,
            first: Vec::new(alloc),
            more: Vec::new(alloc),
        }
    }

    /// Whether as many rows as are looked for come before this one, or tie with it.
    fn is_behind(&self, order: &[ResultKey], row: &[Value]) -> bool
        ensures { IsTrue result → (more : List Row) → IsSortedBy (comes_before order.now) (rows_data self.now.first.items)
            → IsBehind (comes_before order.now) self.now.most (rows_data self.now.first.items ++ more) (map datum_of row.now) }
    {
        let Some(most) = self.most else {
            return false;
        };
        let Some(last) = self.first.last() else {
            return false;
        };
        if self.first.len() < most {
            return false;
        }
        compare_rows(order, row, last.as_slice()).is_ge()
    }

    /// Whether so many rows came that those behind are let go.
    fn is_full(&self) -> bool
        ensures { IsFalse result → HasRoom self.now.most (length self.now.more.items) }
    {
        match self.most {
            Some(most) => self.more.len() >= most.max(LEAST_GATHERED),
            None => false,
        }
    }

    /// Puts what is kept in order, and lets those go that aren't looked for.
    fn put_in_order(&mut self, order: &[ResultKey]) -> Result<(), AllocError>
        ensures most { self.new.most ≡ self.old.most }
        ensures rest { OnOk result (self.new.more.items ≡ []) }
        ensures few { OnOk result (FewAreKept self.new) }
        ensures kept { OnOk result ((all : List Row) → KeepsFirst order.now self.old all → KeepsFirst order.now self.new all) }
    {
        self.first.append(&mut self.more)?;
        sort_rows(order, &mut self.first)?;
        cut(&mut self.first, self.most);
        Ok(())
    }

    /// One more came. Where it isn't kept, its memory comes back.
    pub fn push(
        &mut self,
        alloc: Global,
        order: &[ResultKey],
        row: Vec<Value>,
    ) -> Result<Vec<Value>, AllocError>
        ensures most { self.new.most ≡ self.old.most }
        ensures few { FewAreKept self.old → OnOk result (FewAreKept self.new) }
        ensures kept { OnOk result ((all : List Row) → KeepsFirst order.now self.old all → KeepsFirst order.now self.new (all ++ map datum_of row.items ∷ [])) }
    {
        if self.is_behind(order, row.as_slice()) {
            return Ok(row);
        }
        self.more.push(row)?;
        if !self.is_full() {
            return Ok(Vec::new(alloc));
        }
        self.put_in_order(order)?;
        Ok(Vec::new(alloc))
    }

    /// The rows that are kept, in order.
    pub fn in_order(self, order: &[ResultKey]) -> Result<Vec<Vec<Value>>, AllocError>
        ensures { IfOk result (λ rows. (all : List Row) → KeepsFirst order.now self all
            → BeginsAll (comes_before order.now) self.most (rows_data rows.items) all) }
    {
        let mut kept = self;
        kept.put_in_order(order)?;
        Ok(kept.first)
    }
}
