//! Groups, as rows come.
ghost use Rattle.std.specs.Prelude.{◌≡◌, ◌⊎◌, ◌<◌, ◌≤◌, ◌+◌, ◌^◌, ◌++◌, [], ◌∷◌, Any, Err, IfErr, IfOk, IsTrue, OnOk, List, map, if◌then◌else◌};
ghost use Rattle.std.specs.List.{IsDistinct, list_any, position_or_len};
ghost use Rattle.values.specs.Datum.{Datum, datum_of};
ghost use Rattle.values.specs.Row as rows;
ghost use Rattle.semantics.specs.Times.{same_row};
ghost use Rattle.indexmap.specs.IndexSet.{insert_key};
ghost use Rattle.windows_groups.specs.aggregates.State.{states_after};
ghost use Rattle.windows_groups.specs.row_groups.GroupView.{GroupTermsData, group_terms_data};
ghost use Rattle.windows_groups.specs.row_groups.Gathered.{GivesRowAt, IsLeaving, gathered_rows, groups_in_order, ReachesIn};
ghost use Rattle.windows_groups.specs.row_groups.Kept.{AreGroupsOf, count_of, states_of};
ghost use Rattle.resolver_terms.specs.SelectView.{aggregate_of};

use crate::aggregates::{Accumulator, add_row, first_states, push_values};
use crate::row_groups::GroupTerms;
use crate::row_groups::terms::key_of;
use indexmap::IndexSet;
use resolver_terms::Aggregate;
use std::alloc::Global;
use values::{Fault, Row, Value};

/// The groups of the rows so far. (SELECT, "Generation of the set of result rows")
#[derive(Drop)]
pub struct Groups {
    /// The values of GROUP BY, each once, in the order in which they first came.
    keys: IndexSet<Row>,
    /// What is kept of the rows of each.
    states: Vec<Vec<Accumulator>>,
}

/// Puts the values of a row behind others.
fn push_copies(alloc: Global, values: &[Value], out: &mut Vec<Value>) -> Result<(), Fault>
    ensures values { OnOk result (map datum_of out.new.items ≡ map datum_of out.old.items ++ map datum_of values.now) }
    ensures only { IfErr result (λ e. e ≡ Fault.NoMemory) }
{
    for value in values {
        out.push(value.as_ref().to_value(alloc)?)?;
    }
    Ok(())
}

impl Groups {
    /// The groups of no rows: none, and without GROUP BY one.
    pub fn new(alloc: Global, terms: &GroupTerms) -> Result<Groups, Fault>
        ensures rows { IfOk result (λ groups. (w : Datum) → AreGroupsOf w (group_terms_data terms.now) groups []) }
        ensures few { IfOk result (λ groups. count_of groups ≤ 1) }
        ensures only { IfErr result (λ e. e ≡ Fault.NoMemory) }
    {
        let mut groups = Groups {
            keys: IndexSet::new(alloc),
            states: Vec::new(alloc),
        };
        if terms.by.is_empty() {
            groups.place_of(alloc, Row::new(alloc), terms.aggregates.as_slice())?;
        }
        Ok(groups)
    }

    /// Whether there is one group alone, that of all rows, whose key has no value, as this key has none.
    fn is_of_all(&self, key: &Row) -> bool
        ensures only { IsTrue result → (key.now ≡ []) × (self.now.keys.keys ≡ [] ∷ []) }
        ensures unique { IsDistinct same_row self.now.keys.keys }
    {
        if self.keys.len() != 1 || !key.is_empty() {
            return false;
        }
        match self.keys.get_index(0) {
            Some(only) => only.is_empty(),
            None => false,
        }
    }

    /// The place of the group with this key, which is made where there is none.
    fn place_of(
        &mut self,
        alloc: Global,
        key: Row,
        aggregates: &[Aggregate],
    ) -> Result<usize, Fault>
        ensures keys { OnOk result (self.new.keys.keys ≡ insert_key same_row self.old.keys.keys key) }
        ensures place { IfOk result (λ at. at ≡ position_or_len (same_row key) self.old.keys.keys) }
        ensures states { OnOk result ((w : Datum) → states_of self.new
            ≡ states_of self.old ++ (if list_any (same_row key) self.old.keys.keys then [] else (states_after w (map aggregate_of aggregates.now) [] ∷ []))) }
        ensures unique { OnOk result (IsDistinct same_row self.new.keys.keys) }
        ensures only { IfErr result (λ e. e ≡ Fault.NoMemory) }
    {
        if self.is_of_all(&key) {
            return Ok(0);
        }
        let (at, is_new) = self.keys.insert_full(key)?;
        if is_new {
            self.states.push(first_states(alloc, aggregates)?)?;
        }
        Ok(at)
    }

    /// Goes on by a row, whatever stands for results out of range. Its faults are `Overflow`, where a term reaches an operation
    /// out of range on it, and `NoMemory`.
    pub fn add(&mut self, alloc: Global, terms: &GroupTerms, row: &[Value]) -> Result<(), Fault>
        ensures rows { OnOk result ((w : Datum) (rows : List rows.Row) → AreGroupsOf w (group_terms_data terms.now) self.old rows
            → AreGroupsOf w (group_terms_data terms.now) self.new (rows ++ map datum_of row.now ∷ [])) }
        ensures few { OnOk result (count_of self.new ≤ count_of self.old + 1) }
        ensures overflow { result ≡ Err Fault.Overflow → ReachesIn (group_terms_data terms.now) (map datum_of row.now) }
        ensures only { IfErr result (λ e. (e ≡ Fault.Overflow) ⊎ (e ≡ Fault.NoMemory)) }
    {
        let key = key_of(alloc, terms.by.as_slice(), row)?;
        let at = self.place_of(alloc, key, terms.aggregates.as_slice())?;
        if at >= self.states.len() {
            return Ok(());
        }
        add_row(
            alloc,
            terms.aggregates.as_slice(),
            &mut self.states[at],
            row,
        )?;
        Ok(())
    }

    /// Puts the row of the group at a place into `out`, or tells that there is none: its key, and then its aggregates.
    /// `Overflow` comes only where an aggregate of a group leaves 64 bits; the one other fault is `NoMemory`.
    pub fn row_at(&self, alloc: Global, at: usize, out: &mut Vec<Value>) -> Result<bool, Fault>
        ensures row { IfOk result (λ found. (w : Datum) (terms : GroupTermsData) (rows : List rows.Row) → AreGroupsOf w terms self.now rows
            → GivesRowAt found (gathered_rows w terms rows) at (map datum_of out.new.items)) }
        ensures within { IfOk result (λ found. IsTrue found → at < count_of self.now) }
        ensures small { IfOk result (λ found. IsTrue found → at + 1 < 2 ^ 64) }
        ensures overflow { result ≡ Err Fault.Overflow → (w : Datum) (terms : GroupTermsData) (rows : List rows.Row) → AreGroupsOf w terms self.now rows
            → Any (IsLeaving w terms.aggregates) (groups_in_order w terms.by rows) }
        ensures only { IfErr result (λ e. (e ≡ Fault.Overflow) ⊎ (e ≡ Fault.NoMemory)) }
    {
        let Some(key) = self.keys.get_index(at) else {
            return Ok(false);
        };
        if at >= self.states.len() {
            return Ok(false);
        }
        out.clear();
        push_copies(alloc, key.as_slice(), out)?;
        push_values(alloc, self.states[at].as_slice(), out)?;
        Ok(true)
    }
}
