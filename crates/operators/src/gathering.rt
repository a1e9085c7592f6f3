//! Groups, and how many of them were given.
ghost use Rattle.std.specs.Prelude.{◌≡◌, ◌⊎◌, ◌-◌, ◌<◌, IfErr, IfOk, IsTrue, List, MatchResult, map};
ghost use Rattle.values.specs.Datum.{datum_of};
ghost use Rattle.values.specs.Row.{Row};
ghost use Rattle.windows_groups.specs.row_groups.GroupView.{GroupTermsData};
ghost use Rattle.windows_groups.specs.row_groups.Kept.{count_of};
ghost use Rattle.operators_loops.specs.Basis.{IsCause, Basis};
ghost use Rattle.operators.specs.Left.{GivesGroup, IsGivingLeft};

use std::alloc::Global;
use values::{Fault, Value};
use windows_groups::Groups;

/// Whether the rows below were gathered, and how many of their groups were given.
#[derive(Drop)]
pub enum Gathering {
    Waiting,
    Giving(Groups, usize),
}

/// Goes on to the row of the next group, which `row` then holds. Its faults are `Overflow`, where an aggregate of a group leaves
/// 64 bits, and `NoMemory`.
pub(crate) fn give(
    alloc: Global,
    groups: &Groups,
    at: &mut usize,
    row: &mut Vec<Value>,
) -> Result<bool, Fault>
    ensures rows { (on : Basis) (terms : GroupTermsData) (rest : List Row) → IsGivingLeft on terms groups.now at.old rest
        → MatchResult result
        (λ found. GivesGroup found rest (map datum_of row.new.items) (IsGivingLeft on terms groups.now at.new))
        (IsCause on) }
    ensures left { IfOk result (λ found. IsTrue found → count_of groups.now - at.new < count_of groups.now - at.old) }
    ensures only { IfErr result (λ e. (e ≡ Fault.Overflow) ⊎ (e ≡ Fault.NoMemory)) }
{
    if !groups.row_at(alloc, *at, row)? {
        return Ok(false);
    }
    *at += 1;
    Ok(true)
}
