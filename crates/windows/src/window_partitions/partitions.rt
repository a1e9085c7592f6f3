//! The partitions of rows.
ghost use Rattle.std.specs.Prelude.{◌≡◌, ◌⊎◌, ◌<◌, ◌≤◌, ◌+◌, ℕ, Any, Err, IfErr, IfOk, length, map, slice_index};
ghost use Rattle.values.specs.Datum.{Datum, datum_of};
ghost use Rattle.expr.specs.Meaning.{Overflows, eval};
ghost use Rattle.expr.specs.View.{term};
ghost use Rattle.semantics.specs.Query as query;
ghost use Rattle.windows.specs.window_entries.Tags.{tags_of};
ghost use Rattle.windows.specs.window_partitions.Partition.{ArePartitions};

use crate::window_partitions::order::rows_in_order;
use expr::Expr;
use sql_reader_syntax::Direction;
use std::alloc::{AllocError, Global};
use values::{Fault, Value};
use windows_groups::{Entry, peer_groups};

/// Rows in partitions, one behind the other.
#[derive(Drop)]
pub struct Partitions<'a> {
    pub entries: Vec<Entry<'a>>,
    /// The first place of each partition, and the end.
    pub starts: Vec<usize>,
    ghost rises: { (g : ℕ) → g + 1 < length starts.items → slice_index starts.items g ≤ slice_index starts.items (g + 1) },
    ghost within: { (g : ℕ) → g < length starts.items → slice_index starts.items g ≤ length entries.items },
}

/// So many directions that ascend.
fn ascending(alloc: Global, count: usize) -> Result<Vec<Direction>, AllocError>
    ensures { IfOk result (λ directions. length directions.items ≡ count) }
{
    let first = Direction {
        descending: false,
        nulls_first: true,
    };
    vec![in alloc; first; count]
}

/// The rows of each partition, with their numbers among the rows that are given. Its faults are `Overflow`, where a term reaches
/// an operation out of range on a row, and `NoMemory`. (Window Functions, "The PARTITION BY Clause")
pub fn partitioned<'a>(
    alloc: Global,
    terms: &[Expr],
    rows: &'a [Vec<Value>],
) -> Result<Partitions<'a>, Fault>
    ensures parts { IfOk result (λ parts. (w : Datum) (window : query.Window) → window.partition ≡ map term terms.now
        → ArePartitions (eval w) window (map (λ row. map datum_of row.items) rows.now) (tags_of parts.entries.items) parts.starts.items) }
    ensures size { IfOk result (λ parts. length parts.entries.items ≡ length rows.now) }
    ensures overflow { result ≡ Err Fault.Overflow → Any (λ row. Any (λ t. Overflows t row) (map term terms.now)) (map (λ row. map datum_of row.items) rows.now) }
    ensures only { IfErr result (λ e. (e ≡ Fault.Overflow) ⊎ (e ≡ Fault.NoMemory)) }
{
    let directions = ascending(alloc, terms.len())?;
    let placed = rows_in_order(alloc, terms, directions.as_slice(), rows)?;
    let groups = peer_groups(alloc, directions.as_slice(), placed.as_slice())?;
    Ok(Partitions {
        entries: placed,
        starts: groups.starts,
    })
}
