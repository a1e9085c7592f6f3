//! Columns of materialized rows, written one row after the other.
ghost use Rattle.std.specs.Prelude.{◌≡◌, ◌⊎◌, ◌∷◌, [], IfErr, IfOk, MatchResult, map};
ghost use Rattle.std.specs.Io.KnownBytes.{Appends};
ghost use Rattle.values.specs.Datum.{datum_of, datum_of_ref};
ghost use Rattle.values.specs.Fault.{Counts};
ghost use Rattle.explain.specs.Text.{row_text};
ghost use Rattle.semantics.specs.OneTable.{shown};
ghost use Rattle.values.specs.Row.{rows_data};
ghost use Rattle.semantics.specs.Sequence.{value_at};
ghost use Rattle.operators_runs.specs.Stream.{Streams, StreamsUntil};

use explain::row_text;
use std::alloc::{AllocError, Global};
use values::{Fault, Sink, Value, ValueRef};

/// The value at a place of a row, or NULL past its end.
fn value_shown(row: &[Value], at: usize) -> ValueRef<'_>
    ensures { datum_of_ref result ≡ value_at (map datum_of row.now) at }
{
    match row.get(at) {
        Some(value) => value.as_ref(),
        None => ValueRef::Null,
    }
}

/// Puts the values of these columns of a row in the place of others.
fn show_columns<'r>(
    row: &'r [Value],
    columns: &[usize],
    values: &mut Vec<ValueRef<'r>>,
) -> Result<(), AllocError>
    ensures { IfOk result (λ _. map datum_of_ref values.new.items ≡ shown columns.now (map datum_of row.now)) }
{
    values.clear();
    for column in columns {
        values.push(value_shown(row, *column))?;
    }
    Ok(())
}

/// Writes these columns of a row as a line. The values of the row before give place to its own. Its faults are `NoMemory` and
/// `WriteFailed`.
fn write_row<'r, W: Sink>(
    row: &'r [Value],
    columns: &[usize],
    values: &mut Vec<ValueRef<'r>>,
    out: &mut W,
) -> Result<(), Fault>
    ensures rows { MatchResult result
        (λ _. Appends (W.facts out.old).written (W.facts out.new).written (row_text (shown columns.now (map datum_of row.now))))
        (λ e. StreamsUntil e columns.now (map datum_of row.now ∷ []) (W.facts out.old) (W.facts out.new)) }
    ensures only { IfErr result (λ e. (e ≡ Fault.NoMemory) ⊎ (e ≡ Fault.WriteFailed)) }
    ensures writes { Counts Fault.WriteFailed result (W.facts out.old).failures (W.facts out.new).failures }
{
    show_columns(row, columns, values)?;
    row_text(values.as_slice(), out)
}

/// Writes kept rows as lines, each showing these columns, and counts them. A column that a row hasn't is NULL. Its faults are
/// `NoMemory` and `WriteFailed`.
pub(crate) fn write_kept<W: Sink>(
    alloc: Global,
    rows: &[Vec<Value>],
    columns: &[usize],
    out: &mut W,
) -> Result<u64, Fault>
    ensures rows { MatchResult result (λ counted. Streams columns.now (rows_data rows.now) counted (W.facts out.old) (W.facts out.new))
        (λ e. StreamsUntil e columns.now (rows_data rows.now) (W.facts out.old) (W.facts out.new)) }
    ensures only { IfErr result (λ e. (e ≡ Fault.NoMemory) ⊎ (e ≡ Fault.WriteFailed)) }
    ensures writes { Counts Fault.WriteFailed result (W.facts out.old).failures (W.facts out.new).failures }
{
    let mut values = Vec::new(alloc);
    for row in rows {
        write_row(row.as_slice(), columns, &mut values, out)?;
    }
    Ok(rows.len() as u64)
}
