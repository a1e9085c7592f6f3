//! Rows as lines.
ghost use Rattle.std.specs.Prelude.{◌≡◌, IfErr, map};
ghost use Rattle.std.specs.List.{flat_map, join_with_byte};
ghost use Rattle.values.specs.Datum.{datum_of, datum_of_ref};
ghost use Rattle.values.specs.Literal.{literal};
ghost use Rattle.values.specs.Sink.{Writes};
ghost use Rattle.explain.specs.Text.{after_comma, row_text, rows_text};

use crate::shown::Shown;
use values::{Fault, Row, Sink, Value, ValueRef, write_all};

fn write_after_comma<V: Shown, S: Sink>(value: &V, out: &mut S) -> Result<(), Fault>
    ensures only { IfErr result (λ e. e ≡ Fault.WriteFailed) }
    ensures writes { Writes (after_comma (V.datum value.now)) result (S.facts out.old) (S.facts out.new) }
{
    write_all(out, b",")?;
    value.write(out)
}

fn write_others<V: Shown, S: Sink>(values: &[V], out: &mut S) -> Result<(), Fault>
    ensures only { IfErr result (λ e. e ≡ Fault.WriteFailed) }
    ensures writes { Writes (flat_map (λ v. after_comma (V.datum v)) values.now) result
        (S.facts out.old) (S.facts out.new) }
{
    for value in values {
        write_after_comma(value, out)?;
    }
    Ok(())
}

fn write_values<V: Shown, S: Sink>(values: &[V], out: &mut S) -> Result<(), Fault>
    ensures only { IfErr result (λ e. e ≡ Fault.WriteFailed) }
    ensures writes { Writes (join_with_byte 44 (map literal (map V.datum values.now))) result
        (S.facts out.old) (S.facts out.new) }
{
    let Some((first, others)) = values.split_first() else {
        return Ok(());
    };
    first.write(out)?;
    write_others(others, out)
}

fn write_row<V: Shown, S: Sink>(values: &[V], out: &mut S) -> Result<(), Fault>
    ensures only { IfErr result (λ e. e ≡ Fault.WriteFailed) }
    ensures writes { Writes (row_text (map V.datum values.now)) result (S.facts out.old) (S.facts out.new) }
{
    write_values(values, out)?;
    write_all(out, b"\n")
}

/// Writes a row as its values' literals with commas between them, and a line feed; a header is a row of texts. Its one
/// fault is `WriteFailed`, after a beginning of the row's text; it takes no memory.
pub fn row_text<S: Sink>(values: &[ValueRef<'_>], out: &mut S) -> Result<(), Fault>
    ensures only { IfErr result (λ e. e ≡ Fault.WriteFailed) }
    ensures writes { Writes (row_text (map datum_of_ref values.now)) result (S.facts out.old) (S.facts out.new) }
{
    write_row(values, out)
}

/// Writes a row of values that hold their memory, as `row_text` does.
pub fn values_text<S: Sink>(row: &[Value], out: &mut S) -> Result<(), Fault>
    ensures only { IfErr result (λ e. e ≡ Fault.WriteFailed) }
    ensures writes { Writes (row_text (map datum_of row.now)) result (S.facts out.old) (S.facts out.new) }
{
    write_row(row, out)
}

/// Writes rows, each as one line. Its one fault is `WriteFailed`, after a beginning of the rows' text; it takes no
/// memory.
pub fn rows_text<S: Sink>(rows: &[Row], out: &mut S) -> Result<(), Fault>
    ensures only { IfErr result (λ e. e ≡ Fault.WriteFailed) }
    ensures writes { Writes (rows_text rows.now) result (S.facts out.old) (S.facts out.new) }
{
    for row in rows {
        write_row(row.as_slice(), out)?;
    }
    Ok(())
}
