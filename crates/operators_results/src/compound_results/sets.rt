//! Rows, each once, and marks of those that were met.
ghost use Rattle.std.specs.Prelude.{◌≡◌, ◌++◌, ◌∷◌, [], IfOk, List, OnOk, drop, map};
ghost use Rattle.std.specs.List.{IsDistinct};
ghost use Rattle.values.specs.Datum.{datum_of};
ghost use Rattle.values.specs.Row.{Row as RowData};
ghost use Rattle.indexmap.specs.IndexSet.{insert_key};
ghost use Rattle.semantics.specs.Times.{same_row};
ghost use Rattle.logical_plan.specs.answers.Joined.{has_row, is_kept};
ghost use Rattle.logical_plan.specs.answers.Joined as joining;

use indexmap::IndexSet;
use std::alloc::{AllocError, Global};
use values::{Row, Value};

/// Puts a row into a set. Where the set has it already, its memory comes back.
pub(crate) fn put_row(
    alloc: Global,
    set: &mut IndexSet<Row>,
    values: Vec<Value>,
) -> Result<Vec<Value>, AllocError>
    ensures { OnOk result (set.new.keys ≡ insert_key same_row set.old.keys (map datum_of values.items)) }
{
    let row = Row::from(values);
    if set.contains(&row) {
        return Ok(row.into_values());
    }
    set.insert(row)?;
    Ok(Vec::new(alloc))
}

/// A mark for each row of a set, of which none was met.
pub(crate) fn no_marks(alloc: Global, set: &IndexSet<Row>) -> Result<Vec<bool>, AllocError>
    ensures marks { IfOk result (λ marks. marks.items ≡ map (has_row []) set.now.keys) }
    ensures once { IfOk result (λ _. IsDistinct same_row set.now.keys) }
{
    let marks = vec![in alloc; false; set.len()]?;
    Ok(marks)
}

/// Marks the row of a set that this one is equal to, if there is one; NULLs count as equal.
pub(crate) fn mark_row(set: &IndexSet<Row>, row: &Row, marks: &mut Vec<bool>)
    requires { IsDistinct same_row set.now.keys }
    ensures { (rows : List RowData) → marks.old.items ≡ map (has_row rows) set.now.keys
        → marks.new.items ≡ map (has_row (rows ++ row.now ∷ [])) set.now.keys }
{
    if let Some(at) = set.get_index_of(row) {
        if at < marks.len() {
            marks[at] = true;
        }
    }
}

/// Leaves in a set the rows that are marked, or those that aren't, as it is wanted.
pub(crate) fn keep_marked(set: &mut IndexSet<Row>, marks: &[bool], wanted: bool)
    ensures { (others : List RowData) → marks.now ≡ map (has_row others) set.old.keys → set.new.keys ≡ joining.filtered wanted set.old.keys others }
{
    let mut rest = marks;
    set.retain(
        move |_row: &Row| -> bool
            ensures answer { result ≡ is_kept wanted rest.entry.now }
            ensures behind { rest.exit.now ≡ drop 1 rest.entry.now }
        {
            match rest.split_first() {
                Some((mark, others)) => {
                    rest = others;
                    if wanted { *mark } else { !*mark }
                }
                None => false,
            }
        },
    );
}
