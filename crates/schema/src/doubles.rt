//! Names that two tables or indexes share.
ghost use Rattle.std.specs.Prelude.{◌↔◌, IfNone, IfSome, IsTrue, List, ℕ};
ghost use Rattle.std.specs.List.{Any};
ghost use Rattle.schema.specs.Says.{Doubled, HasTree};
ghost use Rattle.schema.specs.Taken.{HasName, RepeatsName, TakesName};

use crate::objects::{Kind, object_of};
use schema_keys::is_same_name;
use values::Row;

/// Whether what an object is has a tree.
fn has_tree(kind: Kind) -> bool
    ensures { IsTrue result ↔ HasTree kind }
{
    matches!(kind, Kind::Table | Kind::Index)
}

/// The name of the table or the index that a row says.
fn name_of(row: &Row) -> Option<&str>
    ensures found { IfSome result (λ name. HasName row.now name.now) }
    ensures none { IfNone result ((name : List ℕ) → ¬ HasName row.now name) }
{
    let object = object_of(row)?;
    if has_tree(object.kind) {
        Some(object.name)
    } else {
        None
    }
}

/// Whether a row is that of a table or an index of this name.
fn takes(row: &Row, name: &str) -> bool
    ensures { IsTrue result ↔ TakesName name.now row.now }
{
    match name_of(row) {
        Some(other) => is_same_name(other, name),
        None => false,
    }
}

/// Whether one of the rows is.
fn is_taken(rows: &[Row], name: &str) -> bool
    ensures { IsTrue result ↔ Any (TakesName name.now) rows.now }
{
    rows.iter().any(|row| takes(row, name))
}

/// Whether a row is that of a table or an index whose name one of these rows has.
fn repeats(before: &[Row], row: &Row) -> bool
    ensures { IsTrue result ↔ RepeatsName before.now row.now }
{
    match name_of(row) {
        Some(name) => is_taken(before, name),
        None => false,
    }
}

/// Whether two rows of tables or indexes have one name.
pub(crate) fn are_doubled(rows: &[Row]) -> bool
    ensures { IsTrue result ↔ Doubled rows.now }
{
    for (place, row) in rows.iter().enumerate() {
        if repeats(&rows[..place], row) {
            return true;
        }
    }
    false
}
