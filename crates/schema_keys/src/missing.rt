//! What a row has in a column that was added after it was written. (ALTER TABLE ADD COLUMN)
ghost use Rattle.std.specs.Prelude.{◌≡◌, map};
ghost use Rattle.sql_reader_grammar.specs.create_trees.CreateView.{constraint_of, default_of};
ghost use Rattle.schema_keys.specs.Missing.{IsMissingValue, filled, missing_behind};
ghost use Rattle.schema_tables.specs.MissingView.{missing_of};

use schema_tables::Missing;
use sql_reader_grammar::{ColumnConstraint, DefaultValue};
use values::Value;

/// What older rows have by this DEFAULT.
fn filled_by(value: DefaultValue) -> Missing
    ensures { missing_of result ≡ filled (default_of value) }
{
    match value {
        DefaultValue::Null => Missing::Fill(Value::Null),
        DefaultValue::Number(number) => Missing::Fill(Value::Int(number)),
        DefaultValue::Negative(number) if number < 0 => Missing::Refused,
        DefaultValue::Negative(number) => Missing::Fill(Value::Int(-number)),
        DefaultValue::Text(content) => Missing::Fill(Value::Text(content)),
        DefaultValue::Blob(bytes) => Missing::Fill(Value::Blob(bytes)),
        DefaultValue::Expression => Missing::Refused,
    }
}

/// What older rows have where one constraint more was read, if they had this before it.
fn missing_after(missing: Missing, constraint: ColumnConstraint) -> Missing
    ensures { missing_of result ≡ missing_behind (missing_of missing) (constraint_of constraint) }
{
    match constraint {
        ColumnConstraint::Default(value) => filled_by(value),
        _ => missing,
    }
}

/// What older rows have by the last DEFAULT of these constraints, or NULL where there is none.
pub(crate) fn missing_by(constraints: Vec<ColumnConstraint>) -> Missing
    ensures { IsMissingValue (map constraint_of constraints.items) (missing_of result) }
{
    let mut missing = Missing::Fill(Value::Null);
    for constraint in constraints {
        missing = missing_after(missing, constraint);
    }
    missing
}
