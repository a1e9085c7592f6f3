//! The object that a row of the schema describes. (The Schema Table)
ghost use Rattle.std.specs.Prelude.{◌≡◌, ◌≤◌, ℕ, ℤ, pos, IfNone, IfSome, List, Option, Some, option_map};
ghost use Rattle.values.specs.Datum.{datum_of};
ghost use Rattle.schema.specs.Objects.{ObjectData, int_or_null, kind_name, object_row, text_or_null};
ghost use Rattle.schema.specs.ObjectView.{object_data};

use values::{Row, Value};

/// What an object is.
#[derive(Clone, Copy)]
pub(crate) enum Kind {
    Table,
    Index,
    View,
    Trigger,
}

/// What a row of the schema has: what its object is, its name, the name of its table, the page at the root of its tree, and
/// its text.
#[derive(Drop)]
pub(crate) struct Object<'r> {
    pub(crate) kind: Kind,
    pub(crate) name: &'r str,
    pub(crate) owner: &'r str,
    pub(crate) root: Option<i64>,
    pub(crate) sql: Option<&'r str>,
}

/// What a word says that an object is.
fn kind_of(word: &str) -> Option<Kind>
    ensures found { IfSome result (λ kind. word.now ≡ kind_name kind) }
    ensures none { IfNone result ((kind : Kind) → ¬ (word.now ≡ kind_name kind)) }
{
    if word == "table" {
        Some(Kind::Table)
    } else if word == "index" {
        Some(Kind::Index)
    } else if word == "view" {
        Some(Kind::View)
    } else if word == "trigger" {
        Some(Kind::Trigger)
    } else {
        None
    }
}

/// The number that a value is, or that it is NULL; `None` where it is neither.
fn number_of(value: &Value) -> Option<Option<i64>>
    ensures found { IfSome result (λ number. datum_of value.now ≡ int_or_null number) }
    ensures none { IfNone result ((number : Option ℤ) → ¬ (datum_of value.now ≡ int_or_null number)) }
{
    match value {
        Value::Null => Some(None),
        Value::Int(number) => Some(Some(*number)),
        Value::Text(_) | Value::Blob(_) => None,
    }
}

/// The text that a value is, or that it is NULL; `None` where it is neither.
fn text_of(value: &Value) -> Option<Option<&str>>
    ensures found { IfSome result (λ text. datum_of value.now ≡ text_or_null (option_map (λ t. t.now) text)) }
    ensures none { IfNone result ((text : Option (List ℕ)) → ¬ (datum_of value.now ≡ text_or_null text)) }
{
    match value {
        Value::Null => Some(None),
        Value::Text(text) => Some(Some(text.as_str())),
        Value::Int(_) | Value::Blob(_) => None,
    }
}

/// The object whose row this is; `None` where it is that of none.
pub(crate) fn object_of(row: &Row) -> Option<Object<'_>>
    ensures found { IfSome result (λ object. row.now ≡ object_row (object_data object)) }
    ensures none { IfNone result ((object : ObjectData) → ¬ (row.now ≡ object_row object)) }
{
    let [kind, name, owner, root, sql] = row.as_slice() else {
        return None;
    };
    let (Value::Text(kind), Value::Text(name), Value::Text(owner)) = (kind, name, owner) else {
        return None;
    };
    let kind = kind_of(kind.as_str())?;
    let root = number_of(root)?;
    let sql = text_of(sql)?;
    Some(Object {
        kind,
        name: name.as_str(),
        owner: owner.as_str(),
        root,
        sql,
    })
}

/// The root that a row gives, of an image of so many pages; `None` where it is the first page, none of the image, or NULL.
pub(crate) fn root_within(root: Option<i64>, pages: u32) -> Option<u32>
    ensures found { IfSome result (λ page. (root ≡ Some (pos page)) × (2 ≤ page) × (page ≤ pages)) }
    ensures none { IfNone result ((page : ℕ) → 2 ≤ page → page ≤ pages → ¬ (root ≡ Some (pos page))) }
{
    match u32::try_from(root?) {
        Ok(page) if (2..=pages).contains(&page) => Some(page),
        _ => None,
    }
}
