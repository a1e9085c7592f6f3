//! A value of a table.
ghost use Rattle.std.specs.Prelude.{◌≡◌, IfOk};
ghost use Rattle.values.specs.Datum.{datum_of, datum_of_ref, type_of};
ghost use Rattle.values.specs.Order.{datum_cmp};

use std::alloc::{AllocError, Global};
use std::cmp::Ordering;

/// A value as a program holds it. Floats have no variant: an image that stores one is refused.
#[derive(Clone, Debug, Drop, PartialEq, Eq, PartialOrd, Ord, Hash)]
pub enum Value {
    Null,
    Int(i64),
    Text(String),
    Blob(Vec<u8>),
}

/// A value whose text or blob lies elsewhere, as in a page.
#[derive(Clone, Copy, Debug, Default, PartialEq, Eq, PartialOrd, Ord)]
pub enum ValueRef<'a> {
    #[default]
    Null,
    Int(i64),
    Text(&'a str),
    Blob(&'a [u8]),
}

/// The type of a value, or of an expression before it is computed.
#[derive(Clone, Copy, Debug, PartialEq, Eq, Hash)]
pub enum Ty {
    Int,
    Text,
    Blob,
    Null,
}

impl Value {
    /// The same value, whose bytes are borrowed from this one.
    #[inline]
    pub fn as_ref(&self) -> ValueRef<'_>
        ensures { datum_of_ref result ≡ datum_of self.now }
    {
        match self {
            Value::Null => ValueRef::Null,
            Value::Int(number) => ValueRef::Int(*number),
            Value::Text(text) => ValueRef::Text(text.as_str()),
            Value::Blob(bytes) => ValueRef::Blob(bytes.as_slice()),
        }
    }

    /// The type of this value.
    pub fn ty(&self) -> Ty
        ensures { result ≡ type_of (datum_of self.now) }
    {
        match self {
            Value::Null => Ty::Null,
            Value::Int(_) => Ty::Int,
            Value::Text(_) => Ty::Text,
            Value::Blob(_) => Ty::Blob,
        }
    }
}

impl<'a> ValueRef<'a> {
    /// The same value in memory of its own.
    pub fn to_value(self, alloc: Global) -> Result<Value, AllocError>
        ensures { IfOk result (λ value. datum_of value ≡ datum_of_ref self.entry) }
    {
        match self {
            ValueRef::Null => Ok(Value::Null),
            ValueRef::Int(number) => Ok(Value::Int(number)),
            ValueRef::Text(text) => Ok(Value::Text(String::from_str(alloc, text)?)),
            ValueRef::Blob(bytes) => Ok(Value::Blob(Vec::from_slice(alloc, bytes)?)),
        }
    }

    /// The type of this value.
    pub fn ty(self) -> Ty
        ensures { result ≡ type_of (datum_of_ref self.entry) }
    {
        match self {
            ValueRef::Null => Ty::Null,
            ValueRef::Int(_) => Ty::Int,
            ValueRef::Text(_) => Ty::Text,
            ValueRef::Blob(_) => Ty::Blob,
        }
    }
}

/// NULL first, then integers, texts and blobs; texts and blobs by their bytes. (Datatypes In SQLite, section 4.1)
pub fn compare(a: &Value, b: &Value) -> Ordering
    ensures { result ≡ datum_cmp (datum_of a.now) (datum_of b.now) }
{
    a.cmp(b)
}
