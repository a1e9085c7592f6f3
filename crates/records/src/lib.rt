//! The record format of a SQLite database file. It promises that a view's fields are exactly the values of
//! the record that the bytes are; that every record is read unless memory runs out; that a fault is returned
//! only where the bytes have the condition that it names; and that a reader of single fields gives the same
//! values.
//!
//! The modules, in the order in which data passes them: `varints` (the numbers of a header), `texts` (in
//! UTF-8), `serials` (the value that a field's type and body encode), `reading` (a header's types, then the
//! fields after it), `view` (a record read in place), `fields` (its fields one after the other), `fault` (why
//! bytes are no record), and `laws`.
#![tactic(auto)]

mod fault;
mod fields;
pub mod laws;
mod reading;
mod serials;
mod texts;
mod varints;
mod view;

pub use fault::RecordFault;
pub use fields::FieldReader;
pub use varints::varint;
pub use view::RecordView;
