//! Searches of tables and indexes that are stored: the rows of a table, or the entries of an index, that meet a
//! range of values, one by one, and the row of its table that an entry leads to. It promises that exactly those
//! that meet the range are given, in the order of the tree; that none is where a bound is NULL, and no page is
//! asked for then; that the row of an entry is the one with its rowid or its PRIMARY KEY; and that a search
//! asks for no more pages than a way down to a leaf or two, one more level for each step and one way down for
//! each row that an entry leads to.
//!
//! The modules, in the order in which data passes them: `ranges` (the values of the bounds, whose memory is
//! kept from one opening to the next), `meets` (whether an entry meets a range), `row_cuts` (a position among
//! the rows of a table), `seeks` (a cursor at the first that doesn't come before a range), `finders` (how an
//! entry leads to its row), `fetches` (the row that it leads to), `cells` (the cell at a search's position),
//! `search` (the rows or entries that meet a range, one by one), `depths` (the levels of pages that a search
//! goes through, as the choice of a path counts them) and `laws`.
#![tactic(auto)]

mod cells;
mod depths;
mod fetches;
mod finders;
pub mod laws;
mod meets;
mod ranges;
mod row_cuts;
mod search;
mod seeks;

pub use depths::SearchDepths;
pub use finders::{RowFinder, RowIndex};
pub use ranges::{BoundKind, RangeShape, RangeValues};
pub use search::{first_of_index, first_of_table, index_row, next_entry, table_row};
