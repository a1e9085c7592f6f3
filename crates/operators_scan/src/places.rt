//! Tables, and lists of materialized rows, by their positions.
ghost use Rattle.std.specs.Prelude.{◌≡◌, ◌<◌, Some, length, slice_get};
ghost use Rattle.operators_scan.specs.SourceData.{source_data};
ghost use Rattle.logical_plan.specs.answers.Sources.{sources_of};

use schema_tables::Table;
use std::marker::Model;
use values::Value;

/// What rows are read of.
#[derive(Drop)]
pub enum RowSource<'a> {
    /// A table of the catalog.
    Stored(&'a Table),
    /// Rows that are kept in memory.
    Kept(&'a [Vec<Value>]),
}

/// The tables of the catalog, and behind them the lists of rows that are kept in memory.
#[derive(Drop)]
pub struct Sources<'a> {
    tables: &'a [Table],
    kept: &'a [Vec<Vec<Value>>],
}

impl<'a> Model for Sources<'a> {
    ghost use Rattle.std.specs.Prelude.{List};
    ghost use Rattle.logical_plan.specs.answers.Sources.{SourceData, sources_of};

    ghost Value = { List SourceData };

    ghost view = { λ s. sources_of s.tables.now s.kept.now };
}

impl<'a> Sources<'a> {
    /// These tables, and behind them these lists of rows.
    pub fn new(tables: &'a [Table], kept: &'a [Vec<Vec<Value>>]) -> Sources<'a>
        ensures { result ≡ sources_of tables.now kept.now }
    {
        Sources { tables, kept }
    }

    /// What stands at a place.
    pub fn at(&self, place: usize) -> RowSource<'a>
        requires { place < length self.now }
        ensures { slice_get self.now place ≡ Some (source_data result) }
    {
        match self.tables.get(place) {
            Some(table) => RowSource::Stored(table),
            None => RowSource::Kept(self.kept[place - self.tables.len()].as_slice()),
        }
    }
}
