//! What follows from the definitions alone.
ghost use Rattle.std.specs.Prelude.{IsPermutation, List, map};
ghost use Rattle.std.specs.List.{filter};
ghost use Rattle.values.specs.Row.{Row};
ghost use Rattle.btree.specs.image.Pages.{Pages};
ghost use Rattle.schema.specs.indexes.IndexData.{IndexData};
ghost use Rattle.schema_tables.specs.TableData.{TableData};
ghost use Rattle.integrity_indexes.specs.index_rows.Kept.{keeps_row};
ghost use Rattle.integrity.specs.declared.index_trees.IndexCounts.{IndexCounts};
ghost use Rattle.integrity.specs.Indexes.{ListsRows};
ghost use Rattle.integrity.specs.Tables.{HoldsAnyRows};

/// The rows that an index lists in its order are those of its table on which its condition is true, whichever list of rows the table
/// is said to have. (Partial Indexes)
pub fn listed_rows_are_the_tables()
    ensures same { (pages : Pages) (tables : List TableData) (index : IndexData) (counts : IndexCounts) (lists : ListsRows pages tables index counts)
        (rows : List Row) → HoldsAnyRows pages lists.counted.owned.table rows
        → IsPermutation (filter (keeps_row index.condition) rows) (map (λ keyed. keyed.row) lists.rows) }
{}
