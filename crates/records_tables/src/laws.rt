//! What follows from the definitions alone.
ghost use Rattle.std.specs.Prelude.{◌≡◌, [], ◌∷◌, ◌++◌};
ghost use Rattle.std.specs.List.{AllZip, range_with_len};
ghost use Rattle.btree.specs.image.Pages.{Pages};
ghost use Rattle.btree.specs.image.Shape.{HasShape, places_under};
ghost use Rattle.schema_tables.specs.TableData.{TableData};
ghost use Rattle.records_tables.specs.primary_rows.Firsts.{firsts, place_of};
ghost use Rattle.records_tables.specs.Tables.{IsAnyStored, StoresAnyRow, kind_of};

/// Whatever kind a stored table is of, the cells under its root from left to right are its rows, and it has no other rows.
pub fn stored_table_has_rows()
    ensures shape { (pages : Pages) (table : TableData) (is : IsAnyStored pages table) → HasShape pages (kind_of table.key) is.levels table.root }
    ensures rows { (pages : Pages) (table : TableData) (is : IsAnyStored pages table)
        → AllZip (StoresAnyRow pages table) (places_under pages (kind_of table.key) is.levels table.root) is.rows }
    ensures same { (pages : Pages) (table : TableData) (one other : IsAnyStored pages table) → one.rows ≡ other.rows }
{}

/// A record of a table of four columns whose key names the third, the first and the third again has these two first.
pub fn place_examples()
    ensures key { place_of (firsts [] ((2 ∷ 0 ∷ 2 ∷ []) ++ range_with_len 0 4)) 0 ≡ 1 }
    ensures second { place_of (firsts [] ((2 ∷ 0 ∷ 2 ∷ []) ++ range_with_len 0 4)) 1 ≡ 2 }
    ensures fourth { place_of (firsts [] ((2 ∷ 0 ∷ 2 ∷ []) ++ range_with_len 0 4)) 3 ≡ 3 }
{}
