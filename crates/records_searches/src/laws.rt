//! What follows from the definitions alone.
ghost use Rattle.std.specs.Prelude.{◌≡◌, ◌<◌, ◌≤◌, ◌+◌, ◌*◌, ◌++◌, [], ◌∷◌, ℕ, ℤ, false, true, All, Contains, List, None, Option, Some, length, map, pos, slice_get};
ghost use Rattle.values.specs.Datum.{int, null};
ghost use Rattle.values.specs.Row.{Row};
ghost use Rattle.pager.specs.PagerState.{PagerState};
ghost use Rattle.btree.specs.declared.image.kind.TreeKind.TheVariants.{Table};
ghost use Rattle.btree.specs.declared.image.kind.Level.TheVariants.{Leaf};
ghost use Rattle.btree.specs.image.Broken.{HasRowid};
ghost use Rattle.btree.specs.image.Pages.{IsNumber, Pages};
ghost use Rattle.btree.specs.image.Shape.{most_levels, places_under};
ghost use Rattle.btree.specs.image.Tree.{Place};
ghost use Rattle.schema_tables.specs.TableData.{RowKeyData, TableData};
ghost use Rattle.records_tables.specs.primary_rows.Firsts.{has_number, place_of};
ghost use Rattle.records_tables.specs.stored_rows.Stored.{IsStored};
ghost use Rattle.records_tables.specs.Tables.{StoresAnyRow};
ghost use Rattle.records_searches.specs.Entries.{IsRowOfRowid, values_at};
ghost use Rattle.records_searches.specs.Examples.{ascending, between, bound, descending, equal_to, row, rows_in, rows_of_run};
ghost use Rattle.records_searches.specs.Finders.{key_entry, rowid_entry};
ghost use Rattle.records_searches.specs.Work.{HasSearched};

/// What searches of four rows give whose `qty` is 40, NULL, 7 and 7, by an index that ascends and by one that descends.
pub fn worked_searches()
    ensures below { rows_in (between None (bound true 40)) ascending ≡ row (int (pos 7)) 3 ∷ row (int (pos 7)) 4 ∷ [] }
    ensures most { rows_in (between None (bound false 7)) ascending ≡ row (int (pos 7)) 3 ∷ row (int (pos 7)) 4 ∷ [] }
    ensures above { rows_in (between (bound true 7) None) ascending ≡ row (int (pos 40)) 1 ∷ [] }
    ensures least { rows_in (between (bound false 7) (bound true 40)) descending ≡ row (int (pos 7)) 3 ∷ row (int (pos 7)) 4 ∷ [] }
    ensures down { rows_in (between (bound false 7) None) descending ≡ row (int (pos 40)) 1 ∷ row (int (pos 7)) 3 ∷ row (int (pos 7)) 4 ∷ [] }
    ensures same { rows_in (equal_to (int (pos 7))) ascending ≡ row (int (pos 7)) 3 ∷ row (int (pos 7)) 4 ∷ [] }
    ensures unknown { rows_in (equal_to null) ascending ≡ [] }
    ensures stops { rows_of_run (between None (bound true 40)) descending ≡ [] }
{}

/// The PRIMARY KEY of a row whose index has it at its second and first places.
pub fn worked_key()
    ensures { values_at (int (pos 5) ∷ int (pos 6) ∷ int (pos 7) ∷ []) (2 ∷ 0 ∷ []) ≡ int (pos 7) ∷ int (pos 5) ∷ [] }
{}

/// Each row of a stored table with rowids is the one that its rowid leads to: no other row has it. (Database File Format, section
/// 2.3 "Representation Of SQL Tables")
pub fn row_of_its_rowid()
    ensures { (pages : Pages) (table : TableData) (at : Option ℕ) (levels : ℕ) (rows : List Row) → IsNumber pages table.root → levels < most_levels
        → table.key ≡ RowKeyData.Rowid at → IsStored pages table levels rows → (place : Place) (row : Row) (rowid : ℤ)
        → Contains (places_under pages Table levels table.root) place → HasRowid pages Leaf place.page place.index rowid
        → StoresAnyRow pages table place row → IsRowOfRowid pages table rowid row }
{}

/// An entry of an index has the rowid of its row after the values of the index's columns. (Database File Format, section 2.3
/// "Representation Of SQL Indices")
pub fn entry_has_rowid()
    ensures { (columns : List ℕ) (rowid : ℤ) (row : Row) → slice_get (rowid_entry columns rowid row) (length columns) ≡ Some (int rowid) }
{}

/// An entry of an index of a table without rowids has the values of the PRIMARY KEY where its columns are. (Database File Format,
/// section 2.4 "Suppression of redundant columns in WITHOUT ROWID secondary indexes")
pub fn entry_has_key()
    ensures { (columns others key : List ℕ) (row : Row) → All (λ column. has_number (columns ++ others) column ≡ true) key
        → values_at (key_entry columns others row) (map (place_of (columns ++ others)) key) ≡ values_at row key }
{}

/// A search that gives m rows asks for at most `d * (2 + m)` pages of the tree that it goes through, which has d levels, and
/// for each row that an entry leads to at most for as many as its table's tree has levels.
pub fn search_asks_for_few()
    ensures { (start now : PagerState) (levels fetch m : ℕ) → HasSearched levels fetch start m now
        → now.asked ≤ start.asked + ((levels + 1) * (2 + m) + fetch * m) }
{}
