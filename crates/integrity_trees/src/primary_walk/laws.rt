//! What follows from the definitions alone.
ghost use Rattle.std.specs.Prelude.{All, List, length};
ghost use Rattle.values.specs.Row.{Row};
ghost use Rattle.values.specs.declared.fault.Fault.{Fault};
ghost use Rattle.btree.specs.image.Pages.{Pages};
ghost use Rattle.integrity_trees.specs.declared.tree_walk.counts.TreeCounts.{TreeCounts};
ghost use Rattle.schema_tables.specs.TableData.{IsKeyWithin, TableData};
ghost use Rattle.records_tables.specs.stored_rows.Stored.{Fits};
ghost use Rattle.records_tables.specs.primary_rows.Held.{HoldsPrimaryRows};
ghost use Rattle.integrity_trees.specs.primary_walk.Checked.{IsBrokenPrimary, IsCheckedPrimary};

/// A table whose tree was checked has rows in the order of their keys, no two of which have one key, and whose values are of its
/// columns. (Database File Format, section 2.4 "Representation Of WITHOUT ROWID Tables")
pub fn checked_primary_has_rows()
    ensures rows { (pages : Pages) (table : TableData) (counts : TreeCounts) → IsKeyWithin table.key (length table.columns)
        → IsCheckedPrimary pages table counts → (rows : List Row) × HoldsPrimaryRows pages table rows × All (Fits table) rows }
{}

/// No fault has its condition in a tree that was checked.
pub fn no_checked_primary_is_broken()
    ensures unbroken { (pages : Pages) (table : TableData) (counts : TreeCounts) → IsCheckedPrimary pages table counts
        → (fault : Fault) → IsBrokenPrimary pages table fault → ⊥ }
{}
