//! What follows from the definitions alone.
ghost use Rattle.std.specs.Prelude.{ℕ, Bool, List, Option};
ghost use Rattle.btree.specs.image.Pages.{IsNumber, Pages};
ghost use Rattle.expr.specs.Term.{Term};
ghost use Rattle.schema_tables.specs.TableData.{TableData};
ghost use Rattle.integrity_trees.specs.declared.tree_walk.counts.TreeCounts.{TreeCounts};
ghost use Rattle.integrity_trees.specs.index_walk.Checked.{IsCheckedIndex};
ghost use Rattle.integrity_trees.specs.index_walk.Widths.{exactly};
ghost use Rattle.integrity_trees.specs.wanted_entries.Wanted.{IndexedPlaces, KeyedRow};
ghost use Rattle.integrity_indexes.specs.index_rows.Compared.{IsDifferentIndex, IsIndexOf};
ghost use Rattle.integrity_indexes.specs.index_rows.Entries.{width_by};
ghost use Rattle.integrity_indexes.specs.index_rows.Indexed.{HoldsIndexedRows};

/// An index that has exactly the entries that its table's rows want isn't different from them.
pub fn index_is_not_different()
    ensures same { (pages : Pages) (table : TableData) (index : IndexedPlaces) (condition : Option Term) (root : ℕ)
        → IsIndexOf pages table index condition root → ¬ IsDifferentIndex pages table index condition root }
{}

/// An index whose tree was checked, and that has exactly the entries that its table's rows want, lists these rows in the order of its
/// entries: what a search of it meets are rows of the table. (Database File Format, section 2.3 "Representation Of SQL Indices")
pub fn checked_index_has_rows()
    ensures rows { (pages : Pages) (table : TableData) (index : IndexedPlaces) (condition : Option Term) (descends : List Bool) (root : ℕ)
        (counts : TreeCounts) → IsNumber pages root → IsCheckedIndex pages (exactly (width_by table.key index)) descends root counts
        → IsIndexOf pages table index condition root
        → (rows : List KeyedRow) × HoldsIndexedRows pages table index condition descends counts.levels root rows }
{}
