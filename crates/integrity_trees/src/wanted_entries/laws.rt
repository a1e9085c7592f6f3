//! When an index has exactly the entries of its table's rows.
ghost use Rattle.std.specs.Prelude.{◌≡◌, ◌≢◌, ◌≤◌, ◌++◌, Bool, true, ℕ, ℤ, [], ◌∷◌, IsPermutation, IsTrue, List, length, map, None, Some, Option};
ghost use Rattle.std.specs.Ordering.{is_lt};
ghost use Rattle.values.specs.Row.{Row};
ghost use Rattle.btree_cursor.specs.key_ranges.Ranges.{key_cmp};
ghost use Rattle.integrity_trees.specs.wanted_entries.Bags.{AreIn, ArePlaced, Coded, IsBatchOf, IsOnce, IsStray};
ghost use Rattle.integrity_trees.specs.wanted_entries.Examples.{by_qty, first_entry, has_qty, items, second_entry};
ghost use Rattle.integrity_trees.specs.wanted_entries.Unique.{AreApart, AreTogether, IsNotUnique, IsPrefixCount, IsRunCount, StandInOrder};
ghost use Rattle.integrity_trees.specs.wanted_entries.Wanted.{IndexedPlaces, KeyedRow, entry_of, wanted};

/// Different entries, each of which is wanted, are the wanted ones where they are as many: no look-up of a wanted entry
/// in the index is needed.
pub fn same_bag()
    ensures same { (entries wanted : List Coded) → IsOnce entries → AreIn entries wanted → length wanted ≤ length entries
        → IsPermutation entries wanted }
    ensures rows { (entries wanted : List Row) → IsOnce entries → AreIn entries wanted → length wanted ≤ length entries
        → IsPermutation entries wanted }
{}

/// An index that has another number of entries than are wanted, or one that isn't wanted, differs.
pub fn other_bag()
    ensures count { (entries wanted : List Coded) → length entries ≢ length wanted → ¬ IsPermutation entries wanted }
    ensures stray { (entries wanted batch : List Coded) (low high : Option ℤ) → IsBatchOf wanted low high batch
        → IsStray entries low high batch → ¬ IsPermutation entries wanted }
{}

/// The ranges of two batches, one after the other, are one range.
pub fn next_batch()
    ensures placed { (entries done batch : List Coded) (middle : ℤ) (low high : Option ℤ) → ArePlaced entries low (Some middle) done
        → ArePlaced entries (Some middle) high batch → ArePlaced entries low high (done ++ batch) }
    ensures whole { (entries wanted : List Coded) → ArePlaced entries None None wanted → AreIn entries wanted }
{}

/// Entries in the order of an index, whichever of its columns are DESC, are different, and those with the same first values
/// stand together.
pub fn entries_in_order()
    ensures once { (descends : List Bool) (entries : List Row) → StandInOrder descends entries → IsOnce entries }
    ensures together { (descends : List Bool) (width : ℕ) (entries : List Row) → StandInOrder descends entries → AreTogether width entries }
{}

/// Where entries with the same first values stand together, the changes from one entry to the next count the different
/// first values, and a unique index has to be tested on neighbours alone.
pub fn neighbours()
    ensures count { (width count : ℕ) (entries : List Row) → AreTogether width entries → IsRunCount width entries count
        → IsPrefixCount width entries count }
    ensures apart { (width : ℕ) (entries : List Row) → AreTogether width entries → AreApart width entries
        → ¬ IsNotUnique width entries }
{}

/// The entries that two of three rows want of a partial index whose column is DESC, and their order.
pub fn example_index()
    ensures wanted { wanted by_qty has_qty items ≡ first_entry ∷ second_entry ∷ [] }
    ensures order { IsTrue (is_lt (key_cmp (true ∷ []) first_entry second_entry)) }
{}

/// Different entries stay different where a condition leaves some out.
pub fn kept_entries()
    ensures once { (index : IndexedPlaces) (keeps : Row → Bool) (rows : List KeyedRow) → IsOnce (map (entry_of index) rows) → IsOnce (wanted index keeps rows) }
{}
