//! Examples of the definitions, computed, and what follows from them: laws of trees.
ghost use Rattle.std.specs.Prelude.{◌≡◌, ◌<◌, ◌≤◌, ℕ, suc, ℤ, Bool, true, false, Contains, List, [], ◌∷◌, ◌++◌, replicate};
ghost use Rattle.values.specs.declared.fault.Fault.{Fault};
ghost use Rattle.btree.specs.declared.image.kind.TreeKind.{TreeKind};
ghost use Rattle.btree.specs.declared.image.kind.TreeKind.TheVariants.{Table, Index};
ghost use Rattle.btree.specs.declared.image.kind.Level.{Level};
ghost use Rattle.btree.specs.declared.image.kind.Level.TheVariants.{Leaf, Interior};
ghost use Rattle.btree.specs.image.Layout.{header_at, flag, cell_count, cell_place};
ghost use Rattle.btree.specs.image.Cell.{CellData, PayloadData, local_size};
ghost use Rattle.btree.specs.image.Chain.{HasBytes, IsChain};
ghost use Rattle.btree.specs.image.Tree.{Place, IsPageOf, IsRowAt, Reaches, StandsAt, ArePlacesOf, count_at, child_at};
ghost use Rattle.btree.specs.image.Pages.{Pages};
ghost use Rattle.btree.specs.image.Shape.{HasShape, place_at, places_under};
ghost use Rattle.btree.specs.image.Broken.{HasRowid, IsRowOrder, IsBroken};
ghost use Rattle.btree.specs.image.Sound.{IsSoundTree, IsSoundTable, HasSomeShape, IsNamedOnce, AreRowsOf, HasRows};
ghost use Rattle.btree.specs.image.Entries.{IsStrictOrder, IsEntryOrder, AreEntriesOf};
ghost use Rattle.btree.specs.image.Search.{row_before, IsBoundary, IsCellThat};
ghost use Rattle.btree.specs.image.Examples.{example_pages, example_leaf, first_cell, second_cell, table_pages, chain_pages};

/// How much of a payload stands in its cell, where 512 bytes of each page are used.
pub fn local_sizes()
    ensures whole { local_size Table 512 477 ≡ 477 }
    ensures least { local_size Table 512 478 ≡ 39 }
    ensures cut { local_size Table 512 985 ≡ 477 }
    ensures three_pages { local_size Table 512 2000 ≡ 476 }
    ensures four_pages { local_size Table 512 2002 ≡ 39 }
    ensures index_whole { local_size Index 512 102 ≡ 102 }
    ensures index_least { local_size Index 512 103 ≡ 39 }
{}

/// A leaf that SQLite wrote: its header, its cell places, and its two cells.
pub fn example_page()
    ensures flag { flag (header_at 2) example_leaf ≡ 13 }
    ensures count { cell_count (header_at 2) example_leaf ≡ 2 }
    ensures first { cell_place (header_at 2) Leaf example_leaf 0 ≡ 493 }
    ensures second { cell_place (header_at 2) Leaf example_leaf 1 ≡ 483 }
    ensures first_row { IsRowAt example_pages (record { page = 2; index = 0 }) first_cell }
    ensures second_row { IsRowAt example_pages (record { page = 2; index = 1 }) second_cell }
    ensures page { IsPageOf example_pages Table Leaf 2 }
{}

/// A table's tree of an interior page and two leaves, that SQLite wrote: it is sound, and its cells from left to right.
pub fn example_table()
    ensures sound { IsSoundTable table_pages 2 }
    ensures cells { places_under table_pages Table 1 2 ≡ place_at 3 0 ∷ place_at 4 0 ∷ [] }
{}

/// A cell of a table's leaf has one rowid at most, and so has a cell of an interior page. (Database File Format,
/// section 1.6 "B-tree Cell Format")
pub fn one_rowid()
    ensures same { (pages : Pages) (level : Level) (n i : ℕ) (a b : ℤ) → HasRowid pages level n i a
        → HasRowid pages level n i b → a ≡ b }
{}

/// A tree none of whose pages is broken has a shape: all its leaves have so many levels above them, fewer than 20.
/// (Database File Format, section 1.6 "B-tree Pages")
pub fn sound_tree_has_shape()
    ensures shape { (pages : Pages) (kind : TreeKind) (root : ℕ) → IsSoundTree pages kind root
        → HasSomeShape pages kind root }
{}

/// The cells under the root of a table's tree, from left to right, are those of its leaves, each once, and their rowids
/// ascend, where its pages are in order. (Database File Format, section 1.6 "B-tree Pages")
pub fn places_of_table()
    ensures rows { (pages : Pages) (root levels : ℕ) → HasShape pages Table levels root
        → ((n : ℕ) → Reaches pages Table root n → IsRowOrder pages root n)
        → AreRowsOf pages root (places_under pages Table levels root) }
{}

/// A table's tree none of whose pages is broken has a shape of fewer than 20 levels, and the cells under its root are
/// its rows in the order of their rowids. (Database File Format, section 1.6 "B-tree Pages")
pub fn sound_table()
    ensures rows { (pages : Pages) (root : ℕ) → IsSoundTable pages root → HasRows pages root }
{}

/// No fault has its condition in a sound table's tree.
pub fn no_sound_table_is_broken()
    ensures unbroken { (pages : Pages) (root : ℕ) → IsSoundTable pages root → (fault : Fault)
        → IsBroken pages root fault → ⊥ }
{}

/// The cells under the root of a tree of either kind, from left to right, are the tree's, each once, where no page of
/// the tree is named twice. (Database File Format, section 1.6 "B-tree Pages")
pub fn places_of_tree()
    ensures places { (pages : Pages) (kind : TreeKind) (root levels : ℕ) → HasShape pages kind levels root
        → ((m : ℕ) → IsNamedOnce pages kind root m)
        → ArePlacesOf pages kind root (places_under pages kind levels root) }
{}

/// The cells under the root of an index tree, from left to right, are its entries, each once and in their order, where
/// its pages are in order. (Database File Format, section 1.6 "B-tree Pages")
pub fn places_of_index()
    ensures entries { (pages : Pages) (before : Place → Place → Bool) (root levels : ℕ) → IsStrictOrder before
        → HasShape pages Index levels root
        → ((n : ℕ) → Reaches pages Index root n → IsEntryOrder pages before root n)
        → AreEntriesOf pages before root (places_under pages Index levels root) }
{}

/// A place of a table's tree has one cell at most. (Database File Format, section 1.6 "B-tree Cell Format")
pub fn one_cell()
    ensures same { (pages : Pages) (place : Place) (a b : CellData) → IsRowAt pages place a → IsRowAt pages place b
        → a ≡ b }
{}

/// A payload has one list of bytes at most. (Database File Format, section 1.7 "Cell Payload Overflow Pages")
pub fn one_payload()
    ensures same { (pages : Pages) (payload : PayloadData) (a b : List ℕ) → HasBytes pages payload a
        → HasBytes pages payload b → a ≡ b }
{}

/// A chain of two overflow pages. It holds no fewer bytes that would end on its first page.
pub fn example_chain()
    ensures bytes { IsChain chain_pages 2 510 (replicate 508 1 ++ (2 ∷ 3 ∷ [])) }
    ensures no_shorter { (bytes : List ℕ) → ¬ IsChain chain_pages 2 508 bytes }
{}

/// Where a table's pages are in order and the cells of an interior page have such a boundary, each row under a child
/// before it comes before the key, and none under a child behind it does. (Database File Format, section 1.6)
pub fn search_in_table()
    ensures before { (pages : Pages) (root : ℕ) (behind : Bool) (key : ℤ) → ((n : ℕ) → Reaches pages Table root n → IsRowOrder pages root n)
        → (height depth n p i : ℕ) (x : Place) → StandsAt pages Table root depth n → HasShape pages Table (suc height) n
        → IsBoundary (HasRowid pages) (row_before behind key) pages Table Interior n p → i < p
        → Contains (places_under pages Table height (child_at pages n i)) x
        → IsCellThat (HasRowid pages) (row_before behind key) pages Table true x }
    ensures behind { (pages : Pages) (root : ℕ) (behind : Bool) (key : ℤ) → ((n : ℕ) → Reaches pages Table root n → IsRowOrder pages root n)
        → (height depth n p i : ℕ) (x : Place) → StandsAt pages Table root depth n → HasShape pages Table (suc height) n
        → IsBoundary (HasRowid pages) (row_before behind key) pages Table Interior n p → p < i → i ≤ count_at pages n
        → Contains (places_under pages Table height (child_at pages n i)) x
        → IsCellThat (HasRowid pages) (row_before behind key) pages Table false x }
{}
