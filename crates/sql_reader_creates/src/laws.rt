//! What holds of the definitions alone.
ghost use Rattle.std.specs.Prelude.{◌≡◌, List, ℕ};
ghost use Rattle.sql_reader_creates.specs.CreateGrammar.{SpellsCreate};
ghost use Rattle.sql_reader_creates.specs.IndexTexts.{IsRefusedIndex, SpellsIndex, SpellsIndexAt};
ghost use Rattle.sql_reader_grammar.specs.create_trees.CreateTrees.{IndexTree, TableTree, columns_of_index};
ghost use Rattle.sql_reader_grammar.specs.phrases.Texts.{AreWithinLimits};
ghost use Rattle.values.specs.declared.fault.Fault.{Fault};
ghost use Rattle.values.specs.declared.fault.Fault.TheVariants.{NoMemory};

/// A text spells at most one CREATE TABLE.
pub fn one_create()
    ensures { (text : List ℕ) (first second : TableTree) → SpellsCreate text first → SpellsCreate text second
        → first ≡ second }
{}

/// A text spells at most one CREATE INDEX, whatever levels it has.
pub fn one_index()
    ensures { (text : List ℕ) (levels others : ℕ) (first second : IndexTree) → SpellsIndexAt levels text first
        → SpellsIndexAt others text second → first ≡ second }
{}

/// A text that spells a CREATE INDEX within the limits is refused by nothing but want of memory.
pub fn allowed_index_is_taken()
    ensures { (text : List ℕ) (tree : IndexTree) (fault : Fault) → SpellsIndex text tree
        → AreWithinLimits columns_of_index text tree → IsRefusedIndex text fault → fault ≡ NoMemory }
{}
