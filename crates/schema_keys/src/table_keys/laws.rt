//! What holds of the definitions alone.
ghost use Rattle.std.specs.Prelude.{◌≡◌, ℕ, List};
ghost use Rattle.sql_reader_grammar.specs.create_trees.CreateTrees.{TableTree};
ghost use Rattle.schema_keys.specs.table_keys.Automatic.{AutomaticData, WantIndexes};
ghost use Rattle.schema_keys.specs.declared_keys.Keys.{KeyData};
ghost use Rattle.schema_keys.specs.table_keys.Worked.{KeyTakesOne, RowidTakesNone};

/// Keys of a table want one list of indexes at most.
pub fn one_list()
    ensures { (tree : TableTree) (number : ℕ) (keys : List KeyData) (first second : List AutomaticData)
        → WantIndexes tree number keys first → WantIndexes tree number keys second → first ≡ second }
{}

/// The numbers of the indexes that SQLite makes for the keys of two worked tables, one with rowids and one without.
pub fn worked_tables()
    ensures rowids { RowidTakesNone }
    ensures rowless { KeyTakesOne }
{}
