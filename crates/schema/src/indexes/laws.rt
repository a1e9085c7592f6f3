//! What holds of the definitions alone.
ghost use Rattle.std.specs.Prelude.{◌≡◌, map};
ghost use Rattle.sql_reader_grammar.specs.create_trees.CreateTrees.{IndexTree};
ghost use Rattle.schema.specs.indexes.IndexData.{IndexData};
ghost use Rattle.schema.specs.indexes.Indexed.{IsIndex};
ghost use Rattle.schema.specs.indexes.KeyIndexes.{IsKeyIndex, KeyIndexData};
ghost use Rattle.schema_keys.specs.Names.{AreDistinct};
ghost use Rattle.schema_tables.specs.TableData.{TableData};
ghost use Rattle.schema_keys.specs.table_keys.Automatic.{AutomaticData};

/// A CREATE INDEX makes one index at most of a root, on a table whose columns have different names.
pub fn one_index()
    ensures { (tree : IndexTree) (table : TableData) (first second : IndexData)
        → AreDistinct (map (λ c. c.name) table.columns) → IsIndex tree table first → IsIndex tree table second
        → first.root ≡ second.root → first ≡ second }
{}

/// A key of a table has one index at most, if the table's columns have different names.
pub fn one_key_index()
    ensures { (table : TableData) (automatic : AutomaticData) (first second : KeyIndexData)
        → AreDistinct (map (λ c. c.name) table.columns) → IsKeyIndex table automatic first → IsKeyIndex table automatic second
        → first ≡ second }
{}
