//! What holds of the definitions alone.
ghost use Rattle.std.specs.Prelude.{◌≡◌, Contains, List, [], ℕ};
ghost use Rattle.values.specs.Row.{Row};
ghost use Rattle.schema.specs.CatalogData.{CatalogData};
ghost use Rattle.schema.specs.Refused.{HasObject, IsBadSchema, IsLeftOut, IsUnread};
ghost use Rattle.schema.specs.Says.{IsCatalog};
ghost use Rattle.schema.specs.Wanted.{WantsIndex};
ghost use Rattle.schema_keys.specs.Rows.{AreTables};
ghost use Rattle.schema_tables.specs.TableData.{TableData};
ghost use Rattle.sql_reader_syntax.specs.Tree.{Name};
ghost use Rattle.schema_keys.specs.table_keys.Automatic.{AutomaticData};

/// The rows of a schema say at most one catalog.
pub fn one_catalog()
    ensures { (pages : ℕ) (rows : List Row) (first second : CatalogData) → IsCatalog pages rows first
        → IsCatalog pages rows second → first ≡ second }
{}

/// Where rows say a catalog, each of them is as SQLite writes it, each text of a table or an index is read, and nothing that is
/// left out stands there.
pub fn catalog_is_sound()
    ensures row { (pages : ℕ) (rows : List Row) (catalog : CatalogData) → IsCatalog pages rows catalog
        → ¬ IsBadSchema pages rows }
    ensures text { (pages : ℕ) (rows : List Row) (catalog : CatalogData) (name : Name) → IsCatalog pages rows catalog
        → ¬ HasObject IsUnread rows name }
    ensures object { (pages : ℕ) (rows : List Row) (catalog : CatalogData) (name : Name) → IsCatalog pages rows catalog
        → ¬ HasObject (IsLeftOut pages rows) rows name }
{}

/// Where each row is that of a table, no two have one name, and no key wants an index, the rows say these tables and no index.
pub fn only_tables()
    ensures { (pages : ℕ) (rows : List Row) (tables : List TableData) → AreTables pages rows tables
        → ((row : Row) (table : TableData) (automatic : AutomaticData) → Contains rows row → ¬ WantsIndex pages row table automatic)
        → IsCatalog pages rows (record { tables = tables; indexes = [] }) }
{}
