//! What holds of the definitions alone.
ghost use Rattle.std.specs.Prelude.{◌≡◌, ◌↔◌, List, length};
ghost use Rattle.values.specs.Database.{Database};
ghost use Rattle.values.specs.Datum.{Datum};
ghost use Rattle.values.specs.Row.{Row};
ghost use Rattle.values.specs.declared.value.Ty.{Ty};
ghost use Rattle.semantics.specs.Answer.{Permits};
ghost use Rattle.semantics.specs.Body.{body};
ghost use Rattle.semantics.specs.Hits.{Hits};
ghost use Rattle.semantics.specs.Query.{QueryData};
ghost use Rattle.semantics.specs.Typed.{FitsCatalog, HasTypes, IsTyped};
ghost use Rattle.semantics_rewrites.specs.schema_sources.Examples.{ShowLater};
ghost use Rattle.semantics_rewrites.specs.schema_sources.Settled.{settled, types_with_schema, with_schema};
ghost use Rattle.semantics_rewrites.specs.schema_sources.Within.{IsBodyWithin};

/// A query whose schema's table is the table behind the others permits the same lists of rows, and reaches nothing else.
pub fn with_schema_is_same()
    ensures body { (w : Datum) (db : Database) (query : QueryData) → IsBodyWithin (length db.tables) query.body
        → body w (with_schema db) (settled (length db.tables) query) ≡ body w db query }
    ensures permitted { (w : Datum) (db : Database) (query : QueryData) (rows : List Row) → IsBodyWithin (length db.tables) query.body
        → Permits w (with_schema db) (settled (length db.tables) query) rows ↔ Permits w db query rows }
    ensures hits { (w : Datum) (db : Database) (query : QueryData) → IsBodyWithin (length db.tables) query.body
        → Hits w (with_schema db) (settled (length db.tables) query) → Hits w db query }
{}

/// A query that is typed names tables of the catalog alone, and is typed over the catalog with the schema's table behind its
/// tables, over whose rows their values have these types too.
pub fn with_schema_is_typed()
    ensures within { (catalog : List (List Ty)) (query : QueryData) → IsTyped catalog query → IsBodyWithin (length catalog) query.body }
    ensures typed { (catalog : List (List Ty)) (query : QueryData) (types : List Ty) → HasTypes catalog query types
        → HasTypes (types_with_schema catalog) (settled (length catalog) query) types }
    ensures fits { (catalog : List (List Ty)) (db : Database) → FitsCatalog catalog db → FitsCatalog (types_with_schema catalog) (with_schema db) }
{}

/// A query over the schema's table, at two depths, is one over the table behind two others, whose rows are computed.
pub fn examples()
    ensures { (w : Datum) → ShowLater w }
{}
