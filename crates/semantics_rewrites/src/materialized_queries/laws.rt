//! What holds of the definitions alone.
ghost use Rattle.std.specs.Prelude.{◌≡◌, ◌<◌, ℕ, All, IsPermutation, List, length, map};
ghost use Rattle.values.specs.Database.{Database};
ghost use Rattle.values.specs.Datum.{Datum};
ghost use Rattle.values.specs.Row.{Row};
ghost use Rattle.values.specs.declared.value.Ty.{Ty};
ghost use Rattle.values.specs.declared.value.Ty.TheVariants.{Int};
ghost use Rattle.expr.specs.Types.{IsOfType};
ghost use Rattle.semantics.specs.Answer.{Permits};
ghost use Rattle.semantics.specs.Body.{SameTables, answer_of, body, body_rows};
ghost use Rattle.semantics.specs.Hits.{BodyHits, Hits, SourceHits};
ghost use Rattle.semantics.specs.Query.{Body, InnerQuery, QueryData};
ghost use Rattle.semantics.specs.Typed.{BodyHasTypes, FitsCatalog, HasTypes, SourceHasTypes};
ghost use Rattle.semantics_rewrites.specs.schema_sources.Within.{IsBodyWithin, IsSourceWithin};
ghost use Rattle.semantics_rewrites.specs.materialized_queries.Examples.{Show, ShowOtherwise, examples};
ghost use Rattle.semantics_rewrites.specs.materialized_queries.Flat.{flat, kept_of, with_kept};
ghost use Rattle.semantics_rewrites.specs.materialized_queries.FlatTyped.{IsFlatQueryTyped, IsFlatTyped};
ghost use Rattle.semantics_rewrites.specs.materialized_queries.FlatWith.{AreAnswers, AreKept, answer_from, body_in, materialized_with, queries_of, with_rows};
ghost use Rattle.semantics_rewrites.specs.materialized_queries.Parts.{body_size, plain, source_size};

/// Over the database with the rows of its sources that are no tables behind the others, in whichever order each of these lists is,
/// a query without queries in it permits lists of rows that the query permits; it has the same bag of rows, and reaches nothing else.
pub fn materialized_is_same()
    ensures body { (w : Datum) (db : Database) (query : QueryData) → IsBodyWithin (length db.tables) query.body
        → body w (with_kept w db (kept_of query.body)) (flat w db (length db.tables) query) ≡ body w db query }
    ensures permitted { (w : Datum) (db other : Database) (query : QueryData) (rows : List Row) → IsBodyWithin (length db.tables) query.body
        → SameTables other (with_kept w db (kept_of query.body)) → Permits w other (flat w db (length db.tables) query) rows → Permits w db query rows }
    ensures hits { (w : Datum) (db : Database) (query : QueryData) → IsBodyWithin (length db.tables) query.body
        → Hits w (with_kept w db (kept_of query.body)) (flat w db (length db.tables) query) → Hits w db query }
    ensures hits_over { (w : Datum) (db other : Database) (query : QueryData) → IsBodyWithin (length db.tables) query.body
        → SameTables other (with_kept w db (kept_of query.body)) → Hits w other (flat w db (length db.tables) query) → Hits w db query }
{}

/// Whatever the order in which the values of each inner query were found, a query with them in its places permits over such a database
/// only what the query permits, and reaches nothing else; the values in their own order make the query of the definition.
pub fn materialized_with_is_same()
    ensures own { (w : Datum) (db : Database) (place : ℕ) (query : QueryData)
        → materialized_with (map (answer_of w db) (queries_of query.body)) place query ≡ flat w db place query }
    ensures kept { (w : Datum) (db : Database) (of : Body) (kept : List (List Row)) → AreKept w db of kept
        → SameTables (with_rows db kept) (with_kept w db (kept_of of)) }
    ensures answer { (w : Datum) (db : Database) (query : InnerQuery) (rows : List Row) → IsPermutation (body_rows w db (body_in query)) rows
        → IsPermutation (answer_of w db query) (answer_from query rows) }
    ensures permitted { (w : Datum) (db other : Database) (query : QueryData) (answers : List (List Datum)) (rows : List Row)
        → IsBodyWithin (length db.tables) query.body → SameTables other (with_kept w db (kept_of query.body)) → AreAnswers w db query.body answers
        → Permits w other (materialized_with answers (length db.tables) query) rows → Permits w db query rows }
    ensures hits { (w : Datum) (db other : Database) (query : QueryData) (answers : List (List Datum))
        → IsBodyWithin (length db.tables) query.body → SameTables other (with_kept w db (kept_of query.body)) → AreAnswers w db query.body answers
        → Hits w other (materialized_with answers (length db.tables) query) → Hits w db query }
{}

/// A query of a body alone permits the bag of the body's rows, and reaches what the body reaches.
pub fn plain_is_body()
    ensures rows { (w : Datum) (db : Database) (of : Body) (rows : List Row) → Permits w db (plain of) rows → IsPermutation (body_rows w db of) rows }
    ensures hits { (w : Datum) (db : Database) (of : Body) → Hits w db (plain of) → BodyHits w db of }
{}

/// The sources of a query that are no tables, and the queries inside its expressions, are smaller than it; they name tables that it
/// may name, and are typed where it is; and what one of them reaches out of range it reaches.
pub fn parts_come_first()
    ensures smaller_sources { (of : Body) → All (λ source. source_size source < body_size of) (kept_of of) }
    ensures smaller_queries { (of : Body) → All (λ query. body_size (body_in query) < body_size of) (queries_of of) }
    ensures sources_within { (count : ℕ) (of : Body) → IsBodyWithin count of → All (IsSourceWithin count) (kept_of of) }
    ensures queries_within { (count : ℕ) (of : Body) → IsBodyWithin count of → All (λ query. IsBodyWithin count (body_in query)) (queries_of of) }
    ensures typed_sources { (catalog : List (List Ty)) (of : Body) (types : List Ty) → BodyHasTypes catalog of types
        → All (λ source. (own : List Ty) × SourceHasTypes catalog source own) (kept_of of) }
    ensures typed_queries { (catalog : List (List Ty)) (of : Body) (types : List Ty) → BodyHasTypes catalog of types
        → All (λ query. (own : List Ty) × BodyHasTypes catalog (body_in query) own) (queries_of of) }
    ensures hit_sources { (w : Datum) (db : Database) (query : QueryData)
        → All (λ source. SourceHits w db source → Hits w db query) (kept_of query.body) }
    ensures hit_queries { (w : Datum) (db : Database) (query : QueryData)
        → All (λ inner. BodyHits w db (body_in inner) → Hits w db query) (queries_of query.body) }
{}

/// It is typed as the query is, with its ORDER BY too, over the catalog with the types of those sources' columns behind the tables, over
/// whose rows their values have these types too.
pub fn materialized_is_typed()
    ensures body { (w : Datum) (db : Database) (catalog : List (List Ty)) (of : Body) (types : List Ty) → IsOfType Int w → FitsCatalog catalog db
        → BodyHasTypes catalog of types → IsFlatTyped w db catalog of types }
    ensures ordered { (w : Datum) (db : Database) (catalog : List (List Ty)) (query : QueryData) (types : List Ty) → IsOfType Int w → FitsCatalog catalog db
        → HasTypes catalog query types → IsFlatQueryTyped w db catalog query types }
{}

/// Queries over two tables with derived tables, IN and EXISTS, what they are without the queries in them, and the rows that these
/// permit.
pub fn examples()
    ensures flat { (w : Datum) → Show w examples }
    ensures otherwise { (w : Datum) → ShowOtherwise w }
{}
