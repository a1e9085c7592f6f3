//! What holds of the definitions alone, and examples of them.
ghost use Rattle.std.specs.Prelude.{ℕ, ◌≡◌, ◌&&◌, ◌++◌, All, Bool, IsPermutation, List, [], ◌∷◌, filter, length};
ghost use Rattle.std.specs.List.{AllZip};
ghost use Rattle.values.specs.Database.{Database};
ghost use Rattle.values.specs.Datum.{Datum};
ghost use Rattle.values.specs.Row.{Row};
ghost use Rattle.values.specs.declared.value.Ty.{Ty};
ghost use Rattle.values.specs.declared.value.Ty.TheVariants.{Int};
ghost use Rattle.expr.specs.Types.{IsOfType};
ghost use Rattle.expr.specs.Term.{Term};
ghost use Rattle.semantics.specs.Query.{Body, From, JoinKind, QueryData, Select, from_width};
ghost use Rattle.semantics.specs.Valuation.{Valuation};
ghost use Rattle.semantics.specs.Joins.{join, pairs};
ghost use Rattle.semantics.specs.Times.{BagsAreTimes, RulesAreTimes};
ghost use Rattle.semantics.specs.Windows.{SequenceIsOne};
ghost use Rattle.semantics.specs.Body.{SameTables, answers_in, body, body_rows, from_rows};
ghost use Rattle.semantics.specs.Answer.{Begins, IsStandIn, Permits, slice};
ghost use Rattle.semantics.specs.Typed.{AnswersHaveTypes, BodyHasTypes, FitTypes, FitsCatalog, FromHasTypes, HasTypes};
ghost use Rattle.semantics.specs.Runs.{JoinedInAnyOrder, RunIsFilter};
ghost use Rattle.semantics.specs.OneTable.{ScanBegins, ScanIsPermitted, ScanIsTyped, ScanNamesColumns};
ghost use Rattle.semantics.specs.Hits.{IsChoice};
ghost use Rattle.semantics.specs.HitLaws.{AggregateIsHit, ColumnIsHit, GroupIsHit, HavingIsHit, OnIsHit, WhereIsHit, WindowIsHit, WindowNumberIsHit};
ghost use Rattle.semantics.specs.Examples.{Show, catalog, compound_examples, group_examples, inner_examples, join_examples, running_sum, window_examples};

/// Every query permits some list of rows.
pub fn some_list_is_permitted()
    ensures { (w : Datum) (db : Database) (query : QueryData) → (rows : List Row) × Permits w db query rows }
{}

/// Tables are bags: over the same rows in other orders a query permits the same lists, its body is the same bag, and so is
/// each answer of an inner query.
pub fn tables_are_bags()
    ensures permitted { (w : Datum) (db other : Database) (query : QueryData) (rows : List Row) → SameTables db other
        → Permits w db query rows → Permits w other query rows }
    ensures body { (w : Datum) (db other : Database) (body : Body) → SameTables db other
        → IsPermutation (body_rows w db body) (body_rows w other body) }
    ensures answers { (w : Datum) (db other : Database) (from : From) → SameTables db other
        → AllZip IsPermutation (answers_in w db from) (answers_in w other from) }
{}

/// Two bags are equal exactly where they hold each row as often, and an operator's rule says how often its bag does.
pub fn bags_are_counted()
    ensures bags { BagsAreTimes }
    ensures rules { RulesAreTimes }
{}

/// The rows of a partition have one list that ascends by the window's ORDER BY and then by the whole row.
pub fn sequence_is_one()
    ensures { SequenceIsOne }
{}

/// A permitted list has as many rows as LIMIT and OFFSET leave of the body, and of a typed query each of them has as many
/// values as the query has columns.
pub fn permitted_size()
    ensures length { (w : Datum) (db : Database) (query : QueryData) (rows : List Row) → Permits w db query rows
        → length rows ≡ length (slice query (body w db query)) }
    ensures width { (w : Datum) (db : Database) (catalog : List (List Ty)) (query : QueryData) (types : List Ty) (rows : List Row)
        → HasTypes catalog query types → Permits w db query rows → All (λ row. length row ≡ length types) rows }
{}

/// The values of the rows that a typed query permits have its types, over tables whose values have theirs; so have those of
/// FROM, which are as wide as its sources together, and the answers of inner queries.
pub fn values_have_types()
    ensures permitted { (w : Datum) (db : Database) (catalog : List (List Ty)) (query : QueryData) (types : List Ty) (rows : List Row) → IsStandIn w
        → FitsCatalog catalog db → HasTypes catalog query types → Permits w db query rows → FitTypes types rows }
    ensures body { (w : Datum) (db : Database) (catalog : List (List Ty)) (body : Body) (types : List Ty) → IsOfType Int w
        → FitsCatalog catalog db → BodyHasTypes catalog body types → FitTypes types (body_rows w db body) }
    ensures from { (w : Datum) (db : Database) (catalog : List (List Ty)) (value : Valuation) (answers : List Ty) (from : From) (types : List Ty)
        → IsOfType Int w → FitsCatalog catalog db → FromHasTypes catalog answers from types
        → (from_width from ≡ length types) × FitTypes types (from_rows w db value from) }
    ensures answers { (w : Datum) (db : Database) (catalog : List (List Ty)) (from : From) (types : List Ty) → IsOfType Int w
        → FitsCatalog catalog db → AnswersHaveTypes catalog from types → AllZip (λ of answer. All (IsOfType of) answer) types (answers_in w db from) }
{}

/// Without ORDER BY every order of the result rows is permitted.
pub fn order_is_free()
    ensures { (w : Datum) (db : Database) (query : QueryData) (rows : List Row) → query.order ≡ []
        → IsPermutation (body_rows w db query.body) rows → Permits w db query (slice query rows) }
{}

/// A SELECT of columns of one table gives these columns of each of its rows, and is typed exactly where they are the
/// table's.
pub fn columns_of_one_table()
    ensures permitted { ScanIsPermitted }
    ensures begins { ScanBegins }
    ensures typed { ScanIsTyped }
    ensures named { ScanNamesColumns }
{}

/// Every answer begins with the empty list, and with each of its own beginnings.
pub fn beginnings()
    ensures empty { (w : Datum) (db : Database) (query : QueryData) → Begins w db query [] }
    ensures front { (w : Datum) (db : Database) (query : QueryData) (given rest : List Row)
        → Permits w db query (given ++ rest) → Begins w db query given }
    ensures unordered { (w : Datum) (db : Database) (query : QueryData) (rows given rest : List Row) → query.order ≡ []
        → IsPermutation (body_rows w db query.body) rows → slice query rows ≡ given ++ rest → Begins w db query given }
{}

/// What FROM gives is a choice of one row from each source, and what has no value on a row that is really there is hit,
/// wherever it stands.
pub fn reached_is_hit()
    ensures choices { (w : Datum) (db : Database) (value : Valuation) (from : From) → All (IsChoice w db Bool.false from) (from_rows w db value from) }
    ensures on { (w : Datum) (db : Database) → OnIsHit w db }
    ensures condition { (w : Datum) (db : Database) (from : From) (s : Select) (terms : List Term) → WhereIsHit w db from s terms }
    ensures groups { (w : Datum) (db : Database) (from : From) (s : Select) (terms : List Term) → GroupIsHit w db from s terms }
    ensures aggregates { (w : Datum) (db : Database) (from : From) (s : Select) (terms : List Term) → AggregateIsHit w db from s terms }
    ensures having { (w : Datum) (db : Database) (from : From) (s : Select) (terms : List Term) → HavingIsHit w db from s terms }
    ensures windows { (w : Datum) (db : Database) (from : From) (s : Select) (terms : List Term) → WindowIsHit w db from s terms }
    ensures window_numbers { (w : Datum) (db : Database) (from : From) (s : Select) (terms : List Term) → WindowNumberIsHit w db from s terms }
    ensures columns { (w : Datum) (db : Database) (from : From) (s : Select) (terms : List Term) → ColumnIsHit w db from s terms }
{}

/// A condition above an inner join is one of its ON, and one on a side alone may be tested before the join; so may one on
/// the left side of a LEFT join, but none on the side that it pads.
pub fn conditions_move_down()
    ensures into { (p : Row → Bool) (on : Row → Row → Bool) (ls rs : List Row)
        → filter p (pairs on ls rs) ≡ pairs (λ l r. on l r && p (l ++ r)) ls rs }
    ensures left { (p : Row → Bool) (on : Row → Row → Bool) (ls rs : List Row)
        → pairs (λ l r. p l && on l r) ls rs ≡ pairs on (filter p ls) rs }
    ensures right { (p : Row → Bool) (on : Row → Row → Bool) (ls rs : List Row)
        → pairs (λ l r. p r && on l r) ls rs ≡ pairs on ls (filter p rs) }
    ensures left_join { (q p : Row → Bool) (on : Row → Row → Bool) (m n : ℕ) (ls rs : List Row) → All (λ l. (x : Row) → q (l ++ x) ≡ p l) ls
        → filter q (join JoinKind.left m n on ls rs) ≡ join JoinKind.left m n on (filter p ls) rs }
{}

/// A run of inner joins is the choices of one row from each source on which every ON is true, and joining the sources in
/// another order gives the same bag, with the columns put back.
pub fn inner_joins_in_any_order()
    ensures run { RunIsFilter }
    ensures order { JoinedInAnyOrder }
{}

/// Joins, groups, windows, compounds and inner queries over two small tables, and the types of one query.
pub fn examples()
    ensures joins { (w : Datum) → Show w join_examples }
    ensures groups { (w : Datum) → Show w group_examples }
    ensures windows { (w : Datum) → Show w window_examples }
    ensures compounds { (w : Datum) → Show w compound_examples }
    ensures inner_queries { (w : Datum) → Show w inner_examples }
    ensures typed { HasTypes catalog running_sum (Int ∷ Int ∷ []) }
{}
