//! What holds of the definitions alone, and examples of them.
ghost use Rattle.std.specs.Prelude.{◌≡◌, [], ◌∷◌, map};
ghost use Rattle.values.specs.Datum.{Datum};
ghost use Rattle.expr.specs.Conjuncts.{conjuncts};
ghost use Rattle.semantics.specs.Body as body;
ghost use Rattle.semantics.specs.Body.{values_over};
ghost use Rattle.semantics.specs.Examples.{items};
ghost use Rattle.semantics.specs.OneTable.{shown};
ghost use Rattle.semantics.specs.Valuation.{kept};
ghost use Rattle.logical_plan.specs.Examples.{emptied, emptied_from, emptied_rows, emptied_where, example_sizes, full_sold, full_sold_rows, is_seven, nothing_kept, padded, padded_rows, right_from, right_sold, right_sold_rows, sevens, sevens_rows, sold, sold_rows, summed, summed_rows};
ghost use Rattle.logical_plan.specs.JoinPlan.{InnerInTurn, IsJoinPlan, JoinHits, JoinIsBag, JoinIsWhere};
ghost use Rattle.logical_plan.specs.Plan.{rows_of, work};
ghost use Rattle.logical_plan.specs.Searches.{SearchesLeaveOut};
ghost use Rattle.logical_plan.specs.WindowedPlan.{WindowedInOrder};
ghost use Rattle.logical_plan.specs.Stands.{KeptIsWhere, NothingIsWhere, OneTableHits, OneTableIsWhere, OneTableWorks, StandsFor, StandsForItself};

/// Where all columns are read that an expression names, it stands for itself.
pub fn whole_rows_are_read()
    ensures { StandsForItself }
{}

/// Conditions above a plan that has the rows of a FROM keep those that WHERE keeps; so they do without FROM.
pub fn kept_is_where()
    ensures from { KeptIsWhere }
    ensures nothing { NothingIsWhere }
{}

/// The plan of one table has exactly the rows of FROM and WHERE, in the table's order. It hits nothing that the SELECT
/// doesn't hit, and asks for the pages of the table's tree, or for none where what names no column isn't true.
pub fn one_table_is_where()
    ensures rows { OneTableIsWhere }
    ensures hits { OneTableHits }
    ensures work { OneTableWorks }
{}

/// The plan of tables that are joined by joins of each kind has exactly the rows of FROM and WHERE, in the order in which the tables
/// are nested, which is a row's pairs or else its NULLs behind those of the row before, and last of a RIGHT or FULL JOIN the rows of
/// its table that no row before it met. So the two are one bag. It hits nothing that the SELECT doesn't hit.
pub fn joins_are_where()
    ensures rows { JoinIsWhere }
    ensures bag { JoinIsBag }
    ensures hits { JoinHits }
{}

/// Of inner joins alone the rows of FROM are in that order.
pub fn inner_joins_are_in_turn()
    ensures { InnerInTurn }
{}

/// The rows of a plan of windows are those of the plan below, in their order: of each the values at the plan's places, and a value after
/// them for each call.
pub fn windowed_rows_are_in_order()
    ensures { WindowedInOrder }
{}

/// Where each bound of a search is one of the conditions of its table, it leaves out only rows on which these aren't all true.
pub fn searches_leave_out()
    ensures { SearchesLeaveOut }
{}

/// A table of four rows, whose third column is compared and may be NULL; a condition that is false without a row; a
/// second table behind the first; one that is padded; a RIGHT and a FULL JOIN; and a RIGHT JOIN behind an inner join whose ON is
/// always false, which leaves each row of the last table alone, and its plan, where that ON stays at its table; and a running sum
/// beside each row of a table.
pub fn examples()
    ensures stands { StandsFor (0 ∷ 2 ∷ []) (is_seven 1) (is_seven 2) }
    ensures sevens { (w : Datum) → (rows_of w items sevens ≡ sevens_rows) × (work w items example_sizes sevens ≡ 5) }
    ensures nothing { (w : Datum) → (rows_of w items nothing_kept ≡ []) × (work w items example_sizes nothing_kept ≡ 0) }
    ensures padded { (w : Datum) → (rows_of w items padded ≡ padded_rows) × (work w items example_sizes padded ≡ 17) }
    ensures sold { (w : Datum) → (rows_of w items sold ≡ sold_rows) × (work w items example_sizes sold ≡ 11) }
    ensures right { (w : Datum) → (rows_of w items right_sold ≡ right_sold_rows) × (work w items example_sizes right_sold ≡ 8)
        × (map (shown (0 ∷ 3 ∷ 4 ∷ [])) (body.rows_of w items right_from) ≡ right_sold_rows) }
    ensures full { (w : Datum) → (rows_of w items full_sold ≡ full_sold_rows) × (work w items example_sizes full_sold ≡ 8) }
    ensures emptied { (w : Datum) → (rows_of w items emptied ≡ emptied_rows) × (work w items example_sizes emptied ≡ 20)
        × (map (shown (0 ∷ 5 ∷ 6 ∷ [])) (kept (values_over w items emptied_from) emptied_where (body.rows_of w items emptied_from)) ≡ emptied_rows) }
    ensures summed { (w : Datum) → (rows_of w items summed ≡ summed_rows) × (work w items example_sizes summed ≡ 5) }
    ensures planned { IsJoinPlan (0 ∷ 5 ∷ 6 ∷ []) emptied_from (conjuncts emptied_where) emptied }
{}
