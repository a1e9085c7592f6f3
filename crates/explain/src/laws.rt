//! What holds of the definitions alone, and examples of them.
ghost use Rattle.std.specs.Prelude.{◌≡◌, ℕ, All, List, [], ◌∷◌, ◌++◌, codes, negsuc, pos};
ghost use Rattle.values.specs.Datum.{null, int, text, blob};
ghost use Rattle.values.specs.Row.{Row};
ghost use Rattle.explain.specs.PlanText.{plan_text};
ghost use Rattle.explain.specs.Text.{IsInRange, row_text, rows_text};

/// No row's text begins another's: where one does, the texts are one. The rows are one too, where their whole numbers
/// have 64 bits.
pub fn one_row()
    ensures text { (first second : Row) (rest : List ℕ) → row_text first ++ rest ≡ row_text second
        → row_text first ≡ row_text second }
    ensures row { (first second : Row) (rest : List ℕ) → row_text first ++ rest ≡ row_text second
        → All IsInRange first → All IsInRange second → first ≡ second }
{}

/// A text is that of one list of rows at most, where their whole numbers have 64 bits.
pub fn one_list()
    ensures { (first second : List Row) → All (All IsInRange) first → All (All IsInRange) second
        → rows_text first ≡ rows_text second → first ≡ second }
{}

/// Rows as quote(X) of SQLite writes their values: numbers and NULL, a quote and a comma within a text, a blob, and no
/// value.
pub fn examples()
    ensures numbers { row_text (int (pos 40) ∷ null ∷ int (negsuc 1) ∷ []) ≡ codes "40,NULL,-2" ++ 10 ∷ [] }
    ensures texts { row_text (text (codes "it's") ∷ text (codes "a,b") ∷ []) ≡ codes "'it''s','a,b'" ++ 10 ∷ [] }
    ensures bytes { row_text (blob (10 ∷ 255 ∷ []) ∷ []) ≡ codes "X'0AFF'" ++ 10 ∷ [] }
    ensures empty { row_text [] ≡ 10 ∷ [] }
{}

/// The text of a plan of three steps, of which one is a part of the first. (EXPLAIN QUERY PLAN)
pub fn example_of_plan()
    ensures { plan_text (record { depth = 0; text = codes "MATERIALIZE x" } ∷ record { depth = 1; text = codes "SCAN big" }
        ∷ record { depth = 0; text = codes "SCAN x" } ∷ [])
        ≡ (codes "MATERIALIZE x" ++ 10 ∷ []) ++ (codes "  SCAN big" ++ 10 ∷ []) ++ (codes "SCAN x" ++ 10 ∷ []) }
{}
