//! What holds of the definitions alone.
ghost use Rattle.std.specs.Prelude.{◌≡◌, List, ℕ};
ghost use Rattle.sql_reader_tokens.specs.Lexeme.{Begins, Lexeme};
ghost use Rattle.sql_reader_tokens.specs.Tokens.{Placed, StopsAt, Tokens};
ghost use Rattle.sql_reader_tokens.specs.declared.keywords.keyword.Grammar.{Grammar};

/// At most one token begins a text.
pub fn one_token()
    ensures { (grammar : Grammar) (text rest left : List ℕ) (first second : Lexeme) → Begins grammar text first rest
        → Begins grammar text second left → (first ≡ second) × (rest ≡ left) }
{}

/// A text is spelt as at most one list of tokens.
pub fn one_list()
    ensures { (grammar : Grammar) (text : List ℕ) (first second : List Placed) → Tokens grammar text first
        → Tokens grammar text second → first ≡ second }
{}

/// A text that stops at a place is spelt as no list of tokens.
pub fn no_list()
    ensures { (grammar : Grammar) (text : List ℕ) (place : ℕ) (tokens : List Placed) → StopsAt grammar text place
        → ¬ (Tokens grammar text tokens) }
{}

/// A text stops at one place at most.
pub fn one_stop()
    ensures { (grammar : Grammar) (text : List ℕ) (first second : ℕ) → StopsAt grammar text first
        → StopsAt grammar text second → first ≡ second }
{}
