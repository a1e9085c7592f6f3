//! What holds of the definitions alone.
ghost use Rattle.std.specs.Prelude.{◌≡◌, List, ℕ};
ghost use Rattle.sql_reader_grammar.specs.Clauses.{Tokens};
ghost use Rattle.sql_reader_grammar.specs.Examples.{Examples};
ghost use Rattle.sql_reader_grammar.specs.Read.{SaysOfStatement};
ghost use Rattle.sql_reader_grammar.specs.Reading.{statement};
ghost use Rattle.sql_reader_grammar.specs.Statements.{States};
ghost use Rattle.sql_reader_syntax.specs.StatementTree.{StatementTree};

/// Tokens spell at most one statement, whatever levels it has; `source` tells the source text of each phrase.
pub fn one_statement()
    ensures { (source : ℕ → ℕ → List ℕ) (levels others : ℕ) (first second : StatementTree) (tokens : Tokens)
        → States source levels first tokens → States source others second tokens → first ≡ second }
{}

/// The reader on lists is exact: it reads what is spelt, and refuses nothing that is spelt within so many levels.
pub fn reader_says()
    ensures { (source : ℕ → ℕ → List ℕ) (levels : ℕ) (tokens : Tokens)
        → SaysOfStatement source levels tokens (statement source levels tokens) }
{}

/// Worked statements.
pub fn examples()
    ensures { Examples }
{}
