//! What reads the SELECTs that a query holds.
ghost use Rattle.std.specs.Prelude.{◌≤◌, IfOk};
ghost use Rattle.sql_reader_exprs.specs.clause_reader.Seen.{seen};
ghost use Rattle.sql_reader_grammar.specs.phrases.Outcomes.{Yields};
ghost use Rattle.sql_reader_grammar.specs.phrases.Texts.{lexemes_of};
ghost use Rattle.sql_reader_grammar.specs.statement_trees.TreeView.{core_of};
ghost use Rattle.sql_reader_exprs.specs.window_reader.Setting.{inner_at};

use sql_reader_exprs::{Inner, Read};
use sql_reader_grammar::SelectCore;
use sql_reader_tokens::Token;
use values::Fault;

/// What reads phrases that stand in one more construct, SELECTs among them.
pub trait InnerQueries<'t>: Inner<'t> {
    /// A SELECT.
    fn select(&self, tokens: &'t [Token<'t>]) -> Result<Read<'t, SelectCore>, Fault>
        requires { Self.reads self.now }
        ensures value { Yields (seen core_of) result
            ((inner_at (Self.setting self.now)).core (lexemes_of tokens.now)) }
        ensures within { IfOk result (λ r. r.levels ≤ (Self.setting self.now).depth) };
}
