//! CREATE INDEX texts.
ghost use Rattle.std.specs.Prelude.{◌≡◌, ◌<◌, Err, IfErr, IfOk, length, map, option_map, string_bytes};
ghost use Rattle.sql_reader_creates.specs.IndexReading as spec;
ghost use Rattle.sql_reader_creates.specs.IndexTexts.{IsRefusedIndex, SpellsIndex};
ghost use Rattle.sql_reader_creates.specs.Told.{TellsOfIndex};
ghost use Rattle.sql_reader_grammar.specs.phrases.Outcomes.{Yields};
ghost use Rattle.sql_reader_grammar.specs.phrases.Steps.{HasFound};
ghost use Rattle.sql_reader_grammar.specs.phrases.Texts.{AreWithinLimits, lexemes_of, max_levels, max_text};
ghost use Rattle.sql_reader_grammar.specs.create_trees.CreateTrees.{columns_of_index};
ghost use Rattle.sql_reader_grammar.specs.create_trees.CreateView.{index_of, indexed_of};
ghost use Rattle.sql_reader_tokens.specs.source_texts.Sources.{AreCut, source_of};
ghost use Rattle.sql_reader_grammar.specs.statement_trees.TreeView.{expr_of};

use crate::conditions::condition;
use crate::keys::indexed_columns;
use sql_reader::{MAX_LEVELS, Source};
use sql_reader_grammar::{
    CreateIndex, Expr, IndexedColumn, MAX_COLUMNS, MAX_TEXT, after_keyword, name, syntax_at,
};
use sql_reader_tokens::{Grammar, Keyword, Token, read_tokens};
use std::alloc::Global;
use values::Fault;

/// Whether UNIQUE stands at the front, and what is behind it.
fn uniqueness<'t>(tokens: &'t [Token<'t>]) -> (bool, &'t [Token<'t>])
    ensures { (result.0, lexemes_of result.1.now) ≡ spec.uniqueness (lexemes_of tokens.now) }
{
    match after_keyword(tokens, Keyword::Unique) {
        Some(rest) => (true, rest),
        None => (false, tokens),
    }
}

/// The names of the index and of its table, and what is behind them.
fn index_heading<'t>(
    alloc: Global,
    tokens: &'t [Token<'t>],
    end: usize,
) -> Result<(String, String, &'t [Token<'t>]), Fault>
    ensures { HasFound (λ r. (string_bytes r.0, string_bytes r.1, lexemes_of r.2.now)) result
        (spec.index_heading (lexemes_of tokens.now)) }
{
    let Some(source) = after_keyword(tokens, Keyword::Index) else {
        return Err(syntax_at(tokens, end));
    };
    let (index, rest) = name(alloc, source, end)?;
    let Some(owner) = after_keyword(rest, Keyword::On) else {
        return Err(syntax_at(rest, end));
    };
    let (table, rest) = name(alloc, owner, end)?;
    Ok((index, table, rest))
}

/// The columns of an index, and the condition behind them; they are all of these tokens of a text.
#[tactic(auto, using(sql_reader_grammar::proofs::lemmas::phrases::OutcomeLemmas::gives_yields))]
fn last_columns<'t>(
    source: Source<'_>,
    tokens: &'t [Token<'t>],
) -> Result<(Vec<IndexedColumn>, Option<Expr>), Fault>
    requires { AreCut source.text.now source.tokens.now }
    ensures { Yields (λ r. (map indexed_of r.0.items, option_map expr_of r.1)) result
        (spec.last_columns (source_of source.entry.text.now source.entry.tokens.now) max_levels (lexemes_of tokens.now)) }
{
    let (columns, rest) = indexed_columns(source.alloc, tokens, source.text.len())?;
    let condition = condition(source, rest)?;
    Ok((columns, condition))
}

/// An index, which is all of a text's tokens.
#[tactic(auto, unfolding(crate::specs::IndexReading::create_index), using(sql_reader_grammar::proofs::lemmas::phrases::OutcomeLemmas::gives_yields))]
fn index(source: Source<'_>) -> Result<CreateIndex, Fault>
    requires { AreCut source.text.now source.tokens.now }
    ensures { Yields index_of result
        (spec.create_index (source_of source.entry.text.now source.entry.tokens.now) max_levels
        (lexemes_of source.entry.tokens.now)) }
{
    let (alloc, end) = (source.alloc, source.text.len());
    let Some(rest) = after_keyword(source.tokens, Keyword::Create) else {
        return Err(syntax_at(source.tokens, end));
    };
    let (is_unique, rest) = uniqueness(rest);
    let (name, table, rest) = index_heading(alloc, rest, end)?;
    let (columns, condition) = last_columns(source, rest)?;
    Ok(CreateIndex {
        name,
        table,
        is_unique,
        columns,
        condition,
    })
}

/// The index that a text's tokens are. Where there are no more tokens than levels, a limit is met by nothing that is spelt.
#[tactic(auto, using(crate::proofs::IndexTexts::told))]
fn settled<'t>(alloc: Global, text: &'t str, tokens: &'t [Token<'t>]) -> Result<CreateIndex, Fault>
    requires { AreCut text.now tokens.now }
    ensures { TellsOfIndex (source_of text.now tokens.now) (lexemes_of tokens.now) result }
{
    let source = Source {
        alloc,
        text,
        tokens,
    };
    match index(source) {
        Err(Fault::Limit) if tokens.len() <= MAX_LEVELS => Err(Fault::Syntax(text.len())),
        read => read,
    }
}

/// The CREATE INDEX that a text spells. (CREATE INDEX) The fault is `Syntax` where the text spells none, with the place
/// where it stops being tokens, or else of the first token that no CREATE INDEX goes on with; `Limit` where the text is
/// longer than 65,536 bytes, spells more than 100 columns, or has more than 100 tokens and spells nothing but a condition of
/// more than 100 levels; or `NoMemory`.
#[tactic(auto, using(crate::proofs::IndexTexts::index_spelt, crate::proofs::IndexTexts::index_refused, crate::proofs::IndexTexts::index_tokens_refused))]
pub fn read_create_index(alloc: Global, text: &str) -> Result<CreateIndex, Fault>
    ensures spelt { IfOk result (λ index. SpellsIndex text.now (index_of index)) }
    ensures within { IfOk result (λ index. AreWithinLimits columns_of_index text.now (index_of index)) }
    ensures refused { IfErr result (IsRefusedIndex text.now) }
    ensures long { max_text < length text.now → result ≡ Err Fault.Limit }
{
    if text.len() > MAX_TEXT {
        return Err(Fault::Limit);
    }
    let tokens = read_tokens(alloc, Grammar::Create, text)?;
    let index = settled(alloc, text, tokens.as_slice())?;
    if index.columns.len() > MAX_COLUMNS {
        return Err(Fault::Limit);
    }
    Ok(index)
}
