//! Calls, and what else begins with a name.
ghost use Rattle.std.specs.Prelude.{◌≡◌, ◌≤◌, IfOk};
ghost use Rattle.sql_reader_exprs.specs.clause_reader.Seen.{seen};
ghost use Rattle.sql_reader_exprs.specs.window_reader.Setting.{at, inner_at};
ghost use Rattle.sql_reader_grammar.specs.Reading as spec;
ghost use Rattle.sql_reader_grammar.specs.phrases.Outcomes.{Yields};
ghost use Rattle.sql_reader_grammar.specs.phrases.Texts.{lexemes_of};
ghost use Rattle.sql_reader_grammar.specs.Fronts as front;
ghost use Rattle.sql_reader_grammar.specs.statement_trees.TreeView.{behind_of, expr_of};
ghost use Rattle.sql_reader_tokens.specs.Content.{content_of};

use crate::call_reader::trees::{call, column, count_rows};
use crate::clause_reader::{Read, a_name};
use crate::lookahead::{Following, Inside, following_at, inside_at};
use crate::window_reader::{Inner, behind, list};
use sql_reader_grammar::{CallSuffix, Expr, after_sign, needed, syntax_at};
use sql_reader_syntax::Function;
use sql_reader_tokens::{Quoting, Sign, Token, name_content};
use values::Fault;

/// The function that a name is, if it isn't quoted.
fn function_at(quoting: Quoting, inside: &str) -> Option<Function>
    ensures { result ≡ spec.function_at quoting (content_of quoting inside.now) }
{
    match quoting {
        Quoting::Bare => Function::named(inside),
        Quoting::DoubleQuotes | Quoting::Brackets | Quoting::Backquotes => None,
    }
}

/// What stands behind a call that has no argument: the call is a level itself.
fn counted_behind<'t, I: Inner<'t>>(
    inner: &I,
    tokens: &'t [Token<'t>],
) -> Result<Read<'t, CallSuffix>, Fault>
    requires { I.reads inner.now }
    ensures value { Yields (seen behind_of) result
        (spec.counted (I.setting inner.now).source (inner_at (I.setting inner.now)) (I.setting inner.now).depth
        (at spec.behind (I.setting inner.now) (lexemes_of tokens.now))) }
    ensures within { IfOk result (λ r. r.levels ≤ (I.setting inner.now).depth) }
{
    if inner.depth() == 0 {
        return Err(Fault::Limit);
    }
    let behind = behind(inner, tokens)?;
    Ok(Read {
        tree: behind.tree,
        levels: 1_usize.max(behind.levels),
        rest: behind.rest,
    })
}

/// `count(*)`, behind the star.
fn starred<'t, I: Inner<'t>>(
    inner: &I,
    function: Function,
    tokens: &'t [Token<'t>],
) -> Result<Read<'t, Expr>, Fault>
    requires { I.reads inner.now }
    ensures value { Yields (seen expr_of) result
        (at spec.starred (I.setting inner.now) function (lexemes_of tokens.now)) }
    ensures within { IfOk result (λ r. r.levels ≤ (I.setting inner.now).depth) }
{
    match function {
        Function::Count => {
            let rest = needed(after_sign(tokens, Sign::Close), tokens, inner.end())?;
            let behind = counted_behind(inner, rest)?;
            Ok(Read {
                tree: count_rows(behind.tree),
                levels: behind.levels,
                rest: behind.rest,
            })
        }
        _ => Err(syntax_at(tokens, inner.end())),
    }
}

/// A call, behind its parenthesis.
fn arguments<'t, I: Inner<'t>>(
    inner: &I,
    function: Function,
    tokens: &'t [Token<'t>],
) -> Result<Read<'t, Expr>, Fault>
    requires { I.reads inner.now }
    ensures value { Yields (seen expr_of) result
        (at spec.arguments (I.setting inner.now) function (lexemes_of tokens.now)
        (front.inside (lexemes_of tokens.now))) }
    ensures within { IfOk result (λ r. r.levels ≤ (I.setting inner.now).depth) }
{
    let end = inner.end();
    match inside_at(tokens) {
        Inside::Closed(rest) => {
            if !function.takes(0) {
                return Err(syntax_at(tokens, end));
            }
            let behind = counted_behind(inner, rest)?;
            Ok(Read {
                tree: call(function, Vec::new(inner.alloc()), behind.tree),
                levels: behind.levels,
                rest: behind.rest,
            })
        }
        Inside::Star(rest) => starred(inner, function, rest),
        Inside::Arguments => {
            let all = list(inner, Some(function), tokens)?;
            let rest = needed(after_sign(all.rest, Sign::Close), all.rest, end)?;
            if !function.takes(all.tree.len()) {
                return Err(syntax_at(all.rest, end));
            }
            let behind = behind(inner, rest)?;
            Ok(Read {
                tree: call(function, all.tree, behind.tree),
                levels: all.levels.max(behind.levels),
                rest: behind.rest,
            })
        }
    }
}

/// What begins with a name, behind it.
pub fn named<'t, I: Inner<'t>>(
    inner: &I,
    quoting: Quoting,
    inside: &str,
    tokens: &'t [Token<'t>],
) -> Result<Read<'t, Expr>, Fault>
    requires { I.reads inner.now }
    ensures value { Yields (seen expr_of) result
        (at spec.named (I.setting inner.now) quoting (content_of quoting inside.now) (lexemes_of tokens.now)
        (front.following (lexemes_of tokens.now))) }
    ensures within { IfOk result (λ r. r.levels ≤ (I.setting inner.now).depth) }
{
    match following_at(tokens) {
        Following::Call(rest) => match function_at(quoting, inside) {
            Some(function) => arguments(inner, function, rest),
            None => Err(syntax_at(tokens, inner.end())),
        },
        Following::Dot(rest) => {
            let name = a_name(inner.alloc(), rest, inner.end())?;
            let table = name_content(inner.alloc(), quoting, inside)?;
            Ok(Read {
                tree: column(Some(table), name.tree),
                levels: name.levels,
                rest: name.rest,
            })
        }
        Following::Else => Ok(Read {
            tree: column(None, name_content(inner.alloc(), quoting, inside)?),
            levels: 0,
            rest: tokens,
        }),
    }
}
