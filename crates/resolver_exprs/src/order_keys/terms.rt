//! The terms of ORDER BY.
ghost use Rattle.std.specs.Prelude.{◌≡◌, map, option_map, string_bytes};
ghost use Rattle.sql_reader_grammar.specs.Reading.{terms_of};
ghost use Rattle.semantics_names.specs.Statement as spec;
ghost use Rattle.resolver_exprs.specs.order_keys.Named as places;
ghost use Rattle.resolver_terms.specs.Outcome.{Gives};
ghost use Rattle.sql_reader_grammar.specs.statement_trees.TreeView.{expr_of, term_of};
ghost use Rattle.resolver_terms.specs.SelectView.{key_of, key_term_of};

use crate::expression_names::{InnerQueries, Place, term};
use crate::order_keys::lookup::named;
use resolver_terms::{Key, KeyTerm};
use sql_reader_grammar as written;
use sql_reader_grammar::Expr;
use sql_reader_syntax::PrefixOperator;
use std::alloc::Global;
use values::Fault;

/// The number that an expression is alone: a sign + before it is no operation. (SELECT, "The ORDER BY clause")
pub fn number_alone(e: &Expr) -> Option<i64>
    ensures { result ≡ spec.number_alone (expr_of e.now) }
{
    match e {
        Expr::Number(number) => Some(*number),
        Expr::Prefix(PrefixOperator::Plus, x) => number_alone(x),
        _ => None,
    }
}

// The result column of this number, from 1, of a list of this length.
fn numbered(width: usize, number: i64) -> Result<KeyTerm, Fault>
    ensures { Gives key_term_of result (spec.numbered width number) }
{
    match usize::try_from(number) {
        Ok(number) if 1 <= number && number <= width => Ok(KeyTerm::Result(number - 1)),
        _ => Err(Fault::WrongPlace),
    }
}

// An expression over the rows of a SELECT, where there are such rows.
fn on_rows<I: InnerQueries, P: Place>(
    alloc: Global,
    inner: &I,
    place: Option<&P>,
    e: &Expr,
) -> Result<KeyTerm, Fault>
    ensures { Gives key_term_of result
        (places.on_rows (I.answers inner.now) (option_map (λ p. P.meaning p.now) place.entry) (expr_of e.now)) }
{
    match place {
        None => Err(Fault::WrongPlace),
        Some(place) => Ok(KeyTerm::Term(term(alloc, inner, place, e)?)),
    }
}

// A term of ORDER BY: a number alone is the result column of this number, a name alone the one of this name.
fn key_term<I: InnerQueries, P: Place>(
    alloc: Global,
    inner: &I,
    place: Option<&P>,
    names: &[String],
    e: &Expr,
) -> Result<KeyTerm, Fault>
    ensures { Gives key_term_of result (spec.key_term (map (λ n. string_bytes n) names.now)
        (places.on_rows (I.answers inner.now) (option_map (λ p. P.meaning p.now) place.entry)) (expr_of e.now)) }
{
    if let Some(number) = number_alone(e) {
        return numbered(names.len(), number);
    }
    match e {
        Expr::Column(None, name) => match named(names, name.as_str())? {
            Some(at) => Ok(KeyTerm::Result(at)),
            None => on_rows(alloc, inner, place, e),
        },
        _ => on_rows(alloc, inner, place, e),
    }
}

// A term of ORDER BY, with its direction.
fn sort_key<I: InnerQueries, P: Place>(
    alloc: Global,
    inner: &I,
    place: Option<&P>,
    names: &[String],
    sort: &written::OrderingTerm,
) -> Result<Key, Fault>
    ensures { Gives key_of result (places.sort_key (map (λ n. string_bytes n) names.now)
        (places.on_rows (I.answers inner.now) (option_map (λ p. P.meaning p.now) place.entry)) (term_of sort.now)) }
{
    let by = key_term(alloc, inner, place, names, &sort.value)?;
    Ok(Key {
        by,
        direction: sort.direction,
    })
}

/// The terms of ORDER BY, behind result columns of these names. `place` is what its expressions speak of; behind DISTINCT and
/// behind a compound there are no such rows. The fault is one of `term`; `Ambiguous` of a name of two result columns;
/// `WrongPlace` of a number that is none of theirs, or of an expression where there are no rows for it; or `NoMemory`.
/// (SELECT, "The ORDER BY clause")
pub fn keys<I: InnerQueries, P: Place>(
    alloc: Global,
    inner: &I,
    place: Option<&P>,
    names: &[String],
    order: &[written::OrderingTerm],
) -> Result<Vec<Key>, Fault>
    ensures { Gives (λ v. map key_of v.items) result (spec.keys_of (map (λ n. string_bytes n) names.now)
        (places.on_rows (I.answers inner.now) (option_map (λ p. P.meaning p.now) place.entry)) (terms_of (map term_of order.now))) }
{
    let mut keys = Vec::new(alloc);
    for sort in order {
        let key = sort_key(alloc, inner, place, names, sort)?;
        keys.push(key)?;
    }
    Ok(keys)
}
