//! Windows.
ghost use Rattle.std.specs.Prelude.{map};
ghost use Rattle.sql_reader_grammar.specs.Reading.{terms_of};
ghost use Rattle.semantics_names.specs.Places as spec;
ghost use Rattle.resolver_terms.specs.Outcome.{Gives};
ghost use Rattle.resolver_terms.specs.SelectView.{sort_of, window_of};
ghost use Rattle.sql_reader_grammar.specs.statement_trees.TreeView as trees;
ghost use Rattle.resolver_selects.specs.window_names.DefinedView.{defined_of};
ghost use Rattle.resolver_selects.specs.window_names.Sorting.{sort_key};

use crate::window_names::frames::frame;
use resolver_exprs::{InnerQueries, Place, all_terms, term};
use resolver_terms::{SortTerm, Window, copy_window};
use sql_reader_grammar as written;
use std::alloc::Global;
use values::Fault;

/// A window that a SELECT names. (Window Functions, "Window Chaining"; SELECT)
#[derive(Drop)]
pub struct Defined {
    pub name: String,
    pub window: Window,
}

// A term of ORDER BY, with its direction.
fn sort_term<I: InnerQueries, P: Place>(
    alloc: Global,
    inner: &I,
    place: &P,
    sort: &written::OrderingTerm,
) -> Result<SortTerm, Fault>
    ensures { Gives sort_of result (sort_key (I.answers inner.now) (P.meaning place.now) (trees.term_of sort.now)) }
{
    let term = term(alloc, inner, place, &sort.value)?;
    Ok(SortTerm {
        term,
        direction: sort.direction,
    })
}

// What stands behind ORDER BY of a window.
fn order<I: InnerQueries, P: Place>(
    alloc: Global,
    inner: &I,
    place: &P,
    terms: &[written::OrderingTerm],
) -> Result<Vec<SortTerm>, Fault>
    ensures { Gives (λ v. map sort_of v.items) result
        (spec.sorted (I.answers inner.now) (P.meaning place.now) (terms_of (map trees.term_of terms.now))) }
{
    let mut order = Vec::new(alloc);
    for sort in terms {
        let next = sort_term(alloc, inner, place, sort)?;
        order.push(next)?;
    }
    Ok(order)
}

/// The window that is written, over the rows of FROM or of groups. The fault is one of `term`; `BadFrame` where a distance of
/// its frame is negative; or `NoMemory`. (Window Functions)
pub fn window<I: InnerQueries, P: Place>(
    alloc: Global,
    inner: &I,
    place: &P,
    tree: &written::Window,
) -> Result<Window, Fault>
    ensures { Gives window_of result (spec.window_of (I.answers inner.now) (P.meaning place.now) (trees.window_of tree.now)) }
{
    let partition = all_terms(alloc, inner, place, tree.partition.as_slice())?;
    let order = order(alloc, inner, place, tree.order.as_slice())?;
    let frame = frame(tree.frame)?;
    Ok(Window {
        partition,
        order,
        frame,
    })
}

/// A copy of the first window that is named so. The fault is `BadFrame` where none is, or `NoMemory`. (Window Functions)
pub fn defined_as(alloc: Global, defined: &[Defined], name: &str) -> Result<Window, Fault>
    ensures { Gives window_of result (spec.defined_as (map defined_of defined.now) name.now) }
{
    for window in defined {
        if window.name.as_str().eq_ignore_ascii_case(name) {
            return Ok(copy_window(alloc, &window.window)?);
        }
    }
    Err(Fault::BadFrame)
}
