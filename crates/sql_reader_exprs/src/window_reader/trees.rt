//! The trees of windows, and of what else follows a call.
ghost use Rattle.sql_reader_grammar.specs.statement_trees.TreeView.{behind_of, expr_of, over_of, term_of, window_of};
ghost use Rattle.std.specs.Prelude.{◌≡◌, IfOk, option_map, string_bytes};
ghost use Rattle.sql_reader_syntax.specs.ExprTree.{BehindTree, OverTree, WindowTree};
ghost use Rattle.sql_reader_exprs.specs.window_reader.Views.{order_of, present_of, some_of};

use sql_reader_grammar::{CallSuffix, Expr, OrderingTerm, Over, Window};
use sql_reader_syntax::{Direction, Frame};
use std::alloc::{AllocError, Global};

/// An expression that may be absent, behind a pointer.
pub fn boxed(alloc: Global, inner: Option<Expr>) -> Result<Option<Box<Expr>>, AllocError>
    ensures { IfOk result (λ b. option_map (λ e. expr_of e.value) b ≡ option_map expr_of inner) }
{
    match inner {
        None => Ok(None),
        Some(tree) => Ok(Some(Box::new(alloc, tree)?)),
    }
}

pub(crate) fn standing(
    alloc: Global,
    filter: Option<Expr>,
    over: Over,
) -> Result<CallSuffix, AllocError>
    ensures { IfOk result (λ b. behind_of b ≡ BehindTree.Behind (present_of filter) (over_of over)) }
{
    Ok(CallSuffix {
        filter: boxed(alloc, filter)?,
        over,
    })
}

pub(crate) fn over_nothing() -> Over
    ensures { over_of result ≡ OverTree.No_over }
{
    Over::Absent
}

pub(crate) fn over_name(name: String) -> Over
    ensures { over_of result ≡ OverTree.OverName (string_bytes name) }
{
    Over::Name(name)
}

pub(crate) fn over_window(alloc: Global, window: Window) -> Result<Over, AllocError>
    ensures { IfOk result (λ o. over_of o ≡ OverTree.Over (window_of window)) }
{
    Ok(Over::Window(Box::new(alloc, window)?))
}

pub(crate) fn windowed(
    partition: Vec<Expr>,
    order: Vec<OrderingTerm>,
    frame: Option<Frame>,
) -> Window
    ensures { window_of result ≡ WindowTree.Window (some_of partition) (order_of order) frame }
{
    Window {
        partition,
        order,
        frame,
    }
}

pub(crate) fn directed(value: Expr, direction: Direction) -> OrderingTerm
    ensures { term_of result ≡ (expr_of value, direction) }
{
    OrderingTerm { value, direction }
}
