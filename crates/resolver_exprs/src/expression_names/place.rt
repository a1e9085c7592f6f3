//! The places of a SELECT at which an expression may be, and the inner queries there.
ghost use Rattle.std.specs.Prelude.{option_map};
ghost use Rattle.semantics_names.specs.Expression.{Answers, InnerTree, Says};
ghost use Rattle.semantics_names.specs.Statement.{answer_at};
ghost use Rattle.resolver_terms.specs.Outcome.{Gives};
ghost use Rattle.expr.specs.View.{term};
ghost use Rattle.sql_reader_grammar.specs.statement_trees.TreeView.{expr_of, query_of};

use expr::Expr as Term;
use sql_reader_grammar::{Expr, Query};
use std::alloc::Global;
use values::Fault;

/// A place of a SELECT at which an expression may stand. (SELECT)
pub trait Place {
    /// What it says of a part of an expression.
    ghost meaning: { Self → Says };

    /// The term that a part of an expression is, if the place says so. A fault says why the part may not stand there.
    fn says(&self, alloc: Global, part: &Expr) -> Result<Option<Term>, Fault>
        ensures { Gives (option_map term) result (meaning self.now (expr_of part.now)) };
}

/// The queries inside the expressions of a SELECT. (SQL Language Expressions)
pub trait InnerQueries {
    /// Their answers, by their places.
    ghost answers: { Self → Answers };

    /// The place of the query whose values are the members of an IN.
    fn values(&self, alloc: Global, query: &Query) -> Result<Option<usize>, Fault>
        ensures { Gives answer_at result (answers self.now (InnerTree.values_in (query_of query.now))) };

    /// The place of the query that an EXISTS tests.
    fn exists(&self, alloc: Global, query: &Query) -> Result<Option<usize>, Fault>
        ensures { Gives answer_at result (answers self.now (InnerTree.exists_in (query_of query.now))) };
}
