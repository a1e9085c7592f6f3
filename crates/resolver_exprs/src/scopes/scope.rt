//! The columns that a FROM shows.
ghost use Rattle.std.specs.Prelude.{◌≡◌, ◌++◌, IfOk, None, OnOk, length, map, option_map, string_bytes};
ghost use Rattle.semantics_names.specs.Scope.{column_of, places_of};
ghost use Rattle.semantics_names.specs.Sources as sources;
ghost use Rattle.semantics_names.specs.Statement as spec;
ghost use Rattle.resolver_terms.specs.Outcome.{Gives};
ghost use Rattle.expr.specs.View.{term};
ghost use Rattle.resolver_exprs.specs.scopes.ResultView.{result_of};

use crate::scopes::lookup::{column, declared_name, places};
use crate::scopes::stars::{starred, starred_of};
use crate::scopes::using::{hide, merge};
use crate::scopes::{ResultColumn, Shown};
use expr::Expr;
use std::alloc::{AllocError, Global};
use std::marker::Model;
use values::Fault;

/// The columns that a FROM shows, one for each value of its row. (SELECT, "Determination of input data")
#[derive(Debug, Drop)]
pub struct Scope {
    columns: Vec<Shown>,
}

impl Model for Scope {
    ghost use Rattle.std.specs.Prelude.{List};
    ghost use Rattle.semantics_names.specs.Scope.{Shown};

    ghost Value = { List Shown };

    ghost view = { λ s. s.columns.items };
}

impl Scope {
    /// These columns.
    pub fn new(columns: Vec<Shown>) -> Scope
        ensures { result ≡ columns.items }
    {
        Scope { columns }
    }

    /// How many values the row has.
    pub fn len(&self) -> usize
        ensures { result ≡ length self.now }
    {
        self.columns.len()
    }

    /// The term of the one column that is called so, behind the name of its source or by its bare name. The fault is
    /// `UnknownColumn` where none is, `Ambiguous` where two are, or `NoMemory`. (SELECT, "Determination of input data")
    pub fn column(&self, alloc: Global, table: Option<&str>, name: &str) -> Result<Expr, Fault>
        ensures { Gives term result (column_of self.now (option_map (λ t. t.now) table.entry) name.now) }
    {
        column(alloc, self.columns.as_slice(), table, name)
    }

    /// The places at which the one column of this bare name looks. The fault is `UnknownColumn` where none is called so,
    /// `Ambiguous` where two are, or `NoMemory`. (SELECT, "Determination of input data")
    pub fn places(&self, name: &str) -> Result<Vec<usize>, Fault>
        ensures { Gives (λ v. v.items) result (places_of self.now None name.now) }
    {
        places(self.columns.as_slice(), name)
    }

    /// These columns, and behind them those of a source to the right.
    pub fn append(&mut self, right: Scope) -> Result<(), AllocError>
        ensures { OnOk result (self.new ≡ self.old ++ right) }
    {
        let Scope { mut columns } = right;
        self.columns.append(&mut columns)
    }

    /// The columns of this bare name look at these places too, which are those of the column of a source to the right that USING
    /// names. (SELECT, "Determination of input data")
    pub fn merge(&mut self, name: &str, places: &[usize]) -> Result<(), AllocError>
        ensures { OnOk result (self.new ≡ sources.merged name.now places.now self.old) }
    {
        merge(self.columns.as_mut_slice(), name, places)
    }

    /// This bare name is no longer that of a column, since USING names it. (SELECT, "Determination of input data")
    pub fn hide(&mut self, name: &str)
        ensures { self.new ≡ sources.hidden name.now self.old }
    {
        hide(self.columns.as_mut_slice(), name);
    }

    /// The name of the first column that is called so, as its source declares it; where none is, the name that is written.
    /// (SELECT, "Generation of the set of result rows")
    pub fn declared_name(
        &self,
        alloc: Global,
        table: Option<&str>,
        name: &str,
    ) -> Result<String, AllocError>
        ensures { IfOk result (λ s. string_bytes s ≡ spec.declared_name self.now (option_map (λ t. t.now) table.entry) name.now) }
    {
        declared_name(alloc, self.columns.as_slice(), table, name)
    }

    /// The columns of `*`. (SELECT, "Generation of the set of result rows")
    pub fn starred(&self, alloc: Global) -> Result<Vec<ResultColumn>, AllocError>
        ensures { IfOk result (λ v. map result_of v.items ≡ spec.starred self.now) }
    {
        starred(alloc, self.columns.as_slice())
    }

    /// The columns of `t.*`. (SELECT, "Generation of the set of result rows")
    pub fn starred_of(&self, alloc: Global, table: &str) -> Result<Vec<ResultColumn>, AllocError>
        ensures { IfOk result (λ v. map result_of v.items ≡ spec.starred_of table.now 0 self.now) }
    {
        starred_of(alloc, self.columns.as_slice(), table)
    }
}
