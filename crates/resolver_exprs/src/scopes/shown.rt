//! A column that a FROM shows.
ghost use Rattle.std.specs.Prelude.{◌≡◌, IfOk, OnOk, map, option_map, string_bytes};
ghost use Rattle.expr.specs.Term.{column};
ghost use Rattle.semantics_names.specs.Scope as spec;
ghost use Rattle.expr.specs.View.{term};
ghost use Rattle.resolver_exprs.specs.scopes.Using.{hidden_column, merged_column};

use expr::Expr;
use std::alloc::{AllocError, Global};
use std::marker::Model;

/// A column of the row that FROM gives. (SELECT, "Determination of input data")
#[derive(Debug, Drop)]
pub struct Shown {
    source: Option<String>,
    name: String,
    places: Vec<usize>,
}

impl Model for Shown {
    ghost use Rattle.std.specs.Prelude.{option_map, string_bytes};
    ghost use Rattle.semantics_names.specs.Scope.{Shown};

    ghost Value = { Shown };

    ghost view = { λ s. record {
      source = option_map (λ name. string_bytes name) s.source;
      name = string_bytes s.name;
      places = s.places.items;
    } };
}

fn columns(alloc: Global, places: &[usize]) -> Result<Vec<Expr>, AllocError>
    ensures { IfOk result (λ v. map term v.items ≡ map column places.now) }
{
    let mut items = Vec::new(alloc);
    for at in places {
        items.push(Expr::Column(*at))?;
    }
    Ok(items)
}

/// The value of the first of these places that isn't NULL; mostly the one value. (SELECT, "Determination of input data")
pub fn bare_term(alloc: Global, places: &[usize]) -> Result<Expr, AllocError>
    ensures { IfOk result (λ e. term e ≡ spec.bare_term places.now) }
{
    match places {
        [at] => Ok(Expr::Column(*at)),
        [] => Ok(Expr::Coalesce(Vec::new(alloc))),
        [_, _, ..] => Ok(Expr::Coalesce(columns(alloc, places)?)),
    }
}

impl Shown {
    /// A column of this source and name, whose bare name looks at these places of the row, or that has none.
    pub fn new(source: Option<String>, name: String, places: Vec<usize>) -> Shown
        ensures { result ≡ record {
          source = option_map (λ s. string_bytes s) source;
          name = string_bytes name;
          places = places.items;
        } }
    {
        Shown {
            source,
            name,
            places,
        }
    }

    /// Whether it is called so behind the name of its source.
    pub(crate) fn is_of(&self, table: &str) -> bool
        ensures { result ≡ spec.is_source table.now self.now.source }
    {
        match &self.source {
            None => false,
            Some(source) => source.as_str().eq_ignore_ascii_case(table),
        }
    }

    /// Whether it has a bare name.
    pub(crate) fn is_bare(&self) -> bool
        ensures { result ≡ spec.is_bare self.now.places }
    {
        !self.places.is_empty()
    }

    /// Whether `table.name`, or the bare name, is this column.
    pub(crate) fn is_called(&self, table: Option<&str>, name: &str) -> bool
        ensures { result ≡ spec.is_called (option_map (λ t. t.now) table.entry) name.now self.now }
    {
        let here = match table {
            None => self.is_bare(),
            Some(table) => self.is_of(table),
        };
        here && self.name.as_str().eq_ignore_ascii_case(name)
    }

    /// The term that it is at a place of the row, by its bare name or behind its source's.
    pub(crate) fn term(
        &self,
        alloc: Global,
        table: Option<&str>,
        at: usize,
    ) -> Result<Expr, AllocError>
        ensures { IfOk result (λ e. term e
            ≡ spec.bare_term (spec.shown_places (option_map (λ t. t.now) table.entry) at self.now)) }
    {
        match table {
            Some(_) => Ok(Expr::Column(at)),
            None => bare_term(alloc, self.places.as_slice()),
        }
    }

    /// Its name, in memory of its own.
    pub(crate) fn name(&self, alloc: Global) -> Result<String, AllocError>
        ensures { IfOk result (λ name. string_bytes name ≡ self.now.name) }
    {
        String::from_str(alloc, self.name.as_str())
    }

    /// The places at which its bare name looks, in memory of their own.
    pub(crate) fn places(&self) -> Result<Vec<usize>, AllocError>
        ensures { IfOk result (λ v. v.items ≡ self.now.places) }
    {
        self.places.clone()
    }

    /// Its bare name, if it is this one, looks at these places too.
    pub(crate) fn merge(&mut self, name: &str, places: &[usize]) -> Result<(), AllocError>
        ensures { OnOk result (self.new ≡ merged_column name.now places.now self.old) }
    {
        if self.is_called(None, name) {
            self.places.extend_from_slice(places)?;
        }
        Ok(())
    }

    /// Its bare name, if it is this one, is no longer its own.
    pub(crate) fn hide(&mut self, name: &str)
        ensures { self.new ≡ hidden_column name.now self.old }
    {
        if self.is_called(None, name) {
            self.places.clear();
        }
    }
}
