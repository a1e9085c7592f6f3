//! An example of the definitions.
ghost use Rattle.std.specs.Prelude.{◌≡◌};
ghost use Rattle.explain_labels.specs.Examples.{labels, statement};
ghost use Rattle.explain_labels.specs.Labels.{statement_labels};

/// An item of WITH over a table with an alias; a mention of it with an alias, a query over it, and a query inside EXISTS.
pub fn examples()
    ensures { statement_labels statement ≡ labels }
{}
