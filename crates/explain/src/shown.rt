//! A value written as a literal, wherever in memory it is.
ghost use Rattle.std.specs.Prelude.{◌≡◌, IfErr};
ghost use Rattle.values.specs.Datum.{Datum};
ghost use Rattle.values.specs.Literal.{literal};
ghost use Rattle.values.specs.Sink.{Writes};

use values::{Fault, Sink, Value, ValueRef, write_literal};

/// A value that is written as a literal.
pub(crate) trait Shown {
    ghost datum: { Self → Datum };

    /// Writes the value as a literal. Its one fault is `WriteFailed`, after a beginning of the literal.
    fn write<S: Sink>(&self, out: &mut S) -> Result<(), Fault>
        ensures only { IfErr result (λ e. e ≡ Fault.WriteFailed) }
        ensures writes { Writes (literal (datum self.now)) result (S.facts out.old) (S.facts out.new) };
}

impl Shown for Value {
    ghost use Rattle.values.specs.Datum.{datum_of};

    ghost datum = { datum_of };

    fn write<S: Sink>(&self, out: &mut S) -> Result<(), Fault> {
        write_literal(self, out)
    }
}

impl Shown for ValueRef<'_> {
    ghost use Rattle.values.specs.Datum.{datum_of_ref};

    ghost datum = { datum_of_ref };

    fn write<S: Sink>(&self, out: &mut S) -> Result<(), Fault> {
        self.write_literal(out)
    }
}
