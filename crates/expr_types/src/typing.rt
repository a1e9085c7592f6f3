//! The type of an expression.
ghost use Rattle.std.specs.Prelude.{◌≡◌, List, map, slice_get};
ghost use Rattle.values.specs.Datum.{datum_of};
ghost use Rattle.values.specs.declared.value.Ty.{Ty};
ghost use Rattle.expr.specs.Contract.{arm_trees, trees};
ghost use Rattle.expr.specs.Filled.{literals};
ghost use Rattle.expr.specs.TermType as spec;
ghost use Rattle.expr.specs.TermType.{type_of_terms};
ghost use Rattle.expr.specs.View.{term};

use crate::joining::{behind, giving, one_of, type_of_call, wanted};
use expr::{Arm, Expr};
use values::{Ty, Value};

// The type at a place.
fn type_at(types: &[Ty], place: usize) -> Option<Ty>
    ensures { result ≡ slice_get types.now place }
{
    types.get(place).copied()
}

/// The one type of all of these values.
fn type_of_values(values: &[Value]) -> Option<Ty>
    ensures { (columns answers : List Ty) → result ≡ type_of_terms columns answers (literals (map datum_of values.now)) }
{
    let mut ty = Some(Ty::Null);
    for value in values {
        ty = one_of(ty, Some(value.ty()));
    }
    ty
}

/// The types of what an expression is over.
#[derive(Clone, Copy)]
pub struct RowTypes<'a> {
    /// Of the columns of a row.
    pub columns: &'a [Ty],
    /// Of the answers of inner queries.
    pub answers: &'a [Ty],
}

impl RowTypes<'_> {
    /// The type of an expression, `Null` where it is NULL alone; `None` where it has none. (STRICT Tables)
    #[cycle(types)]
    pub fn type_of(&self, t: &Expr) -> Option<Ty>
        ensures { result ≡ spec.type_of_term self.now.columns.now self.now.answers.now (term t.now) }
    {
        match t {
            Expr::Literal(value) => Some(value.ty()),
            Expr::Column(place) => type_at(self.columns, *place),
            Expr::Call(function, x) => type_of_call(*function, self.type_of(x)),
            Expr::Arithmetic(_, x, y) | Expr::And(x, y) | Expr::Or(x, y) => {
                wanted(Ty::Int, one_of(self.type_of(x), self.type_of(y)))
            }
            Expr::Concat(x, y) => wanted(Ty::Text, one_of(self.type_of(x), self.type_of(y))),
            Expr::Like(x, y) => {
                let texts = wanted(Ty::Text, one_of(self.type_of(x), self.type_of(y)));
                giving(Ty::Int, texts)
            }
            Expr::Compare(_, x, y) | Expr::Is(x, y) => {
                giving(Ty::Int, one_of(self.type_of(x), self.type_of(y)))
            }
            Expr::NullIf(x, y) => one_of(self.type_of(x), self.type_of(y)),
            Expr::Between(x, low, high) => {
                let bounds = one_of(self.type_of(low), self.type_of(high));
                giving(Ty::Int, one_of(self.type_of(x), bounds))
            }
            Expr::In(x, items) => giving(Ty::Int, one_of(self.type_of(x), self.type_of_all(items))),
            Expr::Member(x, set) => giving(
                Ty::Int,
                one_of(self.type_of(x), type_of_values(set.values())),
            ),
            Expr::InAnswer(x, place) => {
                let member = type_at(self.answers, *place);
                giving(Ty::Int, one_of(self.type_of(x), member))
            }
            Expr::Coalesce(items) => self.type_of_all(items),
            Expr::Case(None, arms, otherwise) => behind(
                wanted(Ty::Int, self.type_of_whens(arms)),
                one_of(self.type_of_thens(arms), self.type_of(otherwise)),
            ),
            Expr::Case(Some(x), arms, otherwise) => behind(
                one_of(self.type_of(x), self.type_of_whens(arms)),
                one_of(self.type_of_thens(arms), self.type_of(otherwise)),
            ),
        }
    }

    // The one type of all expressions of a list.
    #[cycle(types)]
    fn type_of_all(&self, items: &[Expr]) -> Option<Ty>
        ensures { result ≡ spec.type_of_terms self.now.columns.now self.now.answers.now (trees items.now) }
    {
        let mut ty = Some(Ty::Null);
        for item in items {
            ty = one_of(ty, self.type_of(item));
        }
        ty
    }

    // The one type of what is after WHEN.
    #[cycle(types)]
    fn type_of_whens(&self, rest: &[Arm]) -> Option<Ty>
        ensures { result ≡ spec.type_of_whens self.now.columns.now self.now.answers.now (arm_trees rest.now) }
    {
        let mut ty = Some(Ty::Null);
        for arm in rest {
            ty = one_of(ty, self.type_of(&arm.when));
        }
        ty
    }

    // The one type of what is after THEN.
    #[cycle(types)]
    fn type_of_thens(&self, rest: &[Arm]) -> Option<Ty>
        ensures { result ≡ spec.type_of_thens self.now.columns.now self.now.answers.now (arm_trees rest.now) }
    {
        let mut ty = Some(Ty::Null);
        for arm in rest {
            ty = one_of(ty, self.type_of(&arm.then));
        }
        ty
    }
}

/// The type of an expression over columns and answers of inner queries of these types, `Null` where it is NULL alone; `None`
/// where it has none. (STRICT Tables)
pub fn type_of(columns: &[Ty], answers: &[Ty], t: &Expr) -> Option<Ty>
    ensures { result ≡ spec.type_of_term columns.now answers.now (term t.now) }
{
    RowTypes { columns, answers }.type_of(t)
}
