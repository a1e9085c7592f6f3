//! Types that have to be one. (STRICT Tables)
ghost use Rattle.std.specs.Prelude.{◌≡◌};
ghost use Rattle.expr.specs.TermType as spec;

use expr::Function;
use values::Ty;

/// The one type that both may stand for. (STRICT Tables)
pub fn one_type(a: Ty, b: Ty) -> Option<Ty>
    ensures { result ≡ spec.one_type a b }
{
    match (a, b) {
        (Ty::Null, _) => Some(b),
        (_, Ty::Null) => Some(a),
        (Ty::Int, Ty::Int) => Some(Ty::Int),
        (Ty::Text, Ty::Text) => Some(Ty::Text),
        (Ty::Blob, Ty::Blob) => Some(Ty::Blob),
        _ => None,
    }
}

/// The same of what may have no type.
pub fn one_of(a: Option<Ty>, b: Option<Ty>) -> Option<Ty>
    ensures { result ≡ spec.one_of a b }
{
    match (a, b) {
        (Some(a), Some(b)) => one_type(a, b),
        _ => None,
    }
}

/// A type, where what was found may stand for it.
pub fn wanted(ty: Ty, found: Option<Ty>) -> Option<Ty>
    ensures { result ≡ spec.wanted ty found }
{
    one_of(Some(ty), found)
}

/// A type, where any was found.
pub fn giving(ty: Ty, found: Option<Ty>) -> Option<Ty>
    ensures { result ≡ spec.giving ty found }
{
    match found {
        Some(_) => Some(ty),
        None => None,
    }
}

/// A type, where that of a text or a blob was found.
fn of_bytes(ty: Ty, found: Option<Ty>) -> Option<Ty>
    ensures { result ≡ spec.of_bytes ty found }
{
    match found {
        Some(Ty::Text | Ty::Blob | Ty::Null) => Some(ty),
        Some(Ty::Int) | None => None,
    }
}

/// The second type, where the first was found.
pub fn behind(first: Option<Ty>, ty: Option<Ty>) -> Option<Ty>
    ensures { result ≡ spec.behind first ty }
{
    match first {
        Some(_) => ty,
        None => None,
    }
}

/// The type that a function gives for an operand of this type.
pub fn type_of_call(function: Function, found: Option<Ty>) -> Option<Ty>
    ensures { result ≡ spec.type_of_call function found }
{
    match function {
        Function::Neg | Function::BitNot | Function::Not | Function::Abs => wanted(Ty::Int, found),
        Function::Length => of_bytes(Ty::Int, found),
        Function::Lower | Function::Upper => wanted(Ty::Text, found),
        Function::Hex => of_bytes(Ty::Text, found),
        Function::TypeOf => giving(Ty::Text, found),
    }
}
