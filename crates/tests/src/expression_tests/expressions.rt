//! Values of expressions, as SQLite answers for them.
use expr::{
    Arithmetic, Arm, Comparison, Expr, Function, ValueSet, columns, conjuncts, copy, eval, is_true,
};
use expr_types::same_tree;
use std::alloc::{AllocError, Global};
use std::test::Fail;
use values::{Fault, Value, ValueRef};

type Literal = ValueRef<'static>;

/// What stands between two literals.
#[derive(Clone, Copy)]
enum Infix {
    Arithmetic(Arithmetic),
    Is,
    NullIf,
    Like,
}

/// An expression over literals.
#[derive(Clone, Copy)]
enum Term {
    Two(Infix, Literal, Literal),
    Call(Function, Literal),
    In(Literal, &'static [Literal]),
    /// The same, in a set.
    Member(Literal, &'static [Literal]),
    IfNull(Literal, Literal),
    Iif(Literal, Literal, Literal),
    /// A CASE of one arm.
    Case(Literal, Literal, Literal),
}

const NULL: Literal = ValueRef::Null;

const LEAST: Literal = ValueRef::Int(i64::MIN);

/// Expressions, and their values; none where a result leaves 64 bits.
const VALUES: [(Term, Option<Literal>); 38] = [
    (
        Term::Two(
            Infix::Arithmetic(Arithmetic::Add),
            ValueRef::Int(i64::MAX),
            ValueRef::Int(1),
        ),
        None,
    ),
    (
        Term::Two(
            Infix::Arithmetic(Arithmetic::Sub),
            ValueRef::Int(-i64::MAX),
            ValueRef::Int(1),
        ),
        Some(LEAST),
    ),
    (
        Term::Two(
            Infix::Arithmetic(Arithmetic::Div),
            ValueRef::Int(-7),
            ValueRef::Int(2),
        ),
        Some(ValueRef::Int(-3)),
    ),
    (
        Term::Two(
            Infix::Arithmetic(Arithmetic::Rem),
            ValueRef::Int(-7),
            ValueRef::Int(2),
        ),
        Some(ValueRef::Int(-1)),
    ),
    (
        Term::Two(
            Infix::Arithmetic(Arithmetic::Div),
            ValueRef::Int(1),
            ValueRef::Int(0),
        ),
        Some(NULL),
    ),
    (
        Term::Two(Infix::Arithmetic(Arithmetic::Rem), LEAST, ValueRef::Int(-1)),
        Some(ValueRef::Int(0)),
    ),
    (
        Term::Two(Infix::Arithmetic(Arithmetic::Div), LEAST, ValueRef::Int(-1)),
        None,
    ),
    (
        Term::Two(
            Infix::Arithmetic(Arithmetic::BitAnd),
            ValueRef::Int(-4),
            ValueRef::Int(7),
        ),
        Some(ValueRef::Int(4)),
    ),
    (
        Term::Two(
            Infix::Arithmetic(Arithmetic::BitOr),
            ValueRef::Int(-4),
            ValueRef::Int(3),
        ),
        Some(ValueRef::Int(-1)),
    ),
    (
        Term::Call(Function::BitNot, ValueRef::Int(0)),
        Some(ValueRef::Int(-1)),
    ),
    (Term::In(NULL, &[]), Some(ValueRef::Int(0))),
    (
        Term::In(ValueRef::Int(1), &[ValueRef::Int(2), NULL]),
        Some(NULL),
    ),
    (
        Term::In(ValueRef::Int(1), &[ValueRef::Int(1), NULL]),
        Some(ValueRef::Int(1)),
    ),
    (Term::Member(NULL, &[]), Some(ValueRef::Int(0))),
    (Term::Member(ValueRef::Int(1), &[]), Some(ValueRef::Int(0))),
    (Term::Member(NULL, &[ValueRef::Int(1)]), Some(NULL)),
    (Term::Member(NULL, &[NULL]), Some(NULL)),
    (
        Term::Member(ValueRef::Int(1), &[ValueRef::Int(2), NULL]),
        Some(NULL),
    ),
    (
        Term::Member(
            ValueRef::Int(1),
            &[NULL, ValueRef::Int(3), ValueRef::Int(1), ValueRef::Int(3)],
        ),
        Some(ValueRef::Int(1)),
    ),
    (
        Term::Member(
            ValueRef::Int(2),
            &[ValueRef::Int(3), ValueRef::Int(1), LEAST],
        ),
        Some(ValueRef::Int(0)),
    ),
    (
        Term::Member(
            ValueRef::Text("b"),
            &[
                ValueRef::Text("c"),
                ValueRef::Text("a"),
                ValueRef::Text("b"),
            ],
        ),
        Some(ValueRef::Int(1)),
    ),
    (
        Term::Member(ValueRef::Int(1), &[ValueRef::Text("1")]),
        Some(ValueRef::Int(0)),
    ),
    (Term::Call(Function::Not, NULL), Some(NULL)),
    (Term::Two(Infix::Is, NULL, NULL), Some(ValueRef::Int(1))),
    (Term::IfNull(NULL, ValueRef::Int(2)), Some(ValueRef::Int(2))),
    (
        Term::Two(Infix::NullIf, ValueRef::Int(3), ValueRef::Int(3)),
        Some(NULL),
    ),
    (
        Term::Case(ValueRef::Int(1), ValueRef::Text("a"), ValueRef::Text("b")),
        Some(ValueRef::Text("a")),
    ),
    (
        Term::Iif(ValueRef::Int(0), ValueRef::Text("a"), ValueRef::Text("b")),
        Some(ValueRef::Text("b")),
    ),
    (
        Term::Call(Function::Hex, ValueRef::Text("abc")),
        Some(ValueRef::Text("616263")),
    ),
    (
        Term::Call(Function::Length, ValueRef::Text("né\0e")),
        Some(ValueRef::Int(2)),
    ),
    (Term::Call(Function::Abs, LEAST), None),
    (
        Term::Call(Function::TypeOf, ValueRef::Int(1)),
        Some(ValueRef::Text("integer")),
    ),
    (
        Term::Call(Function::Upper, ValueRef::Text("aé")),
        Some(ValueRef::Text("Aé")),
    ),
    (
        Term::Two(Infix::Like, ValueRef::Text("A"), ValueRef::Text("a")),
        Some(ValueRef::Int(1)),
    ),
    (
        Term::Two(Infix::Like, ValueRef::Text("abcbc"), ValueRef::Text("a%b_")),
        Some(ValueRef::Int(1)),
    ),
    (
        Term::Two(Infix::Like, ValueRef::Text("abcb"), ValueRef::Text("a%b_")),
        Some(ValueRef::Int(0)),
    ),
    (
        Term::Two(Infix::Like, ValueRef::Text("É"), ValueRef::Text("é")),
        Some(ValueRef::Int(0)),
    ),
    (
        Term::Two(Infix::Like, ValueRef::Text(""), ValueRef::Text("%")),
        Some(ValueRef::Int(1)),
    ),
];

fn literal(alloc: Global, value: ValueRef<'_>) -> Result<Box<Expr>, AllocError> {
    Ok(Box::new(alloc, Expr::Literal(value.to_value(alloc)?))?)
}

fn list(alloc: Global, values: &[Literal]) -> Result<Vec<Expr>, AllocError> {
    let mut list = Vec::new(alloc);
    for value in values {
        list.push(Expr::Literal(value.to_value(alloc)?))?;
    }
    Ok(list)
}

fn member(alloc: Global, value: Literal, items: &[Literal]) -> Result<Expr, AllocError> {
    let mut values = Vec::new(alloc);
    for item in items {
        values.push(item.to_value(alloc)?)?;
    }
    let set = ValueSet::new(alloc, values)?;
    Ok(Expr::Member(literal(alloc, value)?, Box::new(alloc, set)?))
}

fn two(infix: Infix, left: Box<Expr>, right: Box<Expr>) -> Expr {
    match infix {
        Infix::Arithmetic(operation) => Expr::Arithmetic(operation, left, right),
        Infix::Is => Expr::Is(left, right),
        Infix::NullIf => Expr::NullIf(left, right),
        Infix::Like => Expr::Like(left, right),
    }
}

/// A CASE of one arm.
fn case(alloc: Global, when: Literal, then: Literal, other: Literal) -> Result<Expr, AllocError> {
    let arm = Arm {
        when: Expr::Literal(when.to_value(alloc)?),
        then: Expr::Literal(then.to_value(alloc)?),
    };
    let mut arms = Vec::new(alloc);
    arms.push(arm)?;
    Ok(Expr::Case(None, arms, literal(alloc, other)?))
}

fn iif(alloc: Global, when: Literal, then: Literal, other: Literal) -> Result<Expr, AllocError> {
    let when = Expr::Literal(when.to_value(alloc)?);
    let then = Expr::Literal(then.to_value(alloc)?);
    Expr::iif(alloc, when, then, Expr::Literal(other.to_value(alloc)?))
}

fn if_null(alloc: Global, first: Literal, second: Literal) -> Result<Expr, AllocError> {
    let first = Expr::Literal(first.to_value(alloc)?);
    Expr::if_null(alloc, first, Expr::Literal(second.to_value(alloc)?))
}

fn build(alloc: Global, term: Term) -> Result<Expr, AllocError> {
    match term {
        Term::Two(infix, left, right) => {
            Ok(two(infix, literal(alloc, left)?, literal(alloc, right)?))
        }
        Term::Call(function, value) => Ok(Expr::Call(function, literal(alloc, value)?)),
        Term::In(value, items) => Ok(Expr::In(literal(alloc, value)?, list(alloc, items)?)),
        Term::Member(value, items) => member(alloc, value, items),
        Term::IfNull(first, second) => if_null(alloc, first, second),
        Term::Iif(when, then, other) => iif(alloc, when, then, other),
        Term::Case(when, then, other) => case(alloc, when, then, other),
    }
}

/// Whether an expression has this value, or none.
fn has_value(alloc: Global, expr: &Expr, wanted: Option<ValueRef<'_>>) -> bool {
    match eval(alloc, expr, &[]) {
        Ok(value) => Some(value.as_ref()) == wanted,
        Err(fault) => fault == Fault::Overflow && wanted.is_none(),
    }
}

/// The first row of `VALUES` that isn't so.
fn wrong_value(alloc: Global) -> Result<Option<usize>, AllocError> {
    for (row, (term, wanted)) in VALUES.iter().enumerate() {
        if !has_value(alloc, &build(alloc, *term)?, *wanted) {
            return Ok(Some(row));
        }
    }
    Ok(None)
}

/// A text of 10,000 letters LIKE a pattern of 20 runs and a letter that it hasn't.
fn like_of_many_runs(alloc: Global) -> Result<Expr, AllocError> {
    let subject = "a".repeat(alloc, 10_000)?;
    let mut pattern = "%a".repeat(alloc, 20)?;
    pattern.push('b')?;
    let (subject, pattern) = (
        ValueRef::Text(subject.as_str()),
        ValueRef::Text(pattern.as_str()),
    );
    Ok(Expr::Like(literal(alloc, subject)?, literal(alloc, pattern)?))
}

/// 0 AND a sum past the end, which is not computed.
fn stopped(alloc: Global) -> Result<Expr, AllocError> {
    let sum = two(
        Infix::Arithmetic(Arithmetic::Add),
        literal(alloc, ValueRef::Int(i64::MAX))?,
        literal(alloc, ValueRef::Int(1))?,
    );
    Ok(Expr::And(literal(alloc, ValueRef::Int(0))?, Box::new(alloc, sum)?))
}

#[test]
fn values(rt: HostRuntime) -> Result<(), Fail> {
    let alloc = rt.alloc();
    assert_eq!(rt; wrong_value(alloc)?, None);
    let zero = Some(ValueRef::Int(0));
    assert!(rt; has_value(alloc, &like_of_many_runs(alloc)?, zero));
    assert!(rt; has_value(alloc, &stopped(alloc)?, zero));
    Ok(())
}

/// Column 0 between 1 and 3, and column 1 equal to 5.
fn condition(alloc: Global) -> Result<Expr, AllocError> {
    let between = Expr::Between(
        Box::new(alloc, Expr::Column(0))?,
        literal(alloc, ValueRef::Int(1))?,
        literal(alloc, ValueRef::Int(3))?,
    );
    let equal = Expr::Compare(
        Comparison::Eq,
        Box::new(alloc, Expr::Column(1))?,
        literal(alloc, ValueRef::Int(5))?,
    );
    Ok(Expr::And(Box::new(alloc, between)?, Box::new(alloc, equal)?))
}

#[test]
fn conditions(rt: HostRuntime) -> Result<(), Fail> {
    let alloc = rt.alloc();
    let both = condition(alloc)?;
    let row = [Value::Int(2), Value::Int(5)];
    assert!(rt; is_true(alloc, &both, &row)?);
    let mut list = Vec::new(alloc);
    conjuncts(alloc, both, &mut list)?;
    assert!(rt; list.len() == 3);
    Ok(())
}

/// The sum of two columns.
fn sum(alloc: Global, left: usize, right: usize) -> Result<Expr, AllocError> {
    let left = Box::new(alloc, Expr::Column(left))?;
    let right = Box::new(alloc, Expr::Column(right))?;
    Ok(Expr::Arithmetic(Arithmetic::Add, left, right))
}

/// Whether these are one tree.
fn are_one(alloc: Global, left: Term, right: Term) -> Result<bool, AllocError> {
    Ok(same_tree(&build(alloc, left)?, &build(alloc, right)?))
}

#[test]
fn trees(rt: HostRuntime) -> Result<(), Fail> {
    let alloc = rt.alloc();
    let mut found = Vec::new(alloc);
    columns(&sum(alloc, 3, 1)?, &mut found)?;
    assert!(rt; found.as_slice() == [3, 1].as_slice());
    assert!(rt; !same_tree(&sum(alloc, 3, 1)?, &sum(alloc, 1, 3)?));
    let choice = Expr::iif(alloc, sum(alloc, 0, 1)?, condition(alloc)?, stopped(alloc)?)?;
    assert!(rt; same_tree(&choice, &copy(alloc, &choice)?));
    let shorter = Term::In(NULL, &[ValueRef::Int(2), NULL]);
    let longer = Term::In(NULL, &[ValueRef::Int(2), NULL, NULL]);
    assert!(rt; !are_one(alloc, shorter, longer)? && are_one(alloc, longer, longer)?);
    Ok(())
}

#[test]
fn sets(rt: HostRuntime) -> Result<(), Fail> {
    let alloc = rt.alloc();
    let list = Term::In(NULL, &[ValueRef::Int(2), NULL]);
    let set = Term::Member(NULL, &[ValueRef::Int(2), NULL]);
    let turned = Term::Member(NULL, &[NULL, ValueRef::Int(2)]);
    assert!(rt;
        are_one(alloc, list, set)? && are_one(alloc, set, list)? && are_one(alloc, set, set)?
    );
    assert!(rt; !are_one(alloc, set, turned)? && !are_one(alloc, list, turned)?);
    let copied = copy(alloc, &build(alloc, set)?)?;
    assert!(rt; same_tree(&copied, &build(alloc, set)?));
    Ok(())
}
