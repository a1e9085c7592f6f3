//! The paths of worked tables, with what they are expected to cost and to give.

use expr::{Comparison, Expr, Function};
use index_choice::{Conjunct, Key, Path, Source, TreeCounts, best, best_path, implying, paths};
use std::alloc::{AllocError, Global};
use std::test::Fail;
use values::Value;

/// A conjunct over a column.
#[derive(Clone, Copy)]
enum Written {
    Number(Comparison, usize, i64),
    IsColumn(usize, usize),
    IsNull(usize),
}

/// Conjuncts, the cost and the rows of each path that they serve, and the place of the best.
#[derive(Clone, Copy)]
struct Case {
    written: &'static [Written],
    paths: &'static [(u64, u64)],
    best: usize,
}

fn is_null(alloc: Global, column: usize) -> Result<Expr, AllocError> {
    let null = Box::new(alloc, Expr::Literal(Value::Null))?;
    let column = Box::new(alloc, Expr::Column(column))?;
    Ok(Expr::Is(column, null))
}

fn compare(alloc: Global, op: Comparison, column: usize, value: Expr) -> Result<Expr, AllocError> {
    let column = Box::new(alloc, Expr::Column(column))?;
    let value = Box::new(alloc, value)?;
    Ok(Expr::Compare(op, column, value))
}

fn conjunct(alloc: Global, written: Written) -> Result<Expr, AllocError> {
    match written {
        Written::Number(op, column, number) => {
            compare(alloc, op, column, Expr::Literal(Value::Int(number)))
        }
        Written::IsColumn(column, other) => {
            compare(alloc, Comparison::Eq, column, Expr::Column(other))
        }
        Written::IsNull(column) => is_null(alloc, column),
    }
}

fn conjuncts(alloc: Global, written: &[Written]) -> Result<Vec<Expr>, AllocError> {
    let mut exprs = Vec::new(alloc);
    for one in written {
        exprs.push(conjunct(alloc, *one)?)?;
    }
    Ok(exprs)
}

/// `tag(item, label, w, PRIMARY KEY (label, item))` without rowids, of three rows, with an index on `w` and one on
/// `item`; each tree is one page.
fn tag(alloc: Global) -> Result<Source, AllocError> {
    let tree = TreeCounts {
        entries: 3,
        pages: 1,
        depth: 1,
    };
    let mut keys = Vec::new(alloc);
    let columns = Vec::from_slice(alloc, &[1, 0])?;
    let distinct = Vec::from_slice(alloc, &[2, 3])?;
    keys.push(Key::primary(alloc, columns, distinct, tree))?;
    for (column, values) in [(2, 3), (0, 2)] {
        let columns = Vec::from_slice(alloc, &[column])?;
        let distinct = Vec::from_slice(alloc, &[values])?;
        keys.push(Key::index(columns, Vec::new(alloc), distinct, tree, tree))?;
    }
    Ok(Source::table(3, tree, keys))
}

/// `big(id INTEGER PRIMARY KEY, qty, pad)` of 2,000 rows in 201 pages, with an index on `qty` of the 1,500 rows in which
/// it isn't NULL, of 500 values; either tree has two levels.
fn big(alloc: Global, exprs: &[Expr]) -> Result<Source, AllocError> {
    let table = TreeCounts {
        entries: 2000,
        pages: 201,
        depth: 2,
    };
    let index = TreeCounts {
        entries: 1500,
        pages: 21,
        depth: 2,
    };
    let null = Box::new(alloc, is_null(alloc, 1)?)?;
    let mut conditions = Vec::new(alloc);
    conditions.push(implying(alloc, exprs, &Expr::Call(Function::Not, null))?)?;
    let columns = Vec::from_slice(alloc, &[1])?;
    let distinct = Vec::from_slice(alloc, &[500])?;
    let mut keys = Vec::new(alloc);
    keys.push(Key::rowid(alloc, 0, table)?)?;
    keys.push(Key::index(columns, conditions, distinct, index, table))?;
    Ok(Source::table(3, table, keys))
}

/// `item(id INTEGER PRIMARY KEY, name, qty)` of four rows, with an index on `qty`, which has three values, NULL among
/// them; each tree is one page.
fn item(alloc: Global) -> Result<Source, AllocError> {
    let tree = TreeCounts {
        entries: 4,
        pages: 1,
        depth: 1,
    };
    let columns = Vec::from_slice(alloc, &[2])?;
    let distinct = Vec::from_slice(alloc, &[3])?;
    let mut keys = Vec::new(alloc);
    keys.push(Key::rowid(alloc, 0, tree)?)?;
    keys.push(Key::index(columns, Vec::new(alloc), distinct, tree, tree))?;
    Ok(Source::table(3, tree, keys))
}

fn are_costs(found: &[Path], paths: &[(u64, u64)]) -> bool {
    found.len() == paths.len()
        && found.iter().zip(paths).all(|(path, (cost, rows))| path.cost == *cost
            && path.rows == *rows)
}

/// Whether a source behind another one of three columns has these paths.
fn has_paths(
    alloc: Global,
    source: &Source,
    exprs: &[Expr],
    case: &Case,
) -> Result<bool, AllocError> {
    let mut seen = Vec::new(alloc);
    for expr in exprs {
        seen.push(Conjunct::new(alloc, expr)?)?;
    }
    let known = [false, false, false, true, true, true];
    let found = paths(alloc, &known, &[true; 6], &seen, source)?;
    let taken = best(&found);
    let least = best_path(alloc, &known, &[true; 6], &seen, source)?;
    let (cost, rows) = case.paths.get(case.best).copied().unwrap_or((0, 0));
    Ok(
        are_costs(&found, case.paths)
            && (taken.cost, taken.rows) == (cost, rows)
            && (least.cost, least.rows) == (cost, rows),
    )
}

/// The scan is rank 0; `label` is column 1 and `w` column 2.
const TAG: Case = Case {
    written: &[
        Written::Number(Comparison::Eq, 1, 7),
        Written::Number(Comparison::Gt, 2, 5),
    ],
    paths: &[(1, 3), (4, 2), (4, 1)],
    best: 0,
};

/// `qty` is column 2.
const ITEM: Case = Case {
    written: &[Written::Number(Comparison::Lt, 2, 40)],
    paths: &[(1, 4), (4, 1)],
    best: 0,
};

/// `id` is column 0 and `qty` column 1; column 3 is one of a source that is placed before.
const BIG: [Case; 5] = [
    Case {
        written: &[Written::Number(Comparison::Eq, 1, 7)],
        paths: &[(201, 2000), (16, 3)],
        best: 1,
    },
    Case {
        written: &[Written::IsNull(1)],
        paths: &[(201, 2000)],
        best: 0,
    },
    Case {
        written: &[Written::Number(Comparison::Lt, 1, 8)],
        paths: &[(201, 2000), (1504, 375)],
        best: 0,
    },
    Case {
        written: &[
            Written::Number(Comparison::Ge, 0, 10),
            Written::Number(Comparison::Le, 0, 20),
        ],
        paths: &[(201, 2000), (504, 250)],
        best: 0,
    },
    Case {
        written: &[Written::IsColumn(0, 3)],
        paths: &[(201, 2000), (6, 1)],
        best: 1,
    },
];

#[test]
fn paths_of_worked_tables(rt: HostRuntime) -> Result<(), Fail> {
    let alloc = rt.alloc();
    let exprs = conjuncts(alloc, TAG.written)?;
    assert!(rt; has_paths(alloc, &tag(alloc)?, &exprs, &TAG)?);
    let exprs = conjuncts(alloc, ITEM.written)?;
    assert!(rt; has_paths(alloc, &item(alloc)?, &exprs, &ITEM)?);
    for case in &BIG {
        let exprs = conjuncts(alloc, case.written)?;
        assert!(rt; has_paths(alloc, &big(alloc, &exprs)?, &exprs, case)?);
    }
    Ok(())
}
