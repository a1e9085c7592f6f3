//! The least order of worked sources, and of two hundred tables of counts by a second answerer.
use crate::plan_tests::joined_tables::TABLES;
use expr::{Comparison, Expr};
use index_choice::{Conjunct, Key, Source, TreeCounts};
use itertools::Itertools;
use join_order::{Joined, Pricing, least_order};
use std::alloc::{AllocError, Global};
use std::test::Fail;

/// The pages, the rows and the levels of a table of one column, its rowid, and the table whose rowid this equals, or
/// itself where it equals none.
type Counts = (u64, u64, u64, usize);

/// How many sources of an order make a cross product, and what it costs.
type Total = (usize, u128);

fn counts_of(text: &str) -> Option<Counts> {
    let mut numbers = text.split_whitespace();
    let pages = numbers.next()?.parse::<u64>().ok()?;
    let rows = numbers.next()?.parse::<u64>().ok()?;
    let levels = numbers.next()?.parse::<u64>().ok()?;
    let other = numbers.next()?.parse::<usize>().ok()?;
    Some((pages, rows, levels, other))
}

fn table_of(alloc: Global, line: &str) -> Result<Vec<Counts>, AllocError> {
    let mut table = Vec::new(alloc);
    for text in line.split(';') {
        if let Some(counts) = counts_of(text) {
            table.push(counts)?;
        }
    }
    Ok(table)
}

fn source(alloc: Global, at: usize, counts: &Counts) -> Result<Source, AllocError> {
    let (pages, entries, depth, _) = *counts;
    let tree = TreeCounts {
        entries,
        pages,
        depth,
    };
    let mut keys = Vec::new(alloc);
    keys.push(Key::rowid(alloc, at, tree)?)?;
    Ok(Source::table(1, tree, keys))
}

fn sources(alloc: Global, table: &[Counts]) -> Result<Vec<Source>, AllocError> {
    let mut sources = Vec::new(alloc);
    for (at, counts) in table.iter().enumerate() {
        sources.push(source(alloc, at, counts)?)?;
    }
    Ok(sources)
}

fn equal(alloc: Global, column: usize, other: usize) -> Result<Conjunct, AllocError> {
    let column = Box::new(alloc, Expr::Column(column))?;
    let other = Box::new(alloc, Expr::Column(other))?;
    Conjunct::new(alloc, &Expr::Compare(Comparison::Eq, column, other))
}

fn conjuncts(alloc: Global, table: &[Counts]) -> Result<Vec<Conjunct>, AllocError> {
    let mut conjuncts = Vec::new(alloc);
    for (at, (_, _, _, other)) in table.iter().enumerate() {
        if *other != at {
            conjuncts.push(equal(alloc, at, *other)?)?;
        }
    }
    Ok(conjuncts)
}

/// What an order costs: each source is opened once for each row that those before it are expected to give together.
fn total_of(
    alloc: Global,
    prices: &Joined<'_>,
    places: &[usize],
) -> Result<Option<Total>, AllocError> {
    let mut crosses: usize = 0;
    let mut cost: u128 = 0;
    let mut rows: u128 = 1;
    for (at, source) in places.iter().enumerate() {
        if *source >= prices.count() {
            return Ok(None);
        }
        let price = prices.price(alloc, &places[..at], *source)?;
        if price.crosses && rows > 1 {
            crosses = crosses.saturating_add(1);
        }
        cost = cost.saturating_add(rows.saturating_mul(u128::from(price.cost)));
        rows = rows.saturating_mul(u128::from(price.rows));
    }
    Ok(Some((crosses, cost.min(1 << 62))))
}

/// Whether the least order of a table is this one and costs so much, where the written order costs so much.
fn is_least(
    alloc: Global,
    line: &str,
    cost: u64,
    places: &[usize],
    written: u128,
) -> Result<bool, AllocError> {
    let table = table_of(alloc, line)?;
    let sources = sources(alloc, &table)?;
    let conjuncts = conjuncts(alloc, &table)?;
    let prices = Joined {
        sources: &sources,
        conjuncts: &conjuncts,
    };
    let order = least_order(alloc, &prices)?;
    let in_turn = (0..prices.count()).collect::<Vec<usize>>(alloc)?;
    Ok(
        order.cost == cost
            && order.places.as_slice() == places
            && total_of(alloc, &prices, &in_turn)? == Some((0, written)),
    )
}

/// `big` of 2,000 rows, written first, and `item` of four rows, once or more: `big.id = a.id AND a.id = b.id AND ..`.
#[test]
fn a_search_behind_a_small_table(rt: HostRuntime) -> Result<(), Fail> {
    let alloc = rt.alloc();
    let two = "201 2000 2 1;1 4 1 1";
    assert!(rt; is_least(alloc, two, 25, &[1, 0], 2201)?);
    let seven = "201 2000 2 1;1 4 1 2;1 4 1 3;1 4 1 4;1 4 1 5;1 4 1 6;1 4 1 6";
    assert!(rt; is_least(alloc, seven, 1389, &[1, 0, 2, 3, 4, 5, 6], 2730201)?);
    Ok(())
}

/// The first of the least of all permutations.
fn least(alloc: Global, prices: &Joined<'_>) -> Result<Option<(Total, Vec<usize>)>, AllocError> {
    let count = prices.count();
    let mut best: Option<(Total, Vec<usize>)> = None;
    for places in (0..count).permutations(alloc, count)? {
        let places = places?;
        let Some(total) = total_of(alloc, prices, &places)? else {
            return Ok(None);
        };
        let is_less = match &best {
            Some((least, _)) => total < *least,
            None => true,
        };
        if is_less {
            best = Some((total, places));
        }
    }
    Ok(best)
}

fn is_walked(alloc: Global, table: &[Counts]) -> Result<bool, AllocError> {
    let sources = sources(alloc, table)?;
    let conjuncts = conjuncts(alloc, table)?;
    let prices = Joined {
        sources: &sources,
        conjuncts: &conjuncts,
    };
    let order = least_order(alloc, &prices)?;
    let Some((total, places)) = least(alloc, &prices)? else {
        return Ok(false);
    };
    Ok(
        total == (order.crosses, u128::from(order.cost))
            && order.places.as_slice() == places.as_slice(),
    )
}

#[test]
fn the_walk_of_all_permutations(rt: HostRuntime) -> Result<(), Fail> {
    let mut sources: usize = 0;
    let mut tables: usize = 0;
    for line in TABLES.lines() {
        let table = table_of(rt.alloc(), line)?;
        assert!(rt; is_walked(rt.alloc(), &table)?, "{line}");
        sources = sources.saturating_add(table.len());
        tables = tables.saturating_add(1);
    }
    assert_eq!(rt; tables, 200);
    assert_eq!(rt; sources, 642);
    Ok(())
}
