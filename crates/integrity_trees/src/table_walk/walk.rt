//! A walk over a table's tree, from its root down.
ghost use Rattle.std.specs.Prelude.{All, ◌≡◌, ◌⊎◌, ◌+◌, ◌<◌, ◌≤◌, ℤ, Option, IfErr, IfOk, MatchResult, None, OnOk, Some, length, suc, ℕ};
ghost use Rattle.btree.specs.declared.image.kind.TreeKind.TheVariants as kind;
ghost use Rattle.btree.specs.declared.image.kind.Level.TheVariants.{Interior};
ghost use Rattle.btree.specs.image.Layout.{cell_count};
ghost use Rattle.btree.specs.image.Shape.{most_levels, places_under};
ghost use Rattle.pager.specs.Calls.{IsReadFault, ReadsPages};
ghost use Rattle.pager.specs.PagerState.{IsPageNumber};
ghost use Rattle.btree.specs.Bytes.{IsDividerCell};
ghost use Rattle.btree.specs.image.Pages.{WhereSteady};
ghost use Rattle.integrity_trees.specs.table_walk.Checked.{HasCheckedTable, IsTableFault, tree_of};
ghost use Rattle.records_tables.specs.stored_rows.Keys.{HasCells};
ghost use Rattle.records_tables.specs.stored_rows.RowFaults.{IsBrokenTable};
ghost use Rattle.records_tables.specs.stored_rows.Stored.{HoldsRow};
ghost use Rattle.records_tables.specs.stored_rows.Links.{table_tree};
ghost use Rattle.integrity_trees.specs.tree_walk.Counts.{AreCounts};
ghost use Rattle.integrity_trees.specs.tree_walk.Used.{IsUnderTwice, MarksTree, MarksUnder};
ghost use Rattle.integrity_trees.specs.table_walk.Walked.{StandsWithin, IsTree, IsWalkFault};

use crate::tree_walk::{TreeCounts, child_within, counts_of_page, is_uneven, join};
use btree::{Level, MOST_LEVELS, PageView, use_page, view_of};
use pager::{Pager, Source};
use records_tables::{check_rows, is_leaf_of_rows, read_head};
use schema_tables::Table;
use std::alloc::Global;
use values::Fault;

/// The key that what is under child i is above, if there is one.
fn low_bound(view: &PageView<'_>, low: Option<i64>, i: u32) -> Option<i64>
    requires kind { view.now.kind ≡ kind.Table }
    requires level { view.now.level ≡ Interior }
    requires within { i ≤ cell_count view.now.at view.now.page }
    ensures first { i ≡ 0 → result ≡ low }
    ensures inner { (most n : ℕ) → HasCells view.now.at most view.now.page Interior → i ≡ suc n
        → (key : ℤ) × (result ≡ Some key) × IsDividerCell view.now.at view.now.page n key }
{
    if i == 0 { low } else { view.divider(i - 1) }
}

/// The greatest key that may be under child i, if there is one.
fn high_bound(view: &PageView<'_>, high: Option<i64>, i: u32) -> Option<i64>
    requires kind { view.now.kind ≡ kind.Table }
    requires level { view.now.level ≡ Interior }
    ensures inner { (most : ℕ) → HasCells view.now.at most view.now.page Interior → i < cell_count view.now.at view.now.page
        → (key : ℤ) × (result ≡ Some key) × IsDividerCell view.now.at view.now.page i key }
    ensures last { cell_count view.now.at view.now.page ≤ i → result ≡ high }
{
    if i < u32::from(view.count()) {
        view.divider(i)
    } else {
        high
    }
}

/// Walks from page `n` down, which stands at this depth, and whose keys have to be above `low` and at most `high`. Each page
/// gets its mark before it is read, so that none is read twice.
fn walk<S: Source>(
    alloc: Global,
    pager: &mut Pager<S>,
    table: &Table,
    n: u32,
    depth: u32,
    low: Option<i64>,
    high: Option<i64>,
    used: &mut [bool],
) -> Result<TreeCounts, Fault>
    requires number { IsPageNumber pager.old.state n }
    requires long { pager.old.state.header.pages < length used.old }
    requires met { WhereSteady pager.old.state (λ pages. StandsWithin pages table.now.root depth low high n) }
    ensures deep { IfOk result (λ counts. counts.levels + depth ≤ most_levels) }
    ensures tree { WhereSteady pager.old.state (λ pages. IfOk result (λ counts. IsTree pages table.now.root counts.levels low high n)) }
    ensures counts { WhereSteady pager.old.state (λ pages. IfOk result (λ counts. AreCounts pages kind.Table counts.levels n counts.cells counts.pages)) }
    ensures rows { WhereSteady pager.old.state (λ pages. IfOk result (λ counts. All (HoldsRow pages table.now) (places_under pages kind.Table counts.levels n))) }
    ensures marks { WhereSteady pager.old.state (λ pages. IfOk result (λ counts. MarksUnder pages (table_tree table.now.root) counts.levels n used.old used.new)) }
    ensures fault { WhereSteady pager.old.state (λ pages. IfErr result (λ e. IsReadFault e ⊎ IsBrokenTable pages table.now e
        ⊎ IsUnderTwice pages (table_tree table.now.root) n used.old e)) }
    ensures only { IfErr result IsWalkFault }
    ensures reads { ReadsPages result pager.old.state pager.new.state }
{
    use_page(used, n)?;
    if depth > MOST_LEVELS {
        return Err(Fault::BadDepth(table.root()));
    }
    let header = pager.header();
    let page = pager.page(n)?;
    let Some(view) = view_of(&page, n, header.usable as usize) else {
        return Err(Fault::BadPage(n));
    };
    let most = header.pages as u64 * header.page_size as u64;
    if is_leaf_of_rows(&view, most, table, n, low, high) {
        return Ok(counts_of_page(u64::from(view.count())));
    }
    // An interior page, a leaf with overflow pages, or one with a fault, which a second reading finds.
    let level = read_head(&view, most, table, n, low, high)?;
    if level == Level::Leaf {
        check_rows(alloc, pager, table, &view, most, n, used)?;
        return Ok(counts_of_page(u64::from(view.count())));
    }
    let mut counts = counts_of_page(0);
    for i in 0..u32::from(view.count()) + 1 {
        let Some(child) = child_within(&view, i, header.pages) else {
            return Err(Fault::BadPage(n));
        };
        let low = low_bound(&view, low, i);
        let high = high_bound(&view, high, i);
        let below = walk(alloc, pager, table, child, depth + 1, low, high, used)?;
        if is_uneven(i, counts.levels, below.levels) {
            return Err(Fault::BadDepth(table.root()));
        }
        counts = join(counts, below);
    }
    Ok(TreeCounts {
        levels: counts.levels + 1,
        ..counts
    })
}

/// Checks the tree of a table that has this root, with its rows, counts what it has, and gives its pages and their chains
/// their marks. Its faults are `ReadFailed`, `NoMemory`, the conditions of a tree and of its cells that are broken, and
/// `PageUse` of a page that has its mark. (Database File Format, section 1.6 "B-tree Pages")
pub fn check_table<S: Source>(
    alloc: Global,
    pager: &mut Pager<S>,
    table: &Table,
    used: &mut [bool],
) -> Result<TreeCounts, Fault>
    requires number { IsPageNumber pager.old.state table.now.root }
    requires long { pager.old.state.header.pages < length used.old }
    ensures outcome { MatchResult result (HasCheckedTable pager.old.state table.now) (IsTableFault pager.old.state table.now used.old) }
    ensures marks { WhereSteady pager.old.state (λ pages. OnOk result (MarksTree pages (tree_of table.now) used.old used.new)) }
    ensures reads { ReadsPages result pager.old.state pager.new.state }
{
    let counts = walk(alloc, pager, table, table.root(), 1, None, None, used)?;
    Ok(counts)
}
