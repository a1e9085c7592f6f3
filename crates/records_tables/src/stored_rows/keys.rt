//! The keys of one page of a table's tree.
ghost use Rattle.std.specs.Prelude.{◌≡◌, ◌<◌, ◌↔◌, ℤ, IfErr, IfNone, IfOk, IfSome, IsTrue};
ghost use Rattle.btree.specs.declared.image.kind.TreeKind.TheVariants as kind;
ghost use Rattle.btree.specs.image.Layout.{cell_count};
ghost use Rattle.values.specs.Bounds.{IsAbove, IsAtMost};
ghost use Rattle.records_tables.specs.stored_rows.Keys.{HasCells, HasKeyAt, IsHead, IsHeadFault, KeysFit};

use btree::{Level, PageView};
use schema_tables::Table;
use values::Fault;

fn is_above(low: Option<i64>, key: i64) -> bool
    ensures { IsTrue result ↔ IsAbove low key }
{
    match low {
        Some(low) => low < key,
        None => true,
    }
}

fn is_at_most(high: Option<i64>, key: i64) -> bool
    ensures { IsTrue result ↔ IsAtMost high key }
{
    match high {
        Some(high) => key <= high,
        None => true,
    }
}

/// Whether a key keeps the bounds that there may be.
pub(crate) fn is_within(low: Option<i64>, high: Option<i64>, key: i64) -> bool
    ensures { IsTrue result ↔ (IsAbove low key × IsAtMost high key) }
{
    is_above(low, key) && is_at_most(high, key)
}

/// The key of cell i, with a payload of at most `most` bytes; `None` where no cell is there.
fn key_of(view: &PageView<'_>, most: u64, i: u32) -> Option<i64>
    requires kind { view.now.kind ≡ kind.Table }
    requires within { i < cell_count view.now.at view.now.page }
    ensures found { IfSome result (λ key. HasKeyAt view.now.at most view.now.page view.now.level i key) }
    ensures none { IfNone result ((key : ℤ) → ¬ HasKeyAt view.now.at most view.now.page view.now.level i key) }
{
    match view.level() {
        Level::Leaf => view.row(most, i)?.rowid,
        Level::Interior => view.divider(i),
    }
}

/// Whether the keys of a page ascend within the bounds; `None` where one of its cells isn't there.
fn keys_fit(view: &PageView<'_>, most: u64, low: Option<i64>, high: Option<i64>) -> Option<bool>
    requires { view.now.kind ≡ kind.Table }
    ensures cells { IfSome result (λ fit. HasCells view.now.at most view.now.page view.now.level) }
    ensures fit { IfSome result (λ fit. IsTrue fit
        ↔ KeysFit (HasKeyAt view.now.at most view.now.page view.now.level) (cell_count view.now.at view.now.page) low high) }
    ensures none { IfNone result (¬ HasCells view.now.at most view.now.page view.now.level) }
{
    let mut fit = true;
    let mut last = low;
    for i in 0..u32::from(view.count()) {
        let key = key_of(view, most, i)?;
        let within = is_within(last, high, key);
        fit = fit & within;
        last = Some(key);
    }
    Some(fit)
}

/// Tests what the bytes of page `n` show of it, and tells its level.
pub fn read_head(
    view: &PageView<'_>,
    most: u64,
    table: &Table,
    n: u32,
    low: Option<i64>,
    high: Option<i64>,
) -> Result<Level, Fault>
    requires { view.now.kind ≡ kind.Table }
    ensures level { IfOk result (λ level. level ≡ view.now.level) }
    ensures head { IfOk result (λ level. IsHead view.now.at most view.now.page view.now.level table.now.root n low high) }
    ensures fault { IfErr result (IsHeadFault view.now.at most view.now.page view.now.level table.now.root n low high) }
{
    let Some(fit) = keys_fit(view, most, low, high) else {
        return Err(Fault::BadPage(n));
    };
    let level = view.level();
    if level == Level::Leaf && n != table.root() && view.count() == 0 {
        return Err(Fault::BadPage(n));
    }
    if !fit {
        return Err(Fault::BadOrder(n));
    }
    Ok(level)
}
