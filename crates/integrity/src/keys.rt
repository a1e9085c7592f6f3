//! The keys of an image's tables that are stored without rowids.
ghost use Rattle.std.specs.Prelude.{All, IfErr, MatchResult};
ghost use Rattle.std.specs.List.{AllZip};
ghost use Rattle.pager.specs.Calls.{IsReadFault, ReadsPages};
ghost use Rattle.btree.specs.image.Pages.{WhereSteady};
ghost use Rattle.integrity_indexes.specs.index_rows.Checked.{IsCheckedTable};
ghost use Rattle.integrity.specs.Checked.{IsCheckFault};
ghost use Rattle.integrity.specs.Keys.{HasKeyCounts};

use integrity_trees::read_prefixes;
use pager::{Pager, Source};
use records_tables::RecordOrder;
use schema_tables::{RowKey, Table};
use std::alloc::Global;
use values::Fault;

/// What the check counts of the key by which the rows of a table without rowids are found.
#[derive(Debug, Drop)]
pub struct KeyCounts {
    /// How many different values its first columns have, for each number of columns from one on; nothing of a table with rowids.
    pub distinct: Vec<u64>,
}

/// Counts the key of a table whose tree was checked: without rowids this is an index, whose entries begin with the key.
fn count_key<S: Source>(
    alloc: Global,
    pager: &mut Pager<S>,
    table: &Table,
) -> Result<KeyCounts, Fault>
    ensures counts { WhereSteady pager.old.state (λ pages. IsCheckedTable pages table.now
        → MatchResult result (HasKeyCounts pages table.now) IsReadFault) }
    ensures only { IfErr result IsCheckFault }
    ensures reads { ReadsPages result pager.old.state pager.new.state }
{
    match table.key() {
        RowKey::Rowid(_) => Ok(KeyCounts {
            distinct: Vec::new(alloc),
        }),
        RowKey::Primary(_) => {
            let order = RecordOrder::of(alloc, table)?;
            let prefixes = read_prefixes(alloc, pager, table.root(), order.key)?;
            Ok(KeyCounts {
                distinct: prefixes.distinct,
            })
        }
    }
}

/// Counts the key of each table, whose trees were checked.
pub(crate) fn count_keys<S: Source>(
    alloc: Global,
    pager: &mut Pager<S>,
    tables: &[Table],
) -> Result<Vec<KeyCounts>, Fault>
    ensures counts { WhereSteady pager.old.state (λ pages. All (IsCheckedTable pages) tables.now
        → MatchResult result (λ counted. AllZip (HasKeyCounts pages) tables.now counted.items) IsReadFault) }
    ensures only { IfErr result IsCheckFault }
    ensures reads { ReadsPages result pager.old.state pager.new.state }
{
    let mut counted = Vec::with_capacity(alloc, tables.len())?;
    for table in tables {
        let counts = count_key(alloc, pager, table)?;
        counted.push(counts)?;
    }
    Ok(counted)
}
