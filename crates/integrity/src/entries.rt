//! The entries of an image's indexes, compared with the rows of its tables.
ghost use Rattle.std.specs.Prelude.{◌⊎◌, All, Contains, IfErr, OnOk, map};
ghost use Rattle.std.specs.List.{AllZip};
ghost use Rattle.pager.specs.Calls.{IsReadFault, ReadsPages};
ghost use Rattle.pager.specs.PagerState.{IsPageNumber};
ghost use Rattle.btree.specs.image.Pages.{WhereSteady};
ghost use Rattle.schema.specs.indexes.IndexData.{IndexData};
ghost use Rattle.schema.specs.indexes.IndexView.{index_data};
ghost use Rattle.schema_keys.specs.Names.{IsSameName};
ghost use Rattle.schema_tables.specs.TableData.{TableData};
ghost use Rattle.integrity_indexes.specs.index_rows.Checked.{IsCheckedTable};
ghost use Rattle.integrity.specs.Checked.{IsCheckFault};
ghost use Rattle.integrity.specs.Indexes.{AreBrokenEntries, AreItsEntries, IsCheckedIndexOf, IsCheckedIndexWith, IsCheckedWith};

use crate::index_trees::{IndexCounts, directions_of, places_of};
use integrity_indexes::{TableIndex, is_index_of};
use pager::{Pager, Source};
use schema::Index;
use schema_keys::is_same_name;
use schema_tables::Table;
use std::alloc::Global;
use values::Fault;

/// Holds the entries of an index, of which there are so many, against the rows of its table: they have to be just those that
/// the rows want which its condition keeps.
fn compare<S: Source>(
    alloc: Global,
    pager: &mut Pager<S>,
    table: &Table,
    index: &Index,
    entries: u64,
) -> Result<(), Fault>
    ensures entries { WhereSteady pager.old.state (λ pages. IsCheckedWith pages table.now (index_data index.now) entries
        → OnOk result (AreItsEntries pages table.now (index_data index.now))) }
    ensures fault { WhereSteady pager.old.state (λ pages. IsCheckedWith pages table.now (index_data index.now) entries
        → IfErr result (λ e. IsReadFault e ⊎ AreBrokenEntries pages table.now (index_data index.now) e)) }
    ensures only { IfErr result IsCheckFault }
    ensures reads { ReadsPages result pager.old.state pager.new.state }
{
    let places = places_of(alloc, index)?;
    let descends = directions_of(alloc, index)?;
    let its = TableIndex {
        root: index.root(),
        places: places.as_slice(),
        others: index.others(),
        descends: descends.as_slice(),
        condition: index.condition(),
    };
    if !is_index_of(alloc, pager, table, &its, entries)? {
        return Err(Fault::IndexDiffers(String::from_str(alloc, index.name())?));
    }
    Ok(())
}

/// Holds the entries of an index, of which there are so many, against the rows of the table that has its name.
fn compare_with_table<S: Source>(
    alloc: Global,
    pager: &mut Pager<S>,
    tables: &[Table],
    index: &Index,
    entries: u64,
) -> Result<(), Fault>
    ensures entries { WhereSteady pager.old.state (λ pages. All (IsCheckedTable pages) tables.now
        → IsCheckedIndexWith pages tables.now (index_data index.now) entries → OnOk result ((table : TableData) → Contains tables.now table
        → IsSameName (index_data index.now).table table.name → AreItsEntries pages table (index_data index.now))) }
    ensures fault { WhereSteady pager.old.state (λ pages. All (IsCheckedTable pages) tables.now
        → IsCheckedIndexWith pages tables.now (index_data index.now) entries → IfErr result (λ e. IsReadFault e ⊎ ((table : TableData)
        × Contains tables.now table × IsSameName (index_data index.now).table table.name × AreBrokenEntries pages table (index_data index.now) e))) }
    ensures only { IfErr result IsCheckFault }
    ensures reads { ReadsPages result pager.old.state pager.new.state }
{
    for table in tables {
        if is_same_name(index.table(), table.name()) {
            compare(alloc, pager, table, index, entries)?;
        }
    }
    Ok(())
}

/// Holds the entries of each index against the rows of its table. These are the counts of the indexes, which were
/// checked.
pub(crate) fn check_entries<S: Source>(
    alloc: Global,
    pager: &mut Pager<S>,
    tables: &[Table],
    indexes: &[Index],
    counted: &[IndexCounts],
) -> Result<(), Fault>
    requires { All (λ index. IsPageNumber pager.old.state index.root) (map index_data indexes.now) }
    ensures entries { WhereSteady pager.old.state (λ pages. All (IsCheckedTable pages) tables.now
        → AllZip (IsCheckedIndexOf pages tables.now) (map index_data indexes.now) counted.now → OnOk result ((table : TableData) (index : IndexData)
        → Contains tables.now table → Contains (map index_data indexes.now) index → IsSameName index.table table.name
        → AreItsEntries pages table index)) }
    ensures fault { WhereSteady pager.old.state (λ pages. All (IsCheckedTable pages) tables.now
        → AllZip (IsCheckedIndexOf pages tables.now) (map index_data indexes.now) counted.now → IfErr result (λ e. IsReadFault e
        ⊎ ((table : TableData) × (index : IndexData) × Contains tables.now table × Contains (map index_data indexes.now) index
        × IsSameName index.table table.name × AreBrokenEntries pages table index e))) }
    ensures only { IfErr result IsCheckFault }
    ensures reads { ReadsPages result pager.old.state pager.new.state }
{
    for (index, counts) in indexes.iter().zip(counted) {
        compare_with_table(alloc, pager, tables, index, counts.tree.cells)?;
    }
    Ok(())
}
