//! What a statement may mention: the tables of a catalog, and the schema table.
ghost use Rattle.std.specs.Prelude.{◌≡◌, ◌∷◌, [], IfOk, map, string_bytes};
ghost use Rattle.resolver_bodies.specs.BodyView.{source_of};
ghost use Rattle.semantics.specs.Query as q;
ghost use Rattle.semantics_names.specs.Typed as naming;
ghost use Rattle.resolver.specs.Resolved.{table_of, tables_of};
ghost use Rattle.schema_tables.specs.ColumnTypes as schema;
ghost use Rattle.resolver_sources.specs.source_names.GivenView.{known_of};

use resolver_bodies::Source;
use resolver_sources::Known;
use schema_tables::{Column, Table};
use std::alloc::{AllocError, Global};
use values::Ty;

// The names of columns, as they were declared.
fn names(alloc: Global, columns: &[Column]) -> Result<Vec<String>, AllocError>
    ensures { IfOk result (λ names. map (λ n. string_bytes n) names.items ≡ map (λ c. c.name) columns.now) }
{
    let mut names = Vec::with_capacity(alloc, columns.len())?;
    for column in columns {
        let name = String::from_str(alloc, column.name())?;
        names.push(name)?;
    }
    Ok(names)
}

fn table_at(place: usize, width: usize) -> Source
    ensures { source_of result ≡ q.Source.table place width }
{
    Source::Table(place, width)
}

// The table at this place of the catalog.
fn known_table(alloc: Global, at: usize, table: &Table) -> Result<Known, AllocError>
    ensures { IfOk result (λ known. known_of known ∷ [] ≡ naming.known_from at (table_of table.now ∷ [])) }
{
    let columns = table.columns();
    let source = table_at(at, columns.len());
    Ok(Known {
        name: String::from_str(alloc, table.name())?,
        source: Some(source),
        columns: names(alloc, columns)?,
    })
}

// The table of the schema's rows, by this name.
fn known_schema(alloc: Global, name: &str) -> Result<Known, AllocError>
    ensures { IfOk result (λ known. known_of known ≡ naming.known_schema name.now) }
{
    let kind = String::from_str(alloc, "type")?;
    let object = String::from_str(alloc, "name")?;
    let owner = String::from_str(alloc, "tbl_name")?;
    let root = String::from_str(alloc, "rootpage")?;
    let sql = String::from_str(alloc, "sql")?;
    let columns = Vec::from_array(alloc, [kind, object, owner, root, sql])?;
    Ok(Known {
        name: String::from_str(alloc, name)?,
        source: Some(Source::Schema),
        columns,
    })
}

// The tables of the catalog.
fn catalog_tables(alloc: Global, tables: &[Table]) -> Result<Vec<Known>, AllocError>
    ensures { IfOk result (λ known. map known_of known.items ≡ naming.known_from 0 (tables_of tables.now)) }
{
    let mut known = Vec::with_capacity(alloc, tables.len())?;
    for (at, table) in tables.iter().enumerate() {
        let table = known_table(alloc, at, table)?;
        known.push(table)?;
    }
    Ok(known)
}

/// What FROM may mention: the tables of the catalog, and the two names of the table of the schema's rows. (SELECT, "Determination of
/// input data"; The Schema Table)
pub(crate) fn known_tables(alloc: Global, tables: &[Table]) -> Result<Vec<Known>, AllocError>
    ensures { IfOk result (λ known. map known_of known.items ≡ naming.known_tables (tables_of tables.now)) }
{
    let mut known = catalog_tables(alloc, tables)?;
    let schema = known_schema(alloc, "sqlite_schema")?;
    known.push(schema)?;
    let master = known_schema(alloc, "sqlite_master")?;
    known.push(master)?;
    Ok(known)
}

// The types of the columns of a table.
fn types(alloc: Global, table: &Table) -> Result<Vec<Ty>, AllocError>
    ensures { IfOk result (λ types. types.items ≡ schema.types_of table.now) }
{
    let columns = table.columns();
    let mut types = Vec::with_capacity(alloc, columns.len())?;
    for column in columns {
        types.push(column.ty())?;
    }
    Ok(types)
}

/// The types of the columns of each table.
pub(crate) fn column_types(alloc: Global, tables: &[Table]) -> Result<Vec<Vec<Ty>>, AllocError>
    ensures { IfOk result (λ all. map (λ types. types.items) all.items ≡ schema.column_types tables.now) }
{
    let mut all = Vec::with_capacity(alloc, tables.len())?;
    for table in tables {
        let types = types(alloc, table)?;
        all.push(types)?;
    }
    Ok(all)
}
