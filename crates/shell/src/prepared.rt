//! Queries whose names are resolved, and what is run for them.
ghost use Rattle.std.specs.Prelude.{◌≡◌, [], All, IfErr, IfOk, MatchResult, OnOk, Some, map, option_map, string_bytes};
ghost use Rattle.values.specs.Datum.{text};
ghost use Rattle.values.specs.Fault.{Counts};
ghost use Rattle.values.specs.Sink.{Writes};
ghost use Rattle.pager.specs.Calls.{ReadsPages};
ghost use Rattle.btree.specs.image.Pages.{WhereSteady};
ghost use Rattle.explain.specs.Text.{row_text};
ghost use Rattle.resolver_bodies.specs.NamedView.{named_data, query_data};
ghost use Rattle.operators_scan.specs.scan.Coming.{Asks};
ghost use Rattle.operators_scan.specs.Coming.{IsRooted, IsStoredSource};
ghost use Rattle.logical_plan.specs.answers.Sources.{sources_of};
ghost use Rattle.operators_runs.specs.inner_rows.Over.{AreSaid};
ghost use Rattle.operators_runs.specs.inner_rows.Runnable.{IsRunnableBody};
ghost use Rattle.operators_runs.specs.inner_rows.Work.{body_work};
ghost use Rattle.operators_runs.specs.nested_runs.Writes.{HasPlanOver, WritesBeginning, WritesPermitted};
ghost use Rattle.semantics.specs.Typed.{IsTyped};
ghost use Rattle.operators_loops.specs.Basis.{AreStored, Basis};
ghost use Rattle.logical_plan_queries.specs.Answers.{PlannedData, planned_data, work_of};
ghost use Rattle.operators_runs.specs.Faults.{IsRunFault};
ghost use Rattle.semantics_rewrites.specs.schema_sources.Settled.{settled};
ghost use Rattle.schema_tables.specs.ColumnTypes.{column_types};
ghost use Rattle.shell.specs.Prepared.{IsPlannedAs};
ghost use Rattle.shell.specs.PreparedView.{prepared_data};
ghost use Rattle.shell.specs.Stepped.{IsRunOf, IsStartedFor};

use crate::{Started, Statement};
use explain::rows_text;
use logical_plan_queries::{Planned, plan};
use operators_runs::{Execution, QueryRun, write_query};
use pager::{Pager, Source};
use resolver_bodies::{NamedStatement, Query};
use resolver_copies::with_schema_query;
use schema_tables::Table;
use std::alloc::{AllocError, Global};
use std::marker::Model;
use std::slice;
use values::{Fault, Row, Sink, Value};

/// The names of result columns, with the row that they are written as.
#[derive(Debug, Drop)]
struct Header {
    names: Vec<String>,
    row: Row,
}

impl Model for Header {
    ghost use Rattle.std.specs.Prelude.{◌≡◌, List, map, string_bytes};
    ghost use Rattle.sql_reader_syntax.specs.Tree.{Name};
    ghost use Rattle.values.specs.Datum.{text};

    ghost Value = { List Name };

    ghost view = { λ h. map (λ name. string_bytes name) h.names.items };

    ghost invariant = { λ h. h.row ≡ map text (map (λ name. string_bytes name) h.names.items) };
}

/// The names of columns as a row of texts.
fn header_row(alloc: Global, names: &[String]) -> Result<Row, Fault>
    ensures row { IfOk result (λ row. row ≡ map text (map (λ name. string_bytes name) names.now)) }
    ensures only { IfErr result (λ e. e ≡ Fault.NoMemory) }
{
    let mut row = Row::with_capacity(alloc, names.len())?;
    for name in names {
        let value = Value::Text(String::from_str(alloc, name.as_str())?);
        row.push(value)?;
    }
    Ok(row)
}

impl Header {
    /// These names, with their row.
    fn new(alloc: Global, names: Vec<String>) -> Result<Header, Fault>
        ensures names { IfOk result (λ header. header ≡ map (λ name. string_bytes name) names.items) }
        ensures only { IfErr result (λ e. e ≡ Fault.NoMemory) }
    {
        let row = header_row(alloc, names.as_slice())?;
        Ok(Header { names, row })
    }

    /// Writes the names as a line of texts.
    fn write<W: Sink>(&self, out: &mut W) -> Result<(), Fault>
        ensures only { IfErr result (λ e. e ≡ Fault.WriteFailed) }
        ensures writes { Writes (row_text (map text self.now)) result (W.facts out.old) (W.facts out.new) }
    {
        rows_text(slice::from_ref(&self.row), out)
    }
}

/// What is run for a query that is stepped, before its first row.
fn run_of(alloc: Global, settled: Query, planned: Option<Planned>) -> Result<QueryRun, AllocError>
    ensures { IfOk result (IsRunOf (query_data settled) (option_map planned_data planned)) }
{
    match planned {
        Some(planned) => {
            let running = Execution::open(alloc, planned)?;
            Ok(QueryRun::Planned(running))
        }
        None => Ok(QueryRun::Nested(settled)),
    }
}

/// A query over an engine's tables, whose names are resolved, and what is run for it.
pub struct Prepared {
    query: Query,
    /// The query as it is run, over the schema's table as one table more.
    settled: Query,
    /// Its plan, which a query with queries in it has once these are computed.
    planned: Option<Planned>,
    header: Header,
}

// Written, as that of an engine.
impl Drop for Prepared {
    fn drop(self) {
        let Prepared {
            query,
            settled,
            planned,
            header,
        } = self;
        drop(query);
        drop(settled);
        drop(planned);
        drop(header);
    }
}

impl Prepared {
    /// A statement whose names are resolved, with what is run for it over tables of which the one at this place is that of the
    /// schema's rows. Its one fault is `NoMemory`.
    pub(crate) fn new(
        alloc: Global,
        statement: NamedStatement,
        place: usize,
    ) -> Result<Prepared, Fault>
        ensures query { IfOk result (λ p. (prepared_data p).query ≡ query_data statement.query) }
        ensures names { IfOk result (λ p. (prepared_data p).names ≡ (named_data statement).names) }
        ensures settled { IfOk result (λ p. (prepared_data p).settled ≡ settled place (query_data statement.query)) }
        ensures plan { IfOk result (λ p. IsPlannedAs (settled place (query_data statement.query)) (prepared_data p).planned) }
        ensures only { IfErr result (λ e. e ≡ Fault.NoMemory) }
    {
        let NamedStatement { query, names, .. } = statement;
        let settled = with_schema_query(alloc, place, &query)?;
        let planned = plan(alloc, &settled)?;
        let header = Header::new(alloc, names)?;
        Ok(Prepared {
            query,
            settled,
            planned,
            header,
        })
    }

    /// What is run for the query, before its first row, with the names of the result columns. It reads no page.
    pub(crate) fn start(self, alloc: Global) -> Result<Started, AllocError>
        ensures { IfOk result (IsStartedFor (prepared_data self)) }
    {
        let Prepared {
            query: _query,
            settled,
            planned,
            header,
        } = self;
        let Header { names, .. } = header;
        let run = run_of(alloc, settled, planned)?;
        Ok(Started {
            names,
            statement: Statement { run },
        })
    }

    /// Writes the answer of the query over these tables, the schema's own behind the others, a line for each row, and counts the rows.
    /// At a fault what was written is a beginning of such an answer. Its faults are those of a run.
    pub(crate) fn write_rows<S: Source, W: Sink>(
        &self,
        alloc: Global,
        pager: &mut Pager<S>,
        tables: &[Table],
        out: &mut W,
    ) -> Result<u64, Fault>
        requires roots { All (IsRooted pager.old.state.header) (sources_of tables.now []) }
        requires planned { HasPlanOver tables.now (prepared_data self.now).settled (prepared_data self.now).planned }
        ensures rows { WhereSteady pager.old.state (λ pages. IsTyped (column_types tables.now) (prepared_data self.now).settled
            → IsRunnableBody (prepared_data self.now).settled.body → All (IsStoredSource pages) (sources_of tables.now []) → MatchResult result
            (WritesPermitted pages tables.now (prepared_data self.now).settled (W.facts out.old) (W.facts out.new))
            (WritesBeginning pages tables.now (prepared_data self.now).settled (W.facts out.old) (W.facts out.new))) }
        ensures pages { (planned : PlannedData) → (prepared_data self.now).planned ≡ Some planned → WhereSteady pager.old.state (λ pages.
            (on : Basis) → AreStored pages (sources_of tables.now []) on
            → OnOk result (Asks on.local pager.old.state (work_of on.w on.db on.sizes planned) pager.new.state 0)) }
        ensures each_once { WhereSteady pager.old.state (λ pages. (on : Basis) → AreSaid pages tables.now on
            → IsTyped (column_types tables.now) (prepared_data self.now).settled → IsRunnableBody (prepared_data self.now).settled.body
            → OnOk result (Asks on.local pager.old.state (body_work on.w on.db on.sizes (prepared_data self.now).settled.body) pager.new.state 0)) }
        ensures only { IfErr result IsRunFault }
        ensures reads { ReadsPages result pager.old.state pager.new.state }
        ensures writes { Counts Fault.WriteFailed result (W.facts out.old).failures (W.facts out.new).failures }
    {
        write_query(alloc, pager, tables, &self.settled, &self.planned, out)
    }

    /// Writes the names of the result columns, as they were declared, as a line of texts. Its one fault is `WriteFailed`,
    /// after a beginning of the line.
    pub fn header<W: Sink>(&self, out: &mut W) -> Result<(), Fault>
        ensures only { IfErr result (λ e. e ≡ Fault.WriteFailed) }
        ensures writes { Writes (row_text (map text (prepared_data self.now).names)) result (W.facts out.old) (W.facts out.new) }
    {
        self.header.write(out)
    }
}
