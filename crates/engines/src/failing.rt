//! Runs that fail, each with a further run by the same engine.

use crate::stage::engine_of;
use crate::trial::Trial;
use anyhow::Result;
use pager::{MemSource, Source};
use scripted::{ReadScript, ScriptSink, ScriptSource};
use shell::Engine;
use shell_sessions::{Session, Step};
use std::alloc::Global;
use std::rt::Files;
use values::{Fault, MemSink, Sink, write_all};

/// The engine that a session gives back after one row of a statement.
fn after_session<S: Source + Drop>(
    alloc: Global,
    engine: Engine<S>,
    sql: &str,
) -> Result<Engine<S>> {
    let mut session = Session::open(alloc, engine).map_err(|(fault, _)| fault)?;
    session.step(&Step::Open(0, String::from_str(alloc, sql)?));
    session.step(&Step::Next(0));
    Ok(session.into_engine())
}

/// Writes the line of a run that ended with this fault, or with none, and of the one after it.
fn write_line<O: Sink>(
    alloc: Global,
    trial: &Trial,
    what: &str,
    fault: Option<Fault>,
    written: &[u8],
    again: &MemSink,
    out: &mut O,
) -> Result<()> {
    let answer = trial.answer.as_slice();
    let is_beginning = answer.starts_with(written) && written != answer;
    let is_whole = again.as_slice() == answer;
    let line = match fault {
        Some(fault) => format!(in alloc;
            "{what}: {fault}, beginning: {is_beginning}, then whole: {is_whole}\n"
        )?,
        None => format!(in alloc; "{what}: no fault\n")?,
    };
    write_all(out, line.as_str().as_bytes())?;
    Ok(())
}

/// Each read of a run fails in turn.
pub(crate) fn fail_reads<R, O>(rt: &R, words: &str, out: &mut O) -> Result<()>
where
    R: AllocGlobal + Files,
    O: Sink,
{
    let alloc = rt.alloc();
    let trial = Trial::of(rt, words)?;
    trial.write_head(alloc, out)?;
    let reads = trial.report.asked.saturating_add(trial.report.chained);
    for read in 1..reads.saturating_add(1) {
        let script = ReadScript::At(trial.opening.saturating_add(read));
        let mut engine = engine_of(alloc, ScriptSource::new(trial.image.clone()?, script))?;
        let mut written = MemSink::new(alloc);
        let (fault, again) = trial.run_twice(alloc, &mut engine, &mut written)?;
        let what = format!(in alloc; "read {read}")?;
        write_line(
            alloc,
            &trial,
            what.as_str(),
            fault,
            written.as_slice(),
            &again,
            out,
        )?;
    }
    Ok(())
}

/// Each byte of the answer is the last that is taken, three at a time, by an engine that a session gave back.
pub(crate) fn fail_writes<R, O>(rt: &R, words: &str, out: &mut O) -> Result<()>
where
    R: AllocGlobal + Files,
    O: Sink,
{
    let alloc = rt.alloc();
    let trial = Trial::of(rt, words)?;
    let engine = engine_of(alloc, MemSource::new(trial.image.clone()?))?;
    let mut engine = after_session(alloc, engine, trial.sql.as_str())?;
    for room in 0..trial.answer.as_slice().len() {
        let mut written = ScriptSink::in_steps(alloc, 3, room);
        let (fault, again) = trial.run_twice(alloc, &mut engine, &mut written)?;
        let what = format!(in alloc; "room {room}, {} taken", written.as_slice().len())?;
        write_line(
            alloc,
            &trial,
            what.as_str(),
            fault,
            written.as_slice(),
            &again,
            out,
        )?;
    }
    Ok(())
}
