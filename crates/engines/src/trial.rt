//! A statement that is run over an image, and its answer.

use crate::stage::engine_of;
use anyhow::{Context, Result};
use pager::{MemSource, Source};
use scripted::{ReadScript, ScriptSource};
use shell::{Engine, Report};
use std::alloc::Global;
use std::fs;
use std::rt::Files;
use values::{Fault, MemSink, Sink, write_all};

/// An image, a statement over it, its answer, what a run of it reports, and how many reads opening the image takes.
#[derive(Drop)]
pub(crate) struct Trial {
    name: String,
    pub(crate) image: Vec<u8>,
    pub(crate) sql: String,
    pub(crate) answer: MemSink,
    pub(crate) report: Report,
    pub(crate) opening: u64,
}

/// How many reads opening an image takes: where all after them fail, it is still opened.
fn reads_of_opening(alloc: Global, image: &Vec<u8>) -> Result<u64> {
    for reads in 0..1000u64 {
        let script = ReadScript::From(reads.saturating_add(1));
        if engine_of(alloc, ScriptSource::new(image.clone()?, script)).is_ok() {
            return Ok(reads);
        }
    }
    Ok(1000)
}

/// Runs a statement over an image, no read of which fails.
fn run_whole(alloc: Global, image: Vec<u8>, sql: &str, answer: &mut MemSink) -> Result<Report> {
    let mut engine = engine_of(alloc, MemSource::new(image))?;
    let prepared = engine.prepare(sql)?;
    let report = engine.run(&prepared, answer)?;
    Ok(report)
}

impl Trial {
    /// What words name: an image, and a statement, which is run.
    pub(crate) fn of<R>(rt: &R, words: &str) -> Result<Trial>
    where
        R: AllocGlobal + Files,
    {
        let alloc = rt.alloc();
        let (name, sql) = words.split_once('\t').context("no statement")?;
        let image = fs::read(rt, name).context("the image can't be read")?;
        let mut answer = MemSink::new(alloc);
        let report = run_whole(alloc, image.clone()?, sql, &mut answer)?;
        let opening = reads_of_opening(alloc, &image)?;
        Ok(Trial {
            name: String::from_str(alloc, name)?,
            image,
            sql: String::from_str(alloc, sql)?,
            answer,
            report,
            opening,
        })
    }

    /// Writes how many rows a run gives, how many pages it asks for, and how many of chains.
    pub(crate) fn write_head<O: Sink>(&self, alloc: Global, out: &mut O) -> Result<()> {
        let Report {
            rows,
            asked,
            chained,
        } = self.report;
        let (name, sql, opening) = (&self.name, &self.sql, self.opening);
        let line = format!(in alloc;
            "{name}, {opening} reads of opening, {sql}: {rows} rows, {asked} pages, {chained} of chains\n"
        )?;
        write_all(out, line.as_str().as_bytes())?;
        Ok(())
    }

    /// Runs the statement, once into `out`, which may fail, and once more: the fault of the first run, and what the second wrote.
    pub(crate) fn run_twice<S: Source, W: Sink>(
        &self,
        alloc: Global,
        engine: &mut Engine<S>,
        out: &mut W,
    ) -> Result<(Option<Fault>, MemSink)> {
        let prepared = engine.prepare(self.sql.as_str())?;
        let first = engine.run(&prepared, out).err();
        let mut again = MemSink::new(alloc);
        engine.run(&prepared, &mut again)?;
        Ok((first, again))
    }
}
