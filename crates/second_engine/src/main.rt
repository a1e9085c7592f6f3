//! Prints what a second engine answers, which was written apart from ours: the kit's `sqlite`, over tables in
//! memory. `second_engine TABLES`: the file TABLES makes the tables. A line of standard input is a statement
//! after `list`, where its ORDER BY leaves no choice, or else `bag`, and a tab; after a further tab comes the
//! same for this engine where it lacks a form, as windows. Each is answered by a line with the number of its
//! rows, and by the rows, those of a bag sorted. compare/agreement.py compares them with ours.
#![tactic(auto)]

mod second;

use anyhow::{Context, Result, bail};
use second::Second;
use std::alloc::Global;
use std::{env, fs};
use values::{Gathered, Sink, WriteSink, write_all};

/// What a line asks of the second engine: whether its answer is a list, and the statement, in the form that this engine has.
fn asked_of(line: &str) -> Result<(bool, &str)> {
    let (order, text) = line.split_once('\t').context("no tab")?;
    let is_list = match order {
        "list" => true,
        "bag" => false,
        _ => bail!("neither a list nor a bag"),
    };
    match text.split_once('\t') {
        Some((_, other)) => Ok((is_list, other)),
        None => Ok((is_list, text)),
    }
}

/// Writes how many rows an answer has, and these.
fn write_answer<O: Sink>(alloc: Global, rows: &[String], out: &mut O) -> Result<()> {
    let count = format!(in alloc; "{}\n", rows.len())?;
    write_all(out, count.as_str().as_bytes())?;
    for row in rows {
        write_all(out, row.as_str().as_bytes())?;
    }
    Ok(())
}

/// Answers each line of standard input over the tables that a file makes.
fn answer_all<O: Sink>(rt: &HostRuntime, out: &mut O) -> Result<()> {
    let alloc = rt.alloc();
    let path = env::args(rt)?.nth(1).context("no tables")?;
    let tables = fs::read_to_string(rt, path.as_str()).context("the tables can't be read")?;
    let mut second = Second::open(alloc, tables.as_str())?;
    for line in rt.lines(alloc) {
        let line = line?;
        let (is_list, statement) = asked_of(line.as_str())?;
        let mut rows = second
            .answer(statement)
            .context("the second engine has no answer")?;
        if !is_list {
            rows.sort()?;
        }
        write_answer(alloc, rows.as_slice(), out)?;
    }
    Ok(())
}

fn run<O: Sink>(rt: &HostRuntime, out: &mut O) -> Result<()> {
    let mut gathered = Gathered::new(rt.alloc(), out)?;
    let answered = answer_all(rt, &mut gathered);
    let (_, handed_on) = gathered.finish();
    answered?;
    handed_on?;
    Ok(())
}

fn main(rt: HostRuntime) -> Result<()> {
    let mut out = WriteSink::new(rt.stdout());
    run(&rt, &mut out)
}
