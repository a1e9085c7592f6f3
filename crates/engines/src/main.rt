//! Steps statements of sessions, and runs statements by engines that fail now and then. A line of standard
//! input is one of these, its words with tabs between them:
//!
//! - `session IMAGE [READ]`: the steps that follow are made on a session over this image. The read with the
//!   number READ fails, those of opening counted from 1; none does where READ is 0 or left out.
//! - `replay IMAGE [READ]`: the steps that follow, up to the next such line or the end, are made by one call.
//! - `open SLOT TEXT` opens this text in a slot, `next SLOT` asks for a row, `close SLOT` closes, and
//!   `complete SLOT`, which is no step, gives all rows that are left. Each is answered by what it replies.
//! - `run IMAGE KEPT MOST TEXT`: what a run of this text writes by an engine that keeps KEPT pages, and whether
//!   it asked for at most MOST.
//! - `reads IMAGE TEXT`, `writes IMAGE TEXT`: each read of a run of this text fails in turn, or each byte of
//!   its output is the last that is taken. After each such run the same engine runs the text once more. A line
//!   says of each the fault, whether what was written is a beginning of the answer, and what the further run
//!   wrote.
//!
//! Each other engine keeps one page. compare/worked.py and compare/kept.py write the images.
//!
//! The modules: `lines` (steps and replies as lines), `stage` (what steps are made on), `counted` (runs whose
//! pages are counted), `trial` (a statement and its answer) and `failing` (runs that fail).
#![tactic(auto)]

mod counted;
mod failing;
mod lines;
mod stage;
mod trial;

use anyhow::{Context, Result};
use counted::run_counted;
use failing::{fail_reads, fail_writes};
use stage::{Stage, open};
use values::{Gathered, Sink, WriteSink};

/// Answers a line.
fn answer<O: Sink>(rt: &HostRuntime, line: &str, stage: &mut Stage, out: &mut O) -> Result<()> {
    let alloc = rt.alloc();
    let (word, rest) = line.split_once('\t').context("one word alone")?;
    match word {
        "session" => {
            stage.finish(alloc, out)?;
            *stage = Stage::session_over(alloc, open(rt, rest)?)?;
        }
        "replay" => {
            stage.finish(alloc, out)?;
            *stage = Stage::replay_over(alloc, open(rt, rest)?);
        }
        "run" => run_counted(rt, rest, out)?,
        "reads" => fail_reads(rt, rest, out)?,
        "writes" => fail_writes(rt, rest, out)?,
        _ => stage.take(alloc, line, out)?,
    }
    Ok(())
}

/// Answers each line of standard input.
fn answer_all<O: Sink>(rt: &HostRuntime, out: &mut O) -> Result<()> {
    let alloc = rt.alloc();
    let mut stage = Stage::Empty;
    for line in rt.lines(alloc) {
        let line = line?;
        answer(rt, line.as_str(), &mut stage, out)?;
    }
    stage.finish(alloc, out)
}

fn run<O: Sink>(rt: &HostRuntime, out: &mut O) -> Result<()> {
    let mut gathered = Gathered::new(rt.alloc(), out)?;
    let answered = answer_all(rt, &mut gathered);
    let (_, handed_on) = gathered.finish();
    answered?;
    handed_on?;
    Ok(())
}

fn main(rt: HostRuntime) -> Result<()> {
    let mut out = WriteSink::new(rt.stdout());
    run(&rt, &mut out)
}
