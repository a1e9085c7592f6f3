//! What steps are made on.

use crate::lines::{Asked, asked_of, write_reply, write_rows};
use anyhow::{Context, Result, bail};
use pager::Source;
use scripted::{ReadScript, ScriptSource};
use shell::Engine;
use shell_sessions::{Session, Step, replay};
use std::alloc::Global;
use std::fs;
use std::num::NonZeroUsize;
use std::rt::Files;
use values::{Fault, Sink};

/// What steps are made on.
#[derive(Drop)]
pub(crate) enum Stage {
    /// Nothing: no image was named.
    Empty,
    /// A session.
    Session(Session<ScriptSource>),
    /// An engine, with the steps that are to be made by one call.
    Replay(Engine<ScriptSource>, Vec<Step>),
}

/// An engine over an image, which keeps one page.
pub(crate) fn engine_of<S: Source + Drop>(alloc: Global, source: S) -> Result<Engine<S>, Fault> {
    Engine::open(alloc, source, NonZeroUsize::MIN).map_err(|(fault, _)| fault)
}

/// The engine that words name: an image, and which read fails.
pub(crate) fn open<R>(rt: &R, words: &str) -> Result<Engine<ScriptSource>>
where
    R: AllocGlobal + Files,
{
    let mut words = words.split('\t');
    let image = words.next().context("no image")?;
    let script = match words.next() {
        Some(read) => ReadScript::At(read.parse().context("no number")?),
        None => ReadScript::Never,
    };
    let image = fs::read(rt, image).context("the image can't be read")?;
    Ok(engine_of(rt.alloc(), ScriptSource::new(image, script))?)
}

/// Does on a session what a line asks for, and writes the reply.
fn answer<S: Source, O: Sink>(session: &mut Session<S>, asked: &Asked, out: &mut O) -> Result<()> {
    match asked {
        Asked::Step(step) => write_reply(&session.step(step), out),
        Asked::Complete(slot) => match session.complete(*slot) {
            Ok(rows) => write_rows(rows.as_slice(), out),
            Err(fault) => Ok(fault.write_line(out)?),
        },
    }
}

impl Stage {
    /// A session over an engine.
    pub(crate) fn session_over(
        alloc: Global,
        engine: Engine<ScriptSource>,
    ) -> Result<Stage, Fault> {
        match Session::open(alloc, engine) {
            Ok(session) => Ok(Stage::Session(session)),
            Err((fault, _)) => Err(fault),
        }
    }

    /// An engine that makes steps by one call.
    pub(crate) fn replay_over(alloc: Global, engine: Engine<ScriptSource>) -> Stage {
        Stage::Replay(engine, Vec::new(alloc))
    }

    /// Does what a line asks for, and writes the reply; a step that is to be made by one call with others is kept.
    pub(crate) fn take<O: Sink>(&mut self, alloc: Global, line: &str, out: &mut O) -> Result<()> {
        let asked = asked_of(alloc, line)?;
        match self {
            Stage::Empty => bail!("no image"),
            Stage::Session(session) => answer(session, &asked, out),
            Stage::Replay(_, steps) => match asked {
                Asked::Step(step) => Ok(steps.push(step)?),
                Asked::Complete(_) => bail!("no step"),
            },
        }
    }

    /// Makes the steps that were kept, and writes what each replies.
    pub(crate) fn finish<O: Sink>(&mut self, alloc: Global, out: &mut O) -> Result<()> {
        if let Stage::Replay(engine, steps) = self {
            let replies = replay(alloc, engine, steps.as_slice())?;
            for reply in &replies {
                write_reply(reply, out)?;
            }
        }
        *self = Stage::Empty;
        Ok(())
    }
}
