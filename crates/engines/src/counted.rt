//! Runs whose pages are counted.

use anyhow::{Context, Result};
use pager::MemSource;
use shell::Engine;
use std::fs;
use std::num::NonZeroUsize;
use std::rt::Files;
use values::{Sink, write_all};

/// Writes the answer of a run, and whether it asks for no more pages than it may. The words are the image, how many pages the engine
/// keeps, how many the run may ask for, and a statement.
pub(crate) fn run_counted<R, O>(rt: &R, words: &str, out: &mut O) -> Result<()>
where
    R: AllocGlobal + Files,
    O: Sink,
{
    let alloc = rt.alloc();
    let mut words = words.split('\t');
    let name = words.next().context("no image")?;
    let kept = words.next().context("no count of kept pages")?;
    let kept: NonZeroUsize = kept.parse().context("no number")?;
    let most = words.next().context("no count of pages")?;
    let most: u64 = most.parse().context("no number")?;
    let sql = words.next().context("no statement")?;
    let image = fs::read(rt, name).context("the image can't be read")?;
    let opened = Engine::open(alloc, MemSource::new(image), kept);
    let mut engine = opened.map_err(|(fault, _)| fault)?;
    let prepared = engine.prepare(sql)?;
    let asked = engine.run(&prepared, out)?.asked;
    let line = if asked > most {
        format!(in alloc; "{asked} pages, more than {most}\n")?
    } else {
        format!(in alloc; "at most {most} pages\n")?
    };
    write_all(out, line.as_str().as_bytes())?;
    Ok(())
}
