//! Steps and replies as lines.

use anyhow::{Context, Result, bail};
use explain::rows_text;
use shell_sessions::{Reply, Step};
use std::alloc::Global;
use std::slice;
use values::{Row, Sink, write_all};

/// What a line asks for.
#[derive(Drop)]
pub(crate) enum Asked {
    Step(Step),
    Complete(u8),
}

/// What a line asks for.
pub(crate) fn asked_of(alloc: Global, line: &str) -> Result<Asked> {
    let mut words = line.split('\t');
    let verb = words.next().context("an empty line")?;
    let slot: u8 = words
        .next()
        .context("no slot")?
        .parse()
        .context("no number")?;
    match verb {
        "open" => {
            let text = String::from_str(alloc, words.next().context("no text")?)?;
            Ok(Asked::Step(Step::Open(slot, text)))
        }
        "next" => Ok(Asked::Step(Step::Next(slot))),
        "close" => Ok(Asked::Step(Step::Close(slot))),
        "complete" => Ok(Asked::Complete(slot)),
        _ => bail!("no step"),
    }
}

/// Writes the names of the columns of a statement that was opened.
fn write_names<O: Sink>(names: &[String], out: &mut O) -> Result<()> {
    write_all(out, b"opened")?;
    for name in names {
        write_all(out, b" ")?;
        write_all(out, name.as_str().as_bytes())?;
    }
    write_all(out, b"\n")?;
    Ok(())
}

/// Writes rows, and that they have ended.
pub(crate) fn write_rows<O: Sink>(rows: &[Row], out: &mut O) -> Result<()> {
    rows_text(rows, out)?;
    write_all(out, b"end\n")?;
    Ok(())
}

/// Writes a reply.
pub(crate) fn write_reply<O: Sink>(reply: &Reply, out: &mut O) -> Result<()> {
    match reply {
        Reply::Opened(names) => write_names(names.as_slice(), out)?,
        Reply::Row(row) => rows_text(slice::from_ref(row), out)?,
        Reply::End => write_all(out, b"end\n")?,
        Reply::Closed => write_all(out, b"closed\n")?,
        Reply::Fault(fault) => fault.write_line(out)?,
    }
    Ok(())
}
