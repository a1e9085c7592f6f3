//! The program `seleq`: prints the rows that a SELECT answers over an SQLite database file.
#![tactic(auto)]

use clap::error::ErrorKind;
use command_line::Args;
use pager::FileSource;
use shell::{fail, serve};
use std::alloc::{AllocError, Global};
use std::fs::{self, File};
use std::process::ExitCode;
use std::rt::{Env, Files};
use std::{env, io};
use values::{Fault, Sink, WriteSink};

/// The status where the command line is refused.
const REFUSED: u8 = 2;

fn main(rt: HostRuntime) -> ExitCode {
    let mut out = WriteSink::new(rt.stdout());
    let mut err = WriteSink::new(rt.stderr());
    let status = match run(&rt, &mut out, &mut err) {
        Ok(status) => status,
        Err(AllocError) => fail(&Fault::NoMemory, &mut err),
    };
    ExitCode::from(status)
}

/// Reads the command line and answers it with a status. An error is want of memory.
fn run<R, O, E>(rt: &R, out: &mut O, err: &mut E) -> Result<u8, AllocError>
where
    R: AllocGlobal + Env + Eprint + Files<File = File> + Print,
    O: Sink,
    E: Sink,
{
    let words = match env::args(rt) {
        Ok(words) => words,
        Err(error) if error.kind() == io::ErrorKind::OutOfMemory => return Err(AllocError),
        Err(_) => {
            let _ = eprintln!(rt; "error: a word of the command line is not UTF-8");
            return Ok(REFUSED);
        }
    };
    let words: Vec<String> = words.collect(rt.alloc())?;
    match Args::read(rt.alloc(), words.as_slice()) {
        Ok(args) => answer(rt, &args, out, err),
        Err(error) if error.kind() == ErrorKind::OutOfMemory => Err(AllocError),
        Err(error) if error.use_stderr() => {
            let _ = error.print(rt);
            Ok(REFUSED)
        }
        Err(help) => match help.print(rt) {
            Ok(()) => Ok(0),
            Err(_) => Ok(fail(&Fault::WriteFailed, err)),
        },
    }
}

/// Opens the image and answers the statement. An error is want of memory before the image is opened.
fn answer<R, O, E>(rt: &R, args: &Args<'_>, out: &mut O, err: &mut E) -> Result<u8, AllocError>
where
    R: AllocGlobal + Files<File = File>,
    O: Sink,
    E: Sink,
{
    if needs_recovery(rt, rt.alloc(), args.image)? {
        return Ok(fail(&Fault::NeedsRecovery, err));
    }
    match FileSource::open(rt, args.image) {
        Ok(source) => Ok(serve(rt.alloc(), args, source, out, err)),
        Err(_) => Ok(fail(&Fault::ReadFailed, err)),
    }
}

/// Whether a journal lies beside the image that isn't empty, so that its last changes may not be in it.
/// (Database File Format, section 3 "The Rollback Journal" and section 4 "The Write-Ahead Log")
fn needs_recovery<R: Files>(files: &R, alloc: Global, image: &str) -> Result<bool, AllocError> {
    for suffix in ["-journal", "-wal"] {
        let journal = format!(in alloc; "{image}{suffix}")?;
        if let Ok(metadata) = fs::metadata(files, journal.as_str()) {
            if metadata.len() > 0 {
                return Ok(true);
            }
        }
    }
    Ok(false)
}
