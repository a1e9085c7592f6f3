//! The command line.
ghost use Rattle.std.specs.Prelude.{◌≤◌, IfOk};
ghost use Rattle.std.specs.NonZero.{non_zero_usize_get};

use clap::{Arg, ArgAction, Command, Error, value_parser};
use std::alloc::Global;
use std::convert::AsStr;
use std::num::NonZeroUsize;

/// The most pages that a cache keeps.
pub const MAX_CACHE: usize = 100_000;

/// What a command line asks for.
#[derive(Clone, Copy, Debug)]
pub struct Args<'a> {
    /// The path of the database file.
    pub image: &'a str,
    /// The text of the SELECT.
    pub sql: &'a str,
    /// How many pages are kept.
    pub cache: NonZeroUsize,
    /// Whether the column names are written first.
    pub header: bool,
}

impl<'a> Args<'a> {
    /// Reads the words of a command line, the program's name first. An error is `clap`'s: the help, a refusal with its
    /// text, or want of memory.
    pub fn read<S: AsStr>(alloc: Global, words: &'a [S]) -> Result<Args<'a>, Error>
        ensures { IfOk result (λ args. non_zero_usize_get args.cache ≤ MAX_CACHE) }
    {
        let matches = Args::command(alloc)?.try_get_matches_from(words)?;
        Ok(Args {
            image: matches.get_str("image").unwrap_or(""),
            sql: matches.get_str("sql").unwrap_or(""),
            cache: cache_of(matches.get_one::<u32>("cache")),
            header: matches.get_flag("header"),
        })
    }

    fn command(alloc: Global) -> Result<Command<'a>, Error> {
        let cache = Arg::new(alloc, "cache")
            .long("cache")
            .value_name("N")
            .help("Pages that the cache keeps, 1 to 100000")
            .value_parser(value_parser!(u32).range(1..=100_000))
            .default_value("256");
        let header = Arg::new(alloc, "header")
            .long("header")
            .help("Writes the column names first")
            .action(ArgAction::SetTrue);
        let image = Arg::new(alloc, "image")
            .value_name("IMAGE")
            .help("The database file")
            .required(true);
        let sql = Arg::new(alloc, "sql")
            .value_name("SQL")
            .help("One SELECT statement")
            .required(true);
        let command = Command::new(alloc, "seleq")
            .bin_name("seleq")?
            .about("Answers a SELECT over an SQLite database file, read-only")
            .arg(cache)?
            .arg(header)?
            .arg(image)?
            .arg(sql)?;
        Ok(command)
    }
}

/// The capacity that was read. The parser lets no other number pass than those from 1 to `MAX_CACHE`.
fn cache_of(pages: Option<u32>) -> NonZeroUsize
    ensures { non_zero_usize_get result ≤ MAX_CACHE }
{
    match pages.and_then(|pages| NonZeroUsize::new(pages as usize)) {
        Some(pages) if pages.get() <= MAX_CACHE => pages,
        _ => NonZeroUsize::MIN,
    }
}
