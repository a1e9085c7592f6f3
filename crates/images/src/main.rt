//! Writes what the trees of images hold, so that it can be compared with what another program that reads
//! SQLite's format makes of the same files. A line of standard input is one of these, its words with tabs
//! between them:
//!
//! - `counts IMAGE`: what the check finds, a line `name rows pages levels` for each table, in the order of the
//!   schema, and then one for each index, with its entries and, after its levels, how many different values its
//!   first columns have, for each number of columns. The levels are those below the root.
//! - `changed IMAGE`, and then for each piece its place, a blank and its bytes as hex digits: the line of the
//!   fault that the check finds in the image with these bytes, or `sound`.
//! - `rows IMAGE ROOT`: the rows of a table, each as its number and the values of its record.
//! - `table IMAGE ROOT [PAGES]`: nothing; the searches that follow are of this table, for rows by their numbers.
//! - `index IMAGE ROOT SIGNS [PAGES]`: the entries of an index, of which a sign for each column, `+` or `-`,
//!   says whether it descends; the searches that follow are of this index.
//! - `at`, `after` or `find`, and values: the row or the entry at which a search for these ends, or that is
//!   found, and how many pages it asked for.
//! - `image IMAGE [PAGES]`: nothing; the ranges that follow are of this image.
//! - `range NAME`, and the bounds of a range: the rows of a table, by its rowids or its PRIMARY KEY, or of an
//!   index, in the order of the tree, and then a line with how many pages the opening of the search asked for,
//!   and how many the rows did, both without the pages of overflow chains. A bound is a sign `=`, `>`, `>=`, `<`
//!   or `<=`, a tab and a value: `n` for NULL, `i` and a number, `t` and a text, `b` and the bytes of a blob.
//!
//! The cache keeps PAGES pages, one if the word is left out.
//!
//! The modules: `counts` (what the check finds), `changed` (the same of images with other bytes), `rows` (of a
//! table), `keys` (values, and what is sought), `searches` (where a search ends), `bounds` (those of a range),
//! `named` (the tables and indexes of an image) and `ranges` (the rows of a range).
#![tactic(auto)]

mod bounds;
mod changed;
mod counts;
mod keys;
mod named;
mod ranges;
mod rows;
mod searches;

use anyhow::{Context, Result, bail};
use changed::write_fault;
use counts::write_counts;
use keys::{directions, sought};
use pager::{FileSource, Pager};
use ranges::{Image, write_range};
use rows::write_rows;
use searches::{Tree, write_entries, write_tree_search};
use std::num::NonZeroUsize;
use values::{Gathered, Sink, WriteSink};

/// A pager over an image.
fn open(rt: &HostRuntime, image: &str, pages: NonZeroUsize) -> Result<Pager<FileSource>> {
    let source = FileSource::open(rt, image)?;
    match Pager::open(rt.alloc(), source, pages) {
        Ok(pager) => Ok(pager),
        Err((fault, _)) => Err(fault.into()),
    }
}

/// What lines before a search have named: the tree that is searched, and the image whose trees are searched for ranges.
#[derive(Drop)]
struct Held {
    tree: Option<Tree<FileSource>>,
    image: Option<Image<FileSource>>,
}

/// How many pages are kept, as a word says.
fn pages_kept(word: Option<&str>) -> Result<NonZeroUsize> {
    match word {
        Some(pages) => Ok(pages.parse().context("no number of pages")?),
        None => Ok(NonZeroUsize::MIN),
    }
}

/// The image that words name, and how many of its pages are kept.
fn image_of(rt: &HostRuntime, words: &str) -> Result<Image<FileSource>> {
    let mut words = words.split('\t');
    let image = words.next().context("no image")?;
    let pages = pages_kept(words.next())?;
    Ok(Image::open(rt.alloc(), open(rt, image, pages)?)?)
}

/// The tree that words name: an image, a root, of an index its signs, and how many pages are kept.
fn tree_of(rt: &HostRuntime, words: &str, is_index: bool) -> Result<Tree<FileSource>> {
    let mut words = words.split('\t');
    let image = words.next().context("no image")?;
    let root: u32 = words
        .next()
        .context("no root")?
        .parse()
        .context("no number")?;
    let signs = if is_index {
        words.next().context("no signs")?
    } else {
        ""
    };
    let pages = pages_kept(words.next())?;
    Ok(Tree {
        pager: open(rt, image, pages)?,
        root,
        is_index,
        descends: directions(rt.alloc(), signs)?,
    })
}

/// Answers a line.
fn answer<O: Sink>(rt: &HostRuntime, line: &str, held: &mut Held, out: &mut O) -> Result<()> {
    let alloc = rt.alloc();
    let (word, rest) = line.split_once('\t').unwrap_or((line, ""));
    match word {
        "counts" => {
            let mut pager = open(rt, rest, NonZeroUsize::MIN)?;
            write_counts(alloc, &mut pager, out)?;
        }
        "changed" => write_fault(rt, rest, out)?,
        "rows" => {
            let mut table = tree_of(rt, rest, false)?;
            write_rows(alloc, &mut table.pager, table.root, out)?;
        }
        "table" => held.tree = Some(tree_of(rt, rest, false)?),
        "index" => {
            let mut index = tree_of(rt, rest, true)?;
            write_entries(alloc, &mut index.pager, index.root, out)?;
            held.tree = Some(index);
        }
        "image" => held.image = Some(image_of(rt, rest)?),
        "range" => {
            let Some(image) = &mut held.image else {
                bail!("no image")
            };
            write_range(alloc, image, rest, out)?;
        }
        _ => {
            let Some(tree) = &mut held.tree else {
                bail!("no tree")
            };
            write_tree_search(alloc, tree, &sought(alloc, line)?, out)?;
        }
    }
    Ok(())
}

/// Answers each line of standard input.
fn answer_all<O: Sink>(rt: &HostRuntime, out: &mut O) -> Result<()> {
    let mut held = Held {
        tree: None,
        image: None,
    };
    for line in rt.lines(rt.alloc()) {
        let line = line?;
        answer(rt, line.as_str(), &mut held, out)?;
    }
    Ok(())
}

fn run<O: Sink>(rt: &HostRuntime, out: &mut O) -> Result<()> {
    let mut gathered = Gathered::new(rt.alloc(), out)?;
    let answered = answer_all(rt, &mut gathered);
    let (_, handed_on) = gathered.finish();
    answered?;
    handed_on?;
    Ok(())
}

fn main(rt: HostRuntime) -> Result<()> {
    let mut out = WriteSink::new(rt.stdout());
    run(&rt, &mut out)
}
