//! Writes what SQL texts say, so that worked texts can be compared with their tokens, trees and catalogs. A
//! line of standard input is a word and a text. `tokens` and `create-tokens` list the tokens by the reserved
//! words of either grammar, `select`, `create` and `create-index` write the tree, and `names` the names of the
//! result columns of a statement's first SELECT; the line itself is written before the answer. `row` and a row
//! of a schema add the row to those before it, and `catalog` writes the catalog that they describe. A fault is
//! answered by its line.
//!
//! The modules, in the order in which data passes them: `lines` (the texts), `token_lists`, `pieces` (what is
//! still to be written of a tree), `expressions`, `queries` and `statements` (trees of statements), `created`
//! (trees of CREATE texts), `schemas` (rows of schemas) and `catalogs`.
#![tactic(auto)]

mod catalogs;
mod created;
mod expressions;
mod lines;
mod pieces;
mod queries;
mod schemas;
mod statements;
mod token_lists;

use anyhow::Result;
use catalogs::written_catalog;
use created::{write_create, write_index};
use lines::text_of;
use schema::Catalog;
use schemas::row_of;
use sql_reader::read_select;
use sql_reader_creates::{read_create, read_create_index};
use sql_reader_tokens::{Grammar, read_tokens};
use statements::{write_headings, write_statement};
use std::alloc::Global;
use token_lists::write_tokens;
use values::{Fault, Row};

/// How many pages the images of the schemas have.
const PAGES: u32 = 1000;

/// Writes the answer for a text.
fn write_answer(alloc: Global, word: &str, text: &str, out: &mut String) -> Result<(), Fault> {
    match word {
        "tokens" => write_tokens(read_tokens(alloc, Grammar::Select, text)?.as_slice(), out)?,
        "create-tokens" => write_tokens(
            read_tokens(alloc, Grammar::Create, text)?.as_slice(),
            out,
        )?,
        "names" => write_headings(&read_select(alloc, text)?, out)?,
        "create" => write_create(&read_create(alloc, text)?, out)?,
        "create-index" => write_index(alloc, &read_create_index(alloc, text)?, out)?,
        _ => write_statement(alloc, &read_select(alloc, text)?, out)?,
    }
    Ok(())
}

/// The answer for a text.
fn answer(alloc: Global, word: &str, text: &str) -> Result<String> {
    let text = text_of(alloc, text)?;
    let mut out = String::new(alloc);
    match write_answer(alloc, word, text.as_str(), &mut out) {
        Ok(()) => Ok(out),
        Err(fault) => Ok(fault.to_string(alloc)?),
    }
}

/// The answer for a schema of these rows.
fn catalog_of(alloc: Global, rows: &[Row]) -> Result<String> {
    match Catalog::read(alloc, rows, PAGES) {
        Ok(catalog) => Ok(written_catalog(alloc, &catalog)?),
        Err(fault) => Ok(format!(in alloc; "{fault}\n")?),
    }
}

/// Answers a line; `rows` are those of the schema that is being described.
fn answer_line(rt: &HostRuntime, line: &str, rows: &mut Vec<Row>) -> Result<()> {
    let alloc = rt.alloc();
    let (word, text) = line.split_once(' ').unwrap_or((line, ""));
    match word {
        "row" => rows.push(row_of(alloc, text)?)?,
        "catalog" => {
            let catalog = catalog_of(alloc, rows.as_slice())?;
            rows.clear();
            println!(rt; "{catalog}")?;
        }
        _ => {
            let answer = answer(alloc, word, text)?;
            println!(rt; "{line}\n    {answer}")?;
        }
    }
    Ok(())
}

fn main(rt: HostRuntime) -> Result<()> {
    let alloc = rt.alloc();
    let mut rows = Vec::new(alloc);
    for line in rt.lines(alloc) {
        let line = line?;
        answer_line(&rt, line.as_str(), &mut rows)?;
    }
    Ok(())
}
