//! Texts as lines write them: `\n`, `\r`, `\t` and `\f` mean what doesn't fit a line, `{#65}` the character
//! of that number, and `{3*ab}` is `ababab`.
use anyhow::{Context, Result};
use std::alloc::{AllocError, Global};

/// What a backslash and a letter mean.
const fn escaped(letter: char) -> char {
    match letter {
        'n' => '\n',
        'r' => '\r',
        't' => '\t',
        'f' => '\u{c}',
        other => other,
    }
}

/// Puts a piece of a line at the end of a text.
fn push_piece(text: &mut String, piece: &str) -> Result<(), AllocError> {
    let mut is_escape = false;
    for character in piece.chars() {
        if is_escape {
            text.push(escaped(character))?;
        } else if character != '\\' {
            text.push(character)?;
        }
        is_escape = character == '\\' && !is_escape;
    }
    Ok(())
}

/// The character of a number.
fn numbered(number: &str) -> Result<char> {
    let number: u32 = number.parse().context("no number")?;
    char::from_u32(number).context("no character")
}

/// Puts what is written in braces at the end of a text.
fn push_braced(text: &mut String, inside: &str) -> Result<()> {
    if let Some(number) = inside.strip_prefix("#") {
        return Ok(text.push(numbered(number)?)?);
    }
    let (count, piece) = inside.split_once('*').context("no star")?;
    let count: usize = count.parse().context("no number")?;
    for _ in 0..count {
        push_piece(text, piece)?;
    }
    Ok(())
}

/// The text that a line writes.
pub fn text_of(alloc: Global, line: &str) -> Result<String> {
    let mut text = String::new(alloc);
    for (place, part) in line.split('{').enumerate() {
        let mut piece = part;
        if place > 0 {
            let (inside, rest) = part.split_once('}').context("no end")?;
            push_braced(&mut text, inside)?;
            piece = rest;
        }
        push_piece(&mut text, piece)?;
    }
    Ok(text)
}
