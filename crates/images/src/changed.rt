//! Images with other bytes at some places.
use anyhow::{Context, Result};
use integrity::check;
use pager::{MemSource, Pager};
use std::alloc::Global;
use std::fs;
use std::num::NonZeroUsize;
use std::rt::Files;
use values::{Fault, Sink, write_all};

/// Writes bytes, which are given in hex digits, into an image, which gets longer where they go past its end.
fn put(alloc: Global, image: &mut Vec<u8>, place: usize, digits: &str) -> Result<()> {
    let piece = hex::decode(alloc, digits.as_bytes()).context("no hex digits")?;
    let end = place.checked_add(piece.len()).context("too far")?;
    if image.len() < end {
        image.resize(end, 0)?;
    }
    image.as_mut_slice()[place..end].copy_from_slice(piece.as_slice());
    Ok(())
}

/// Opens an image and checks it.
fn check_image(alloc: Global, image: Vec<u8>) -> Result<(), Fault> {
    let source = MemSource::new(image);
    let mut pager = match Pager::open(alloc, source, NonZeroUsize::MIN) {
        Ok(pager) => pager,
        Err((fault, _)) => return Err(fault),
    };
    check(alloc, &mut pager)?;
    Ok(())
}

/// Writes the fault of an image with other bytes, or that it is sound. The words are the image and, for each piece, its place and
/// its bytes with a blank between them.
pub fn write_fault<R, O>(rt: &R, words: &str, out: &mut O) -> Result<()>
where
    R: AllocGlobal + Files,
    O: Sink,
{
    let alloc = rt.alloc();
    let mut words = words.split('\t');
    let name = words.next().context("no image")?;
    let mut image = fs::read(rt, name).context("the image can't be read")?;
    for word in words {
        let (place, digits) = word.split_once(' ').context("no place")?;
        let place: usize = place.parse().context("no number")?;
        put(alloc, &mut image, place, digits)?;
    }
    match check_image(alloc, image) {
        Ok(()) => write_all(out, b"sound\n")?,
        Err(fault) => fault.write_line(out)?,
    }
    Ok(())
}
