//! Pages, as a pager keeps them and reads them.
use crate::storage_tests::headers::three_pages;
use pager::{FileSource, Pager};
use scripted::{ReadScript, ScriptSource};
use std::alloc::Global;
use std::fs;
use std::num::NonZeroUsize;
use std::test::Fail;
use values::Fault;

/// A pager of three pages, whose first bytes are `S`, 2 and 3.
fn open(alloc: Global, capacity: usize, script: ReadScript) -> Result<Pager<ScriptSource>, Fault> {
    let source = ScriptSource::new(three_pages(alloc)?, script);
    let capacity = NonZeroUsize::new(capacity).unwrap_or(NonZeroUsize::MIN);
    match Pager::open(alloc, source, capacity) {
        Ok(pager) => Ok(pager),
        Err((fault, _)) => Err(fault),
    }
}

/// A page to ask for.
#[derive(Clone, Copy)]
enum Request {
    Page(u32),
    Chain(u32),
}

/// The first byte of a page; 0 where there is none.
fn first_byte(pager: &mut Pager<ScriptSource>, request: Request) -> Result<u8, Fault> {
    let (Request::Page(number) | Request::Chain(number)) = request;
    if number == 0 || number > pager.header().pages {
        return Ok(0);
    }
    let page = match request {
        Request::Page(_) => pager.page(number)?,
        Request::Chain(_) => pager.chain_page(number)?,
    };
    Ok(page.as_slice().first().copied().unwrap_or(0))
}

/// Capacities, pages that are asked for in turn, and how many of them are read.
const KEPT: [(usize, [u8; 4], u64); 5] = [
    (2, [1, 2, 1, 2], 2),
    (1, [1, 2, 1, 1], 3),
    (2, [1, 2, 3, 1], 4),
    (3, [1, 2, 3, 1], 3),
    (2, [1, 2, 1, 3], 3),
];

/// How many reads these pages take, behind that of the header; none where a page is another.
fn count_reads(alloc: Global, capacity: usize, pages: &[u8]) -> Result<Option<u64>, Fault> {
    let mut pager = open(alloc, capacity, ReadScript::Never)?;
    for number in pages {
        let wanted = if *number == 1 { b'S' } else { *number };
        if first_byte(&mut pager, Request::Page(u32::from(*number)))? != wanted {
            return Ok(None);
        }
    }
    Ok(pager.into_source().reads().checked_sub(1))
}

#[test]
fn pages_that_are_kept(rt: HostRuntime) -> Result<(), Fail> {
    for (capacity, pages, reads) in KEPT {
        let counted = count_reads(rt.alloc(), capacity, &pages)?;
        assert_eq!(rt; counted, Some(reads), "{pages:?}");
    }
    Ok(())
}

/// Pages asked for where the third read fails, and their first bytes.
const REQUESTS: [(Request, Result<u8, Fault>); 5] = [
    (Request::Page(1), Ok(b'S')),
    (Request::Page(2), Err(Fault::ReadFailed)),
    (Request::Page(2), Ok(2)),
    (Request::Chain(3), Ok(3)),
    (Request::Page(2), Ok(2)),
];

/// The first row of `REQUESTS` that isn't so.
fn wrong_request(pager: &mut Pager<ScriptSource>) -> Option<usize> {
    for (row, (request, wanted)) in REQUESTS.iter().enumerate() {
        if first_byte(pager, *request) != *wanted {
            return Some(row);
        }
    }
    None
}

#[test]
fn a_failed_read(rt: HostRuntime) -> Result<(), Fail> {
    let mut pager = open(rt.alloc(), 1, ReadScript::At(3))?;
    assert!(rt; pager.header().pages == 3);
    let held = pager.page(1)?;
    assert_eq!(rt; wrong_request(&mut pager), None);
    // Page 1 is no longer kept, and is still held.
    assert_eq!(rt; held.as_slice().first(), Some(&b'S'));
    assert_eq!(rt; held.share()?.as_slice().len(), 512);
    assert_eq!(rt; (pager.asked(), pager.chained()), (5, 1));
    let source = pager.into_source();
    assert_eq!(rt; (source.reads(), source.failures()), (5, 1));
    // Where the header can't be read, the source is handed back.
    let source = ScriptSource::new(three_pages(rt.alloc())?, ReadScript::At(1));
    let Err((fault, source)) = Pager::open(rt.alloc(), source, NonZeroUsize::MIN) else {
        return Err("opened".into());
    };
    let counts = (source.reads(), source.failures());
    assert_eq!(rt; (fault, counts), (Fault::ReadFailed, (1, 1)));
    Ok(())
}

#[test]
fn files(rt: HostRuntime) -> Result<(), Fail> {
    fs::write(&rt, "image", three_pages(rt.alloc())?.as_slice())?;
    let Ok(source) = FileSource::open(&rt, "image") else {
        return Err("not opened".into());
    };
    let Ok(mut pager) = Pager::open(rt.alloc(), source, NonZeroUsize::MIN) else {
        return Err("refused".into());
    };
    assert!(rt; pager.header().pages == 3);
    assert_eq!(rt; pager.page(3)?.as_slice().first(), Some(&3));
    fs::create_dir(&rt, "folder")?;
    assert!(rt; FileSource::open(&rt, "folder").is_err());
    assert!(rt; FileSource::open(&rt, "absent").is_err());
    Ok(())
}
