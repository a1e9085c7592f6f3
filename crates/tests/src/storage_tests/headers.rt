//! The header of an image. (Database File Format, section 1.3)
use pager::{Header, MemSource, Pager, Source, SourceFault};
use std::alloc::{AllocError, Global};
use std::num::NonZeroUsize;
use std::test::Fail;
use values::Fault;

/// The front of the header of a file of three pages of 512 bytes.
const FRONT: &[u8] =
    b"SQLite format 3\0\x02\x00\x01\x01\x00\x40\x20\x20\0\0\0\x07\0\0\0\x03\0\0\0\x02\0\0\0\x01";

/// The bytes behind it that aren't 0: the header's last, and the first of pages 2 and 3, which are their numbers.
const LATER: [(usize, u8); 5] = [(47, 4), (59, 1), (95, 7), (512, 2), (1024, 3)];

/// An image of these three pages.
pub(crate) fn three_pages(alloc: Global) -> Result<Vec<u8>, AllocError> {
    let mut bytes = Vec::from_slice(alloc, FRONT)?;
    bytes.resize(1536, 0)?;
    for (place, byte) in LATER {
        set(&mut bytes, place, byte);
    }
    Ok(bytes)
}

fn set(bytes: &mut Vec<u8>, place: usize, byte: u8) {
    if place < bytes.len() {
        bytes[place] = byte;
    }
}

/// The fault with which a source isn't opened, if there is one.
fn fault_of<S: Source + Drop>(alloc: Global, source: S) -> Option<Fault> {
    match Pager::open(alloc, source, NonZeroUsize::MIN) {
        Ok(_) => None,
        Err((fault, _)) => Some(fault),
    }
}

/// Bytes of the image that are others, and the fault of it: one byte changed, or two where the first alone breaks another
/// condition first.
const BROKEN: [([(usize, u8); 2], Fault); 16] = [
    ([(15, 1), (15, 1)], Fault::BadMagic),
    ([(17, 1), (17, 1)], Fault::BadPageSize),
    ([(20, 33), (20, 33)], Fault::BadPageSize),
    ([(18, 0), (18, 0)], Fault::BadHeaderField),
    ([(19, 3), (19, 3)], Fault::BadHeaderField),
    ([(22, 31), (22, 31)], Fault::BadHeaderField),
    ([(19, 2), (19, 2)], Fault::WalImage),
    ([(18, 2), (56, 1)], Fault::WalImage),
    ([(18, 2), (21, 63)], Fault::BadHeaderField),
    ([(59, 2), (59, 2)], Fault::NotUtf8Encoding),
    ([(55, 1), (55, 1)], Fault::AutoVacuum),
    ([(67, 1), (47, 1)], Fault::AutoVacuum),
    ([(47, 1), (47, 1)], Fault::SchemaFormat),
    ([(27, 8), (27, 8)], Fault::SizeMismatch),
    ([(31, 2), (31, 2)], Fault::SizeMismatch),
    ([(31, 0), (31, 0)], Fault::SizeMismatch),
];

/// How many bytes are left of the image, and the fault of it.
const SHORT: [(usize, Fault); 4] = [
    (0, Fault::ShortFile),
    (99, Fault::ShortFile),
    (100, Fault::SizeMismatch),
    (1535, Fault::SizeMismatch),
];

/// The first row of `BROKEN` that isn't so.
fn wrong_condition(alloc: Global) -> Result<Option<usize>, AllocError> {
    for (row, (changes, fault)) in BROKEN.iter().enumerate() {
        let mut bytes = three_pages(alloc)?;
        for (place, byte) in changes {
            set(&mut bytes, *place, *byte);
        }
        if fault_of(alloc, MemSource::new(bytes)).as_ref() != Some(fault) {
            return Ok(Some(row));
        }
    }
    Ok(None)
}

/// The first row of `SHORT` that isn't so.
fn wrong_length(alloc: Global) -> Result<Option<usize>, AllocError> {
    for (row, (length, fault)) in SHORT.iter().enumerate() {
        let mut bytes = three_pages(alloc)?;
        bytes.truncate(*length);
        if fault_of(alloc, MemSource::new(bytes)).as_ref() != Some(fault) {
            return Ok(Some(row));
        }
    }
    Ok(None)
}

/// A source of so many bytes: an image's header, and zeros.
#[derive(Drop)]
struct Long {
    header: MemSource,
    size: u64,
    failures: u64,
}

impl Source for Long {
    ghost use Rattle.std.specs.Prelude.{false, []};
    ghost use Rattle.pager.specs.Source.{SourceFacts};

    ghost facts = { λ s. record { bytes = []; steady = false; failures = s.failures } };

    fn len(&mut self) -> Result<u64, SourceFault> {
        Ok(self.size)
    }

    fn read_at(&mut self, place: u64, buf: &mut [u8]) -> Result<(), SourceFault> {
        if self.header.read_at(place, buf).is_err() {
            buf.fill(0);
        }
        Ok(())
    }
}

/// The fault of an image of so many pages of 512 bytes, if there is one.
fn fault_of_pages(alloc: Global, pages: u32) -> Result<Option<Fault>, AllocError> {
    let mut bytes = three_pages(alloc)?;
    for (place, byte) in (28..32).zip(pages.to_be_bytes()) {
        set(&mut bytes, place, byte);
    }
    let source = Long {
        header: MemSource::new(bytes),
        size: u64::from(pages) * 512,
        failures: 0,
    };
    Ok(fault_of(alloc, source))
}

#[test]
fn headers(rt: HostRuntime) -> Result<(), Fail> {
    let alloc = rt.alloc();
    assert_eq!(rt; wrong_condition(alloc)?, None);
    assert_eq!(rt; wrong_length(alloc)?, None);
    // 2^30 bytes, and one page more.
    assert_eq!(rt; fault_of_pages(alloc, 2_097_152)?, None);
    assert_eq!(rt; fault_of_pages(alloc, 2_097_153)?, Some(Fault::TooLarge));
    Ok(())
}

#[test]
fn a_sound_header(rt: HostRuntime) -> Result<(), Fail> {
    let source = MemSource::new(three_pages(rt.alloc())?);
    let Ok(pager) = Pager::open(rt.alloc(), source, NonZeroUsize::MIN) else {
        return Err("refused".into());
    };
    let header = Header {
        page_size: 512,
        usable: 512,
        pages: 3,
        freelist: 2,
        free_pages: 1,
    };
    assert_eq!(rt; pager.header(), header);
    assert_eq!(rt; (pager.asked(), pager.chained()), (0, 0));
    Ok(())
}
