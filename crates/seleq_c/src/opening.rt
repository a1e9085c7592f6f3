//! Opening and closing an image.
ghost use Rattle.std.specs.Prelude.{◌≡◌, ◌≢◌, false, true};
ghost use Rattle.seleq_c.specs.Called.{AnswersOpening, already_open, no_cache};

use crate::Image;
use crate::statuses::{ALREADY_OPEN, NO_CACHE};
use opened_images::OpenImage;
use std::alloc::Global;
use std::num::NonZeroUsize;

/// Opens a copy of these bytes and checks it whole; `cache` is how many of its pages are kept. An image that is refused keeps the fault.
#[unsafe(no_mangle)]
pub extern "C" fn seleq_open(image: &mut Image, alloc: Global, bytes: &[u8], cache: usize) -> u8
    ensures live { image.old.live ≡ true → (result ≡ already_open) × (image.new ≡ image.old) }
    ensures uncached { image.old.live ≡ false → cache ≡ 0 → (result ≡ no_cache) × (image.new ≡ image.old) }
    ensures opened { image.old.live ≡ false → cache ≢ 0 → AnswersOpening bytes.now cache image.new.handle.value result }
{
    if image.live {
        return ALREADY_OPEN;
    }
    match NonZeroUsize::new(cache) {
        Some(cache) => image.keep(alloc, OpenImage::of_bytes(alloc, bytes, cache)),
        None => NO_CACHE,
    }
}

/// Closes an image and gives back what it holds. One that is closed stays so.
#[unsafe(no_mangle)]
pub extern "C" fn seleq_close(image: &mut Image, alloc: Global)
    ensures { image.new.live ≡ false }
{
    image.close(alloc);
}
