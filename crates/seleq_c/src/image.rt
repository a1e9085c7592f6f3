//! What C holds of an image.
ghost use Rattle.std.specs.Prelude.{◌≡◌, false, is_some, MatchOption};
ghost use Rattle.values.specs.Fault.{number_of};
ghost use Rattle.values.specs.declared.fault.Fault.TheVariants.{NoMemory};
ghost use Rattle.seleq_c.specs.Called.{status_of};

use crate::handle::Handle;
use crate::statuses::{NO_MEMORY, status};
use opened_images::OpenImage;
use std::alloc::Global;
use std::mem;

/// What C holds of an image. All zero it is closed.
#[repr(C)]
#[derive(Drop)]
pub struct Image {
    pub(crate) handle: Handle,
    pub(crate) live: bool,
    ghost fact: { live ≡ is_some handle.value },
}

impl Image {
    /// Keeps an image that was opened or refused, and answers how that went. Where there is no memory for it, this one is closed still.
    pub(crate) fn keep(&mut self, alloc: Global, opened: OpenImage) -> u8
        requires { self.old.live ≡ false }
        ensures { MatchOption self.new.handle.value (result ≡ number_of NoMemory) (λ kept. (kept ≡ opened) × (result ≡ status_of opened.reply)) }
    {
        let answer = status(opened.reply());
        match Box::new(alloc, opened) {
            Ok(boxed) => {
                *self = Image {
                    handle: Handle::of(boxed),
                    live: true,
                };
                answer
            }
            Err(_) => NO_MEMORY,
        }
    }

    /// Gives back what it holds, and is closed then.
    pub(crate) fn close(&mut self, alloc: Global)
        ensures { self.new.live ≡ false }
    {
        if !self.live {
            return;
        }
        let was = mem::replace(
            self,
            Image {
                handle: Handle::none(alloc),
                live: false,
            },
        );
        drop(was.handle.into_box());
    }
}
