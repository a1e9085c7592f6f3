//! The image of a handle, lent.
ghost use Rattle.std.specs.Prelude.{◌≡◌, IsSome, Some};
ghost use types.Logic.{sem};
ghost use Rattle.seleq_c.specs.Lent.{handle_follows};

use crate::handle::Handle;
use opened_images::OpenImage;

impl Handle {
    /// The image, which is lent.
    pub fn as_mut(&mut self) -> &mut OpenImage
        requires { IsSome self.old.value }
        ensures* writes_back { sem 𝓛 (handle_follows self.entry result) }
        ensures value { self.old.value ≡ Some result.now }
    {
        unsafe { &mut *(self.at as *mut OpenImage) }
    }
}
