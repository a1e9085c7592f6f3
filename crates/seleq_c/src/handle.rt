//! A box that C keeps, or none.
ghost use Rattle.std.specs.Prelude.{◌≡◌, IsSome};
ghost use Rattle.std.specs.declared.option.Option.TheVariants.{None, Some};
ghost use Rattle.seleq_c.specs.Owned.{handle_owns, kept_coded, Kept};

use crate::parts::Parts;
use opened_images::OpenImage;
use std::alloc::Global;
use std::marker::Model;
use std::ptr::null_mut;

/// A box that C keeps, or none.
#[repr(C)]
#[derive(Drop)]
pub struct Handle {
    pub(crate) at: *mut (),
    alloc: Global,
    pub ghost value: { Kept } by { kept_coded },
}

impl Model for Handle {
    ghost also_owns = { λ h. handle_owns h.alloc h.at h.value };
}

impl Handle {
    /// Keeps none.
    pub fn none(alloc: Global) -> Handle
        ensures { result.value ≡ None }
    {
        Handle {
            at: null_mut(),
            alloc,
        }
    }

    fn of_parts(parts: Parts<OpenImage, Global>) -> Handle
        ensures { result.value ≡ Some parts.value }
    {
        let Parts { at, alloc } = parts;
        Handle {
            at: at as *mut (),
            alloc,
        }
    }

    fn into_parts(self) -> Parts<OpenImage, Global>
        requires { IsSome self.value }
        ensures { self.value ≡ Some result.value }
    {
        let Handle { at, alloc } = self;
        Parts {
            at: at as *mut OpenImage,
            alloc,
        }
    }

    /// Keeps a box.
    pub fn of(value: Box<OpenImage>) -> Handle
        ensures { result.value ≡ Some value.value }
    {
        Handle::of_parts(Parts::of(value))
    }

    /// The box again.
    pub fn into_box(self) -> Box<OpenImage>
        requires { IsSome self.value }
        ensures { self.value ≡ Some result.value }
    {
        self.into_parts().into_box()
    }
}
