//! Why bytes could not be read as a record.
ghost use Rattle.std.specs.Prelude.{◌≡◌};
ghost use Rattle.records.specs.declared.fault.RecordFault.TheVariants.{NoMemory};

use std::alloc::{AllocError, AllocFailed};
use thiserror::Error;

/// Why bytes could not be read as a record. (Database File Format, section 2.1)
#[derive(Clone, Copy, Debug, PartialEq, Eq, Error)]
pub enum RecordFault {
    /// There is no header, a type is reserved, or the bodies aren't as long as the types say.
    #[error("bad record")]
    Bad,
    /// A value is a floating point number.
    #[error("floating point value")]
    Float,
    /// A text is not UTF-8.
    #[error("text is not UTF-8")]
    Text,
    /// Memory ran out, which says nothing of the bytes.
    #[error("out of memory")]
    NoMemory,
}

impl From<AllocError> for RecordFault {
    ghost from_gives = { λ _ fault. fault ≡ NoMemory };

    fn from(_error: AllocError) -> RecordFault {
        RecordFault::NoMemory
    }
}

impl<T: Drop> From<AllocFailed<T>> for RecordFault {
    ghost from_gives = { λ _ fault. fault ≡ NoMemory };

    fn from(_error: AllocFailed<T>) -> RecordFault {
        RecordFault::from(AllocError)
    }
}
