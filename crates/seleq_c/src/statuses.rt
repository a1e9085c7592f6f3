//! What a call answers: 0 where it did as asked, the number of a fault, or one of these.
ghost use Rattle.std.specs.Prelude.{◌≡◌};
ghost use Rattle.seleq_c.specs.Called.{status_of};

use shell_sessions::Reply;

/// The image isn't open.
pub(crate) const NOT_OPEN: u8 = 60;

/// The image is open already.
pub(crate) const ALREADY_OPEN: u8 = 61;

/// The last step gave no such column.
pub(crate) const NO_COLUMN: u8 = 62;

/// The text isn't UTF-8.
pub(crate) const NOT_UTF8: u8 = 63;

/// The cache is to keep no page.
pub(crate) const NO_CACHE: u8 = 64;

/// There is no further row.
pub(crate) const END: u8 = 100;

/// The fault `NoMemory`, where not even the image could be kept that has it.
pub(crate) const NO_MEMORY: u8 = 28;

/// What a call answers that was replied so.
pub(crate) fn status(reply: &Reply) -> u8
    ensures { result ≡ status_of reply.now }
{
    match reply {
        Reply::Opened(_) | Reply::Row(_) | Reply::Closed => 0,
        Reply::End => END,
        Reply::Fault(fault) => fault.number(),
    }
}
