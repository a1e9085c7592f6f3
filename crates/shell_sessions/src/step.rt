//! Steps of a session and their replies.
ghost use Rattle.std.specs.Prelude.{◌≡◌};
ghost use Rattle.shell_sessions.specs.Replies.{missing_fault, request_of, slot_of};

use values::{Fault, Row};

/// A step on one slot of a session.
#[derive(Debug, Drop)]
pub enum Step {
    /// Opens this text in a slot.
    Open(u8, String),
    /// Asks the statement of a slot for its next row.
    Next(u8),
    /// Closes a slot. Its statement is dropped.
    Close(u8),
}

/// What a step answers.
#[derive(Debug, Drop)]
pub enum Reply {
    /// The statement stands before its first row; its result columns have these names.
    Opened(Vec<String>),
    /// The next row.
    Row(Row),
    /// There is no further row: those that were given are the whole answer.
    End,
    /// The slot is closed.
    Closed,
    /// The step was refused, or the statement failed.
    Fault(Fault),
}

impl Step {
    /// The slot on which it is made.
    pub fn slot(&self) -> u8
        ensures { result ≡ slot_of self.now }
    {
        match self {
            Step::Open(slot, _) => *slot,
            Step::Next(slot) => *slot,
            Step::Close(slot) => *slot,
        }
    }

    /// The fault of a step on a slot that there isn't.
    pub(crate) fn missing_slot(&self) -> Fault
        ensures { result ≡ missing_fault (request_of self.now) }
    {
        match self {
            Step::Open(_, _) => Fault::TooManyStatements,
            Step::Next(_) | Step::Close(_) => Fault::NoStatement,
        }
    }
}
