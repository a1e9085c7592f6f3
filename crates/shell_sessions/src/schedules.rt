//! Lists of steps, made on fresh slots.
ghost use Rattle.std.specs.Prelude.{◌≡◌, IfErr, IfOk, OnErr};
ghost use Rattle.shell_sessions.specs.Replies.{base_of};
ghost use Rattle.shell_sessions.specs.Run.{IsSessionRun, TellReads};
ghost use Rattle.shell_sessions.specs.Stands.{KeepsImage};

use crate::slots::{closed_slots, make_step};
use crate::{Reply, Step};
use pager::Source;
use shell::Engine;
use std::alloc::Global;
use values::Fault;

/// Makes these steps, one after the other, on slots that are closed before the first, and gives their replies.
///
/// # Errors
///
/// `NoMemory` where there is no room for the slots and the replies; no step is made then.
pub fn replay<S: Source>(
    alloc: Global,
    engine: &mut Engine<S>,
    steps: &[Step],
) -> Result<Vec<Reply>, Fault>
    ensures run { IfOk result (λ replies. IsSessionRun (base_of engine.old) steps.now replies.items) }
    ensures reads { IfOk result (λ replies. TellReads replies.items engine.old.pager.source.failures engine.new.pager.source.failures) }
    ensures image { KeepsImage engine.old engine.new }
    ensures only { IfErr result (λ fault. fault ≡ Fault.NoMemory) }
    ensures unmade { OnErr result (engine.new ≡ engine.old) }
{
    let mut closed = closed_slots(alloc)?;
    let slots = closed.as_mut_slice();
    let mut replies = Vec::with_capacity(alloc, steps.len())?;
    for step in steps {
        let reply = make_step(engine, slots, step);
        replies.push(reply)?;
    }
    Ok(replies)
}
