//! The slots of a session over an engine.
ghost use Rattle.std.specs.Prelude.{◌≡◌, ◌≢◌, ℕ, IfOk, replicate};
ghost use Rattle.pager.specs.Calls.{TellsFailedReads};
ghost use Rattle.shell_sessions.specs.Replies.{SlotState, base_of, request_of, slot_of};
ghost use Rattle.shell_sessions.specs.Run.{TellsRead};
ghost use Rattle.shell_sessions.specs.SessionState.{AreSound};
ghost use Rattle.shell_sessions.specs.Stands.{HasCompleted, KeepsImage, Replied, SlotStands};

use crate::{Reply, Slot, Step};
use pager::Source;
use shell::Engine;
use std::alloc::{AllocError, Global};
use values::{Fault, Row};

/// How many slots a session has.
const SLOTS: usize = 16;

/// Sixteen slots, each closed.
pub(crate) fn closed_slots(alloc: Global) -> Result<Vec<Slot>, AllocError>
    ensures { IfOk result (λ slots. slots.items ≡ replicate 16 Slot.Closed) }
{
    let mut slots = Vec::with_capacity(alloc, SLOTS)?;
    for _ in 0..SLOTS {
        slots.push(Slot::Closed)?;
    }
    Ok(slots)
}

/// Makes a step on the slot that it names, if there is one.
pub(crate) fn make_step<S: Source>(engine: &mut Engine<S>, slots: &mut [Slot], step: &Step) -> Reply
    requires { AreSound engine.old slots.old }
    ensures replies { (at : SlotState) → SlotStands engine.old slots.old (slot_of step.now) at
        → Replied (base_of engine.old) (request_of step.now) at result (SlotStands engine.new slots.new (slot_of step.now)) }
    ensures others { (number : ℕ) (at : SlotState) → number ≢ slot_of step.now → SlotStands engine.old slots.old number at
        → SlotStands engine.new slots.new number at }
    ensures sound { AreSound engine.new slots.new }
    ensures image { KeepsImage engine.old engine.new }
    ensures reads { TellsRead result engine.old.pager.source.failures engine.new.pager.source.failures }
{
    let at = usize::from(step.slot());
    if at >= slots.len() {
        return Reply::Fault(step.missing_slot());
    }
    let slot = &mut slots[at];
    slot.step(engine, step)
}

/// Gives the rows that the statement in the slot of this number has still to give.
pub(crate) fn complete_slot<S: Source>(
    alloc: Global,
    engine: &mut Engine<S>,
    slots: &mut [Slot],
    slot: u8,
) -> Result<Vec<Row>, Fault>
    requires { AreSound engine.old slots.old }
    ensures rows { (at : SlotState) → SlotStands engine.old slots.old slot at
        → HasCompleted (base_of engine.old) at result (SlotStands engine.new slots.new slot) }
    ensures others { (number : ℕ) (at : SlotState) → number ≢ slot → SlotStands engine.old slots.old number at
        → SlotStands engine.new slots.new number at }
    ensures sound { AreSound engine.new slots.new }
    ensures image { KeepsImage engine.old engine.new }
    ensures reads { TellsFailedReads result engine.old.pager.source.failures engine.new.pager.source.failures }
{
    let at = usize::from(slot);
    if at >= slots.len() {
        return Err(Fault::NoStatement);
    }
    let here = &mut slots[at];
    here.complete(alloc, engine)
}
