//! Steps of statements.
ghost use Rattle.std.specs.Prelude.{◌≡◌, ◌≢◌, false, IfSome, List, MatchOption, ℕ};
ghost use Rattle.values.specs.Row.{Row as RowData};
ghost use Rattle.schema_tables.specs.TableData.{TableData};
ghost use Rattle.semantics.specs.Query.{QueryData};
ghost use Rattle.shell_sessions.specs.Replies.{SlotState, asks, closes, running};
ghost use Rattle.opened_images.specs.Held.{GivesExactly, StandsAt, after};
ghost use Rattle.seleq_c.specs.Called.{AnswersStart, AnswersStep, not_open};

use crate::Image;
use crate::statuses::{NOT_OPEN, NOT_UTF8, status};
use std::alloc::Global;

/// Opens a text in a slot from 0 to 15, whose statement is before its first row then.
#[unsafe(no_mangle)]
pub extern "C" fn seleq_start(image: &mut Image, alloc: Global, slot: u8, text: &[u8]) -> u8
    ensures closed { image.old.live ≡ false → (result ≡ not_open) × (image.new ≡ image.old) }
    ensures starts { IfSome image.old.handle.value (λ old. AnswersStart old slot text.now image.new.handle.value result) }
{
    if !image.live {
        return NOT_OPEN;
    }
    match str::from_utf8(text) {
        Ok(text) => {
            let opened = image.handle.as_mut();
            opened.start(alloc, slot, text);
            status(opened.reply())
        }
        Err(_) => NOT_UTF8,
    }
}

/// Asks the statement in a slot for its next row. A row, the end and a fault come only where the query's meaning has them: **the
/// exact answer**, with no premise left.
#[unsafe(no_mangle)]
pub extern "C" fn seleq_step(image: &mut Image, slot: u8) -> u8
    ensures closed { image.old.live ≡ false → (result ≡ not_open) × (image.new ≡ image.old) }
    ensures steps { IfSome image.old.handle.value (λ old. AnswersStep old slot asks image.new.handle.value result) }
    ensures exact { (bytes : List ℕ) (tables : List TableData) (query : QueryData) (given : List RowData) → IfSome image.old.handle.value (λ old.
        StandsAt bytes tables old slot (running query given) → MatchOption image.new.handle.value ⊥ (λ new.
        GivesExactly bytes tables query given new.reply × StandsAt bytes tables new slot (after query given new.reply))) }
    ensures others { (bytes : List ℕ) (tables : List TableData) (number : ℕ) (at : SlotState) → number ≢ slot → IfSome image.old.handle.value (λ old.
        StandsAt bytes tables old number at → MatchOption image.new.handle.value ⊥ (λ new. StandsAt bytes tables new number at)) }
{
    if !image.live {
        return NOT_OPEN;
    }
    let opened = image.handle.as_mut();
    opened.next(slot);
    status(opened.reply())
}

/// Closes a slot. The statement in it is dropped.
#[unsafe(no_mangle)]
pub extern "C" fn seleq_end(image: &mut Image, slot: u8) -> u8
    ensures closed { image.old.live ≡ false → (result ≡ not_open) × (image.new ≡ image.old) }
    ensures ends { IfSome image.old.handle.value (λ old. AnswersStep old slot closes image.new.handle.value result) }
{
    if !image.live {
        return NOT_OPEN;
    }
    let opened = image.handle.as_mut();
    opened.end(slot);
    status(opened.reply())
}
