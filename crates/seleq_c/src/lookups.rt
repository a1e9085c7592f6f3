//! Looking at what the last step gave.
ghost use Rattle.std.specs.Prelude.{◌≡◌, ◌+◌, false, IfSome, length, option_map, slice_get};
ghost use Rattle.values.specs.Datum.{text};
ghost use Rattle.opened_images.specs.Held.{fault_replied, names_shown, row_shown};
ghost use Rattle.seleq_c.specs.Called.{not_open};
ghost use Rattle.seleq_c.specs.Shown.{AnswersFault, AnswersLookup};

use crate::column::shown;
use crate::statuses::{NO_COLUMN, NOT_OPEN};
use crate::{Column, Image};
use opened_images::detail;
use values::ValueRef;

/// How many columns the last step gave: names where it opened a text in this slot, values where it gave a row of it, else 0.
#[unsafe(no_mangle)]
pub extern "C" fn seleq_columns(image: &mut Image, slot: u8, count: &mut usize) -> u8
    ensures closed { image.old.live ≡ false → (result ≡ not_open) × (count.new ≡ count.old) }
    ensures counts { IfSome image.old.handle.value (λ old. (result ≡ 0) × (count.new ≡ length (names_shown old slot) + length (row_shown old slot))) }
{
    if !image.live {
        return NOT_OPEN;
    }
    let opened = image.handle.as_mut();
    *count = opened.width(slot);
    0
}

/// The name of a column of the statement that the last step opened in this slot.
#[unsafe(no_mangle)]
pub extern "C" fn seleq_name<'a>(
    image: &'a mut Image,
    slot: u8,
    column: usize,
    out: &mut Column<'a>,
) -> u8
    ensures closed { image.old.live ≡ false → (result ≡ not_open) × (out.new ≡ out.old) }
    ensures names { IfSome image.old.handle.value (λ old. AnswersLookup (option_map text (slice_get (names_shown old slot) column)) out.old out.new result) }
{
    if !image.live {
        return NOT_OPEN;
    }
    let opened = image.handle.as_mut();
    match opened.name(slot, column) {
        Some(name) => {
            *out = shown(ValueRef::Text(name));
            0
        }
        None => NO_COLUMN,
    }
}

/// The value in a column of the row that the last step gave, if it was made on this slot.
#[unsafe(no_mangle)]
pub extern "C" fn seleq_column<'a>(
    image: &'a mut Image,
    slot: u8,
    column: usize,
    out: &mut Column<'a>,
) -> u8
    ensures closed { image.old.live ≡ false → (result ≡ not_open) × (out.new ≡ out.old) }
    ensures values { IfSome image.old.handle.value (λ old. AnswersLookup (slice_get (row_shown old slot) column) out.old out.new result) }
{
    if !image.live {
        return NOT_OPEN;
    }
    let opened = image.handle.as_mut();
    match opened.value(slot, column) {
        Some(value) => {
            *out = shown(value);
            0
        }
        None => NO_COLUMN,
    }
}

/// The fault with which the last step was answered, or the opening: its number, with its name and what it carries. 0 where
/// there is none.
#[unsafe(no_mangle)]
pub extern "C" fn seleq_fault<'a>(
    image: &'a mut Image,
    name: &mut Column<'a>,
    carried: &mut Column<'a>,
) -> u8
    ensures closed { image.old.live ≡ false → (result ≡ not_open) × (name.new ≡ name.old) × (carried.new ≡ carried.old) }
    ensures faults { IfSome image.old.handle.value (λ old. AnswersFault (fault_replied old.reply) name.old name.new carried.old carried.new result) }
{
    if !image.live {
        return NOT_OPEN;
    }
    let opened = image.handle.as_mut();
    match opened.fault() {
        Some(fault) => {
            *name = shown(ValueRef::Text(fault.name()));
            *carried = shown(detail(fault));
            fault.number()
        }
        None => 0,
    }
}
