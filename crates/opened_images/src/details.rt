//! What a fault carries beside its name.
ghost use Rattle.std.specs.Prelude.{◌≡◌};
ghost use Rattle.values.specs.Datum.{datum_of_ref};
ghost use Rattle.opened_images.specs.Detail.{detail_of};

use values::{Fault, ValueRef};

/// The page, the place or the name that a fault carries, or none. A place past the last of an `i64` counts as that.
pub fn detail(fault: &Fault) -> ValueRef<'_>
    ensures { datum_of_ref result ≡ detail_of fault.now }
{
    match fault {
        Fault::BadPage(page)
        | Fault::BadChain(page)
        | Fault::PageUse(page)
        | Fault::BadOrder(page)
        | Fault::BadDepth(page)
        | Fault::BadRecord(page) => ValueRef::Int(i64::from(*page)),
        Fault::SchemaText(name)
        | Fault::UnsupportedObject(name)
        | Fault::ValueBreaksColumn(name)
        | Fault::IndexDiffers(name)
        | Fault::NotUnique(name) => ValueRef::Text(name.as_str()),
        Fault::Syntax(place) => {
            let last = (*place).min(i64::MAX as usize);
            ValueRef::Int(last as i64)
        }
        _ => ValueRef::Null,
    }
}
