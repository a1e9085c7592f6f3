//! One cell of a tree, with the page that has it.
ghost use Rattle.btree_cursor.specs.cursor.Held.{LacksCell};

use crate::cursor::cursor::Frame;
use btree::TreeKind;

/// A cell that was found by its whole key, on the page that has it.
#[derive(Drop)]
pub struct Found {
    pub(crate) kind: TreeKind,
    pub(crate) frame: Frame,
    pub(crate) usable: usize,
    pub(crate) most: u64,
    ghost there: { ¬ LacksCell kind usable most frame },
}
