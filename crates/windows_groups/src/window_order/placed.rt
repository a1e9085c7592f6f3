//! A sequence with its peer groups.
ghost use Rattle.std.specs.Prelude.{map};
ghost use Rattle.resolver_terms.specs.SelectView.{direction_of};
ghost use Rattle.windows_groups.specs.window_order.Entries.{IsInWindowOrder, keys_of};
ghost use Rattle.windows_groups.specs.window_order.Groups.{AreGroups};

use crate::window_order::peers::PeerGroups;
use crate::window_order::sorting::Entry;
use sql_reader_syntax::Direction;

/// The rows of a partition in their sequence, and the peer groups of these.
#[derive(Clone, Copy)]
pub struct Sequence<'a, 'b> {
    pub directions: &'a [Direction],
    pub entries: &'a [Entry<'b>],
    pub groups: &'a PeerGroups,
    ghost in_order: { IsInWindowOrder (map direction_of directions.now) (keys_of entries.now) },
    ghost grouped: { AreGroups (map direction_of directions.now) (keys_of entries.now) groups.now },
}
