//! The peer groups of a sequence.
ghost use Rattle.std.specs.Prelude.{◌≡◌, ◌<◌, ◌+◌, ◌-◌, ◌++◌, [], ◌∷◌, false, IfOk, OnOk, if◌then◌else◌, length, map};
ghost use Rattle.resolver_terms.specs.SelectView.{direction_of};
ghost use Rattle.windows_groups.specs.window_order.Entries.{IsInWindowOrder, keys_of};
ghost use Rattle.windows_groups.specs.window_order.Groups.{AreGroups, groups_made};

use crate::window_order::keys::compare_keys;
use crate::window_order::sorting::Entry;
use sql_reader_syntax::Direction;
use std::alloc::{AllocError, Global};

/// The peer groups of a sequence, each from its first place up to that of the next.
#[derive(Drop)]
pub struct PeerGroups {
    /// For each place the number of its group, from 0.
    pub numbers: Vec<usize>,
    /// The first place of each group, and the end of the sequence.
    pub starts: Vec<usize>,
}

/// Whether a group begins at a place.
fn begins_group(directions: &[Direction], entries: &[Entry], at: usize) -> bool
    requires in_order { IsInWindowOrder (map direction_of directions.now) (keys_of entries.now) }
    requires within { at < length entries.now }
    ensures { groups_made (map direction_of directions.now) (keys_of entries.now) (at + 1)
        ≡ (if result then groups_made (map direction_of directions.now) (keys_of entries.now) at + 1 else groups_made (map direction_of directions.now) (keys_of entries.now) at) }
{
    if at == 0 {
        return true;
    }
    compare_keys(
        directions,
        entries[at - 1].keys.as_slice(),
        entries[at].keys.as_slice(),
    )
    .is_ne()
}

impl PeerGroups {
    /// Goes on by the next place, where a group begins or not.
    fn push(&mut self, begins: bool) -> Result<(), AllocError>
        requires { begins ≡ false → 0 < length self.old.starts.items }
        ensures starts { OnOk result (self.new.starts.items ≡ (if begins then self.old.starts.items ++ length self.old.numbers.items ∷ [] else self.old.starts.items)) }
        ensures numbers { OnOk result (self.new.numbers.items ≡ self.old.numbers.items ++ (length self.new.starts.items - 1) ∷ []) }
    {
        if begins {
            self.starts.push(self.numbers.len())?;
        }
        self.numbers.push(self.starts.len() - 1)?;
        Ok(())
    }
}

/// The peer groups of a sequence. (Window Functions, "Frame Type")
pub fn peer_groups(
    alloc: Global,
    directions: &[Direction],
    entries: &[Entry],
) -> Result<PeerGroups, AllocError>
    requires { IsInWindowOrder (map direction_of directions.now) (keys_of entries.now) }
    ensures { IfOk result (λ groups. AreGroups (map direction_of directions.now) (keys_of entries.now) groups) }
{
    let mut groups = PeerGroups {
        numbers: Vec::with_capacity(alloc, entries.len())?,
        starts: Vec::new(alloc),
    };
    for at in 0..entries.len() {
        let begins = begins_group(directions, entries, at);
        groups.push(begins)?;
    }
    groups.starts.push(entries.len())?;
    Ok(groups)
}
