ghost use Rattle.std.specs.{Prelude.{◌≡◌, ◌≤◌, length, take}, List.{prefix_len}, List.Sorted.{IsPartitionedBy}};
ghost use Rattle.partial_path.specs.Keys.{key_size, texts};
ghost use Rattle.root_index.specs.{Blocks.{first_passes}, Inside.{is_before_key}};

use crate::group::Group;
use crate::groups::Groups;
use crate::slot::Slot;
use crate::slot_list::{is_before_key, place_among};
use stacks_vars::LentStack;
use std::alloc::{AllocError, Global};
use std::marker::Model;

/// Paths in groups that indexes share, with the place at which each group begins. A contract sees the list
/// of all paths.
#[derive(Drop)]
pub(crate) struct GroupList {
    groups: Groups,
    starts: Vec<usize>,
    count: usize,
}

impl Model for GroupList {
    ghost use Rattle.std.specs.Prelude.{◌≡◌, ◌<◌, ◌^◌, List, length};
    ghost use Rattle.root_index.specs.{Roots.{RootPath}, Blocks.{AreStarts, all_paths}};

    ghost Value = { List RootPath };

    ghost view = { λ s. all_paths s.groups };

    ghost invariant = { λ s. AreStarts s.starts.items s.groups
        × (s.count ≡ length (all_paths s.groups)) × (length (all_paths s.groups) < 2 ^ 64) };
}

impl GroupList {
    ghost use Rattle.std.specs.{Prelude.{◌≡◌, ◌<◌, ◌≤◌, [], length, take, slice_get, None, Some, IfOk, MatchOption}, List.{prefix_len}, List.Sorted.{IsPartitionedBy}};
    ghost use Rattle.partial_path.specs.Keys.{key_size, texts};
    ghost use Rattle.root_index.specs.{Blocks.{all_paths}, Inside.{is_before_key}};

    /// No paths. It takes no memory.
    pub(crate) fn new(alloc: Global) -> GroupList
        ensures { result ≡ [] }
    {
        GroupList {
            groups: Groups::new(alloc),
            starts: Vec::new(alloc),
            count: 0,
        }
    }

    /// The paths of these groups. The one error is want of memory.
    pub(crate) fn of(alloc: Global, groups: Groups) -> Result<GroupList, AllocError>
        ensures { IfOk result (λ slots. slots ≡ all_paths groups) }
    {
        let (starts, count) = groups.starts(alloc)?;
        Ok(GroupList {
            groups,
            starts,
            count,
        })
    }

    /// The groups that hold the paths.
    pub(crate) fn groups(&self) -> &Groups
        ensures { all_paths result.now ≡ self.now }
    {
        &self.groups
    }

    /// How many paths there are.
    pub(crate) fn len(&self) -> usize
        ensures { result ≡ length self.now }
    {
        self.count
    }

    /// The path at that place, and the number of its group; None past the last. It takes constant time where
    /// that is the group told or the next one, else time that follows the logarithm of the number of groups.
    pub(crate) fn get(&self, place: usize, near: usize) -> Option<(&Slot, usize)>
        ensures { MatchOption result (slice_get self.now place ≡ None)
            (λ found. slice_get self.now place ≡ Some found.0.now) }
    {
        if place < self.count {
            Some(self.at(place, near))
        } else {
            None
        }
    }

    /// The path at that place, and the number of its group. It takes constant time where that is the group
    /// told or the next one, else time that follows the logarithm of the number of groups.
    pub(crate) fn at(&self, place: usize, near: usize) -> (&Slot, usize)
        requires { place < length self.now }
        ensures { slice_get self.now place ≡ Some result.0.now }
    {
        let (group, inside) = place_among(self.starts.as_slice(), place, near);
        (self.groups.groups()[group].slots().at(inside), group)
    }

    /// How many paths seem to stand before the key with these heads, and the group of the last of them. It is found by
    /// halving over heads alone, and may be wrong where long texts have one head.
    pub(crate) fn told(&self, wanted: &[u64; 6]) -> (usize, usize) {
        let groups = self.groups.groups();
        let found = groups_told(groups, wanted);
        if found == 0 {
            return (0, 0);
        }
        let group = found - 1;
        let place = groups[group].slots().told(wanted);
        (self.starts[group].saturating_add(place), group)
    }

    /// How many paths stand before the key that the texts of the stack's first symbols make, so many of
    /// them. They are found by halving.
    pub(crate) fn end_of(&self, symbols: &LentStack<'_>, count: usize) -> usize
        requires parted { IsPartitionedBy (is_before_key (take count (texts symbols.now))) self.now }
        requires count { count ≤ key_size }
        ensures value { result
            ≡ prefix_len (is_before_key (take count (texts symbols.now))) self.now }
        ensures bound { result ≤ length self.now }
    {
        let groups = self.groups.groups();
        let found = groups_within(groups, symbols, count);
        if found == 0 {
            return 0;
        }
        let group = found - 1;
        self.starts[group] + groups[group].slots().end_of(symbols, count)
    }
}

/// How many groups begin within the key, by halving.
fn groups_within(groups: &[Group], symbols: &LentStack<'_>, count: usize) -> usize
    requires parted { IsPartitionedBy (first_passes
        (is_before_key (take count (texts symbols.now)))) groups.now }
    requires count { count ≤ key_size }
    ensures value { result
        ≡ prefix_len (first_passes (is_before_key (take count (texts symbols.now)))) groups.now }
    ensures bound { result ≤ length groups.now }
{
    groups.partition_point(|group| begins_within(group, symbols, count))
}

/// How many groups seem to begin within the key with these heads, by halving.
fn groups_told(groups: &[Group], wanted: &[u64; 6]) -> usize
    ensures { result ≤ length groups.now }
{
    groups.partition_point(|group| group.first().seems_before(wanted))
}

/// Whether the group's first path stands within the key.
fn begins_within(group: &Group, symbols: &LentStack<'_>, count: usize) -> bool
    requires { count ≤ key_size }
    ensures { result
        ≡ first_passes (is_before_key (take count (texts symbols.now))) group.now }
{
    is_before_key(group.first(), symbols, count)
}
