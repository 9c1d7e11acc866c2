ghost use Rattle.std.specs.Prelude.{◌≡◌, ◌≤◌, ◌<◌, ◌+◌, ◌++◌, length, take, drop, slice_index_or, [], IfOk, OnOk, All};
ghost use Rattle.root_index.specs.{Blocks.{all_paths, first_passes, is_up_to}, Groups.{IsGroup}};

use crate::blocks::Blocks;
use crate::group::Group;
use crate::halving::is_up_to;
use crate::slot::Slot;
use std::alloc::{AllocError, Global};
use std::marker::Model;

/// How many blocks a group may have.
const GROUP_BLOCKS: usize = 16;

/// Paths in groups that indexes share: a change takes a handle of each group, and handles of the blocks of one.
/// Groups that have become small are not joined. A contract sees the list of the groups.
#[derive(Drop)]
pub(crate) struct Groups {
    groups: Vec<Group>,
}

impl Model for Groups {
    ghost use Rattle.std.specs.Prelude.{List, All};
    ghost use Rattle.root_index.specs.{Roots.{RootPath}, Groups.{IsGroup}};

    ghost Value = { List (List RootPath) };

    ghost view = { λ g. g.groups.items };

    ghost invariant = { λ g. All IsGroup g.groups.items };
}

impl Groups {
    ghost use Rattle.std.specs.{Prelude.{◌≡◌, ◌<◌, ◌≤◌, ◌+◌, ◌++◌, [], ◌∷◌, length, take, drop, not, slice_index_or, Some, IfOk, All}, List.{filter, prefix_len, insert}};
    ghost use Rattle.root_index.specs.{Roots.{AreByRank}, Blocks.{IsEndOf, IsStrict, AreStarts, all_paths, first_passes, is_up_to, is_tied}, Groups.{IsGroup}};

    /// No groups. It takes no memory.
    pub(crate) fn new(alloc: Global) -> Groups
        ensures { result ≡ [] }
    {
        Groups {
            groups: Vec::new(alloc),
        }
    }

    /// These paths in groups. The one error is want of memory.
    pub(crate) fn of(alloc: Global, slots: Vec<Slot>) -> Result<Groups, AllocError>
        ensures { IfOk result (λ groups. all_paths groups ≡ slots.items) }
    {
        let blocks = Blocks::of(alloc, slots)?;
        Ok(Groups {
            groups: in_groups(alloc, blocks)?,
        })
    }

    /// The same groups once more, not copied. The one error is want of memory.
    pub(crate) fn share(&self, alloc: Global) -> Result<Groups, AllocError>
        ensures { IfOk result (λ groups. groups ≡ self.now) }
    {
        let mut groups = Vec::new(alloc);
        groups.reserve(self.groups.len())?;
        for group in &self.groups {
            groups.push(group.share()?)?;
        }
        Ok(Groups { groups })
    }

    /// Handles of all paths, in their order. The one error is want of memory.
    pub(crate) fn slots(&self, alloc: Global) -> Result<Vec<Slot>, AllocError>
        ensures { IfOk result (λ slots. slots.items ≡ all_paths self.now) }
    {
        let mut slots = Vec::new(alloc);
        for group in &self.groups {
            group.add_to(&mut slots)?;
        }
        Ok(slots)
    }

    /// The groups.
    pub(crate) fn groups(&self) -> &[Group]
        ensures groups { result.now ≡ self.now }
        ensures sizes { All IsGroup self.now }
    {
        self.groups.as_slice()
    }

    /// At which place among all paths each group begins, and how many paths there are. The one error is
    /// want of memory; more paths than 64 bits can count are told as such.
    pub(crate) fn starts(&self, alloc: Global) -> Result<(Vec<usize>, usize), AllocError>
        ensures starts { IfOk result (λ found. AreStarts found.0.items self.now) }
        ensures count { IfOk result (λ found. found.1 ≡ length (all_paths self.now)) }
    {
        let mut starts = Vec::new(alloc);
        starts.reserve(self.groups.len())?;
        let mut count: usize = 0;
        for group in &self.groups {
            starts.push(count)?;
            count = count.checked_add(group.slots().len()).ok_or(AllocError)?;
        }
        Ok((starts, count))
    }

    /// How many groups begin no higher than the path, by halving.
    fn groups_up_to(&self, slot: &Slot) -> usize
        requires { AreByRank (all_paths self.now) }
        ensures value { result ≡ prefix_len (first_passes (is_up_to slot.now)) self.now }
        ensures bound { result ≤ length self.now }
        ensures sizes { All IsGroup self.now }
    {
        self.groups
            .partition_point(|group| begins_up_to(group, slot))
    }

    /// The last group that begins no higher than the path, or the first group, where all begin higher; there is
    /// a group.
    fn group_for(&self, slot: &Slot) -> usize
        requires order { AreByRank (all_paths self.now) }
        requires some { 0 < length self.now }
        ensures end { IsEndOf (is_up_to slot.now) self.now result
            (prefix_len (is_up_to slot.now) (slice_index_or self.now result [])) }
        ensures first { 0 < result
            → 0 < prefix_len (is_up_to slot.now) (slice_index_or self.now result []) }
    {
        self.groups_up_to(slot).saturating_sub(1)
    }

    /// These paths with this one, behind all that stand no higher: one group is made anew. The one error is want
    /// of memory.
    pub(crate) fn with(self, alloc: Global, slot: Slot) -> Result<Groups, AllocError>
        requires { AreByRank (all_paths self) }
        ensures { IfOk result (λ after. all_paths after
            ≡ insert (all_paths self) (prefix_len (is_up_to slot) (all_paths self)) slot) }
    {
        if self.groups.is_empty() {
            return Groups::of_one(alloc, slot);
        }
        let i = self.group_for(&slot);
        let (rest, group) = self.parted(i);
        let blocks = group.into_blocks(alloc)?;
        let blocks = blocks.with(alloc, slot)?;
        rest.joined(alloc, i, blocks)
    }

    /// These paths without the one that stands at the same rank, where there is one: one group is made anew, and
    /// left out where it has become empty. The one error is want of memory.
    pub(crate) fn without(self, alloc: Global, slot: &Slot) -> Result<Groups, AllocError>
        requires order { AreByRank (all_paths self) }
        requires strict { IsStrict (all_paths self) }
        ensures { IfOk result (λ after. all_paths after ≡ filter
            (λ q. not (is_tied slot.now q)) (all_paths self)) }
    {
        if self.groups.is_empty() {
            return Ok(self);
        }
        let i = self.group_for(slot);
        let (rest, group) = self.parted(i);
        let blocks = group.into_blocks(alloc)?;
        let blocks = blocks.without(alloc, slot)?;
        rest.joined(alloc, i, blocks)
    }

    /// One group of one path.
    fn of_one(alloc: Global, slot: Slot) -> Result<Groups, AllocError>
        ensures { IfOk result (λ after. all_paths after ≡ slot ∷ []) }
    {
        let mut slots = Vec::new(alloc);
        slots.push(slot)?;
        Groups::of(alloc, slots)
    }

    /// The other groups, and the one at the place.
    fn parted(self, i: usize) -> (Groups, Group)
        requires { i < length self }
        ensures before { take i result.0 ≡ take i self }
        ensures after { drop i result.0 ≡ drop (i + 1) self }
        ensures bound { i ≤ length result.0 }
        ensures one { result.1 ≡ slice_index_or self i result.1 }
    {
        let Groups { mut groups } = self;
        let group = groups.remove(i);
        (Groups { groups }, group)
    }

    /// These groups with those of the blocks, put in at the place. The one error is want of memory.
    fn joined(self, alloc: Global, i: usize, blocks: Blocks) -> Result<Groups, AllocError>
        requires { i ≤ length self }
        ensures { IfOk result (λ after. all_paths after
            ≡ all_paths (take i self) ++ (all_paths blocks ++ all_paths (drop i self))) }
    {
        let Groups { mut groups } = self;
        let parts = in_groups(alloc, blocks)?;
        put(&mut groups, i, parts)?;
        Ok(Groups { groups })
    }
}

/// Whether the group's first path stands no higher than the other.
fn begins_up_to(group: &Group, slot: &Slot) -> bool
    ensures { result ≡ first_passes (is_up_to slot.now) group.now }
{
    is_up_to(group.first(), slot)
}

/// These blocks in groups: none, one, or more where they are too many for one.
fn in_groups(alloc: Global, blocks: Blocks) -> Result<Vec<Group>, AllocError>
    ensures paths { IfOk result (λ groups. all_paths groups.items ≡ all_paths blocks) }
    ensures sizes { IfOk result (λ groups. All IsGroup groups.items) }
{
    let mut blocks = blocks;
    let mut groups = Vec::new(alloc);
    while blocks.len() > GROUP_BLOCKS {
        let at = blocks.len() - GROUP_BLOCKS / 2;
        let (rest, last) = blocks.cut(at)?;
        blocks = rest;
        groups.push(Group::of(alloc, last)?)?;
    }
    if blocks.len() > 0 {
        groups.push(Group::of(alloc, blocks)?)?;
    }
    groups.reverse();
    Ok(groups)
}

/// Puts the parts in at the place. The one error is want of memory.
fn put(groups: &mut Vec<Group>, i: usize, mut parts: Vec<Group>) -> Result<(), AllocError>
    requires { i ≤ length groups.old.items }
    ensures { OnOk result (groups.new.items ≡ take i groups.old.items
        ++ (parts.items ++ drop i groups.old.items)) }
{
    let mut after = groups.split_off(i)?;
    groups.append(&mut parts)?;
    groups.append(&mut after)?;
    Ok(())
}
