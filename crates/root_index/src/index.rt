use crate::edited_files::are_many;
use crate::file_numbers::number_in;
use crate::file_roots::slots_of;
use crate::group_list::GroupList;
use crate::groups::Groups;
use crate::looks::{RootLook, next_looked};
use crate::offers::{RootOffers, next_slot};
use crate::seen_files::SeenFiles;
use crate::with_files::with_edited;
use crate::without_files::without_edited;
use partial_path::StoredPath;
use stacks_vars::{LentStack, Symbol};
use std::alloc::{AllocError, Global};
use std::marker::Model;
use version_tree::{Edit, Version, View};

/// All paths of a version's files that begin at the root, in the order of their keys, those of one key in
/// the order of their files. It holds them without a copy. A contract sees them as a list.
#[derive(Drop)]
pub struct RootIndex {
    slots: GroupList,
}

impl Model for RootIndex {
    ghost use Rattle.std.specs.Prelude.{List};
    ghost use Rattle.root_index.specs.Roots.{RootPath, AreByRank};

    ghost Value = { List RootPath };

    ghost view = { λ x. x.slots };

    ghost invariant = { λ x. AreByRank x.slots };
}

impl RootIndex {
    ghost use Rattle.std.specs.Prelude.{◌≡◌, [], ◌∷◌, IfOk, MatchOption, IsPermutation, option_copied};
    ghost use Rattle.version_tree.specs.Contents.{edited_all};
    ghost use Rattle.root_index.specs.{Roots.{IsIndexOf, IsIndexOfView}, Offers.{files_of, offers_left, roots_offered}, Looks.{look_left, roots_looked}, SeenFiles.{AreSeenFiles}};

    /// The index of a version without files. It takes no memory.
    pub fn empty(alloc: Global) -> RootIndex
        ensures none { result ≡ [] }
        ensures index { IsIndexOf [] result }
    {
        RootIndex {
            slots: GroupList::new(alloc),
        }
    }

    /// The index of the version's files. The one error is want of memory. It sorts all paths from the root.
    pub fn afresh(alloc: Global, version: &Version) -> Result<RootIndex, AllocError>
        ensures { IfOk result (IsIndexOf version.now.content.rows) }
    {
        let mut slots = slots_of(alloc, version)?;
        slots.sort_unstable_by(|a, b| a.order(b));
        let groups = Groups::of(alloc, slots)?;
        Ok(RootIndex {
            slots: GroupList::of(alloc, groups)?,
        })
    }

    /// The index of the version that the edits make of the old one, of which this is the index. The one
    /// error is want of memory. Of up to 64 edits it takes time that follows the number of paths from the
    /// root that the edited files have, before and after, and of groups of up to 16 blocks, and it shares
    /// with this index all blocks of up to 64 paths in which the edited files have no paths, before or after;
    /// of more than 64 and up to 512 of which up to 64 name a file of the old version it takes time that
    /// follows the number of all paths from the root, and sorts only those of the edited files; else it makes
    /// the index afresh. Each edit's path is compared with those of the edits before it, where it isn't made
    /// afresh.
    pub fn amended(
        &self,
        alloc: Global,
        old: &Version,
        new: &Version,
        edits: &[Edit],
    ) -> Result<RootIndex, AllocError>
        requires index { IsIndexOf old.now.content.rows self.now }
        requires rows { new.now.content.rows ≡ (edited_all edits.now old.now.content).rows }
        ensures { IfOk result (IsIndexOf new.now.content.rows) }
    {
        if are_many(old, edits) {
            return RootIndex::afresh(alloc, new);
        }
        let groups = self.slots.groups().share(alloc)?;
        let groups = without_edited(alloc, groups, old, edits)?;
        let groups = with_edited(alloc, groups, new, edits)?;
        Ok(RootIndex {
            slots: GroupList::of(alloc, groups)?,
        })
    }

    /// The index of the new version, of another of which this is the index: the one that
    /// `RootIndex::afresh` makes. The one error is want of memory. It sorts all paths from the root, since it
    /// isn't told what was edited.
    pub fn next(
        &self,
        alloc: Global,
        _old: &Version,
        new: &Version,
    ) -> Result<RootIndex, AllocError>
        requires { IsIndexOf _old.now.content.rows self.now }
        ensures { IfOk result (IsIndexOf new.now.content.rows) }
    {
        RootIndex::afresh(alloc, new)
    }

    /// A look at the paths from the root that the user may see and whose precondition asks for no symbol, or
    /// for this one first; without one, at those alone that ask for none: before its first path. It is for
    /// laws and tests. The index has its paths by key, and can't give them by file without memory or going
    /// over all of a symbol's paths anew for each; so the look goes over the files of the view.
    pub fn look(&self, _symbol: Option<&Symbol>, view: &View) -> RootLook
        requires { IsIndexOfView self.now view.now }
        ensures { look_left (files_of view.now) (option_copied _symbol.entry) result
            ≡ roots_looked view.now (option_copied _symbol.entry) }
    {
        let _count = view.row_count();
        RootLook { file: 0, place: 0 }
    }

    /// The path that comes next in the look, with its file's number in the view, and where the look stands
    /// after it; None where there is no more. The paths come by file and then by place. It takes no memory.
    /// It goes from file to file, so it takes time that follows the number of files that are passed, and in
    /// each the logarithm of the number of its paths and the number of those from the root: the look-up of
    /// `offers` is the fast one, but has another order.
    pub fn next_path<'a>(
        &self,
        symbol: Option<&Symbol>,
        view: &'a View,
        at: RootLook,
    ) -> Option<(u32, StoredPath<'a>, RootLook)>
        ensures { MatchOption result (look_left (files_of view.now) (option_copied symbol.entry) at
            ≡ []) (λ found. look_left (files_of view.now) (option_copied symbol.entry) at
            ≡ (found.0, found.1) ∷ look_left (files_of view.now)
            (option_copied symbol.entry) found.2) }
    {
        next_looked(view, symbol, at)
    }

    /// A look-up of the paths from the root that can be met with this symbol stack, as far as the texts of
    /// the first six symbols tell, and that the user may see: before its first path.
    pub fn offers(&self, view: &View, _symbols: &LentStack<'_>) -> RootOffers
        requires { IsIndexOfView self.now view.now }
        ensures { IsPermutation (roots_offered view.now _symbols.now)
            (offers_left result _symbols.now view.now self.now) }
    {
        let _count = view.row_count();
        RootOffers { place: 0, near: 0 }
    }

    /// The path that comes next in the look-up, with its file's number in the view, and where the look-up
    /// stands after it; None where no more is offered. It takes no memory. The index is halved for each of at
    /// most seven runs of equal keys; within a run a step takes constant time, and where the view doesn't have
    /// the file at its row's number in the version that of halving over the view. A path whose file isn't seen
    /// is passed over.
    pub fn next_offer(
        &self,
        view: &View,
        symbols: &LentStack<'_>,
        at: RootOffers,
    ) -> Option<(u32, StoredPath<'_>, RootOffers)>
        ensures { MatchOption result (offers_left at symbols.now view.now self.now ≡ [])
            (λ found. offers_left at symbols.now view.now self.now
            ≡ (found.0, found.1) ∷ offers_left found.2 symbols.now view.now self.now) }
    {
        let mut at = at;
        while let Some((slot, _, after)) = next_slot(&self.slots, None, symbols, at) {
            at = after;
            if let Some(file) = number_in(view, slot.path(), slot.row()) {
                return Some((file, slot.rule(), after));
            }
        }
        None
    }

    /// The numbers of all paths' files in the view, for many look-ups by `next_offer_by`. The one error is want
    /// of memory: it takes some fifty bytes for each path, since it notes where the paths of each key begin. Its
    /// time follows the number of paths: for each its file's number is found as `next_offer` finds it.
    pub fn seen_files(&self, alloc: Global, view: &View) -> Result<SeenFiles, AllocError>
        ensures { IfOk result (AreSeenFiles self.now view.now) }
    {
        let count = self.slots.len();
        let mut files = SeenFiles::with_room(alloc, count)?;
        let mut near = 0;
        let mut before = [0; 6];
        for place in 0..count {
            let (slot, group) = self.slots.at(place, near);
            near = group;
            files.push(number_in(view, slot.path(), slot.row()))?;
            files.note(slot.heads(), &before, place, group);
            before = *slot.heads();
        }
        Ok(files)
    }

    /// What `next_offer` answers, by the numbers that `seen_files` found for this index and the view. It takes no
    /// memory. The index is halved for each of at most seven runs of equal keys; within a run a step takes
    /// constant time, whatever the view is. A path whose file isn't seen is passed over.
    pub fn next_offer_by(
        &self,
        files: &SeenFiles,
        _view: &View,
        symbols: &LentStack<'_>,
        at: RootOffers,
    ) -> Option<(u32, StoredPath<'_>, RootOffers)>
        requires { AreSeenFiles self.now _view.now files.now }
        ensures { MatchOption result (offers_left at symbols.now _view.now self.now ≡ [])
            (λ found. offers_left at symbols.now _view.now self.now
            ≡ (found.0, found.1) ∷ offers_left found.2 symbols.now _view.now self.now) }
    {
        let mut at = at;
        while let Some((slot, place, after)) = next_slot(
            &self.slots,
            Some(files.hints()),
            symbols,
            at,
        ) {
            at = after;
            if let Some(file) = files.at(place) {
                return Some((file, slot.rule(), after));
            }
        }
        None
    }
}
