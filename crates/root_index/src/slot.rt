use crate::file_handle::FileHandle;
use crate::key_heads::{
    heads_and_tails, heads_cmp, heads_order, heads_side, stand_before, tail_of, tails_cmp,
};
use partial_path::{KEY_SIZE, StoredPath, key_side, keys_cmp};
use stacks_vars::{LentStack, Symbol};
use std::alloc::AllocError;
use std::cmp::Ordering;
use std::marker::Model;

/// A path from the root in an index: its file, its place among the file's paths, and the heads and tails of the symbols
/// whose texts make its key.
#[derive(Drop)]
pub(crate) struct Slot {
    file: FileHandle,
    place: usize,
    heads: [u64; 6],
    tails: [u64; 6],
}

impl Model for Slot {
    ghost use Rattle.std.specs.Prelude.{◌<◌, length, slice_get};
    ghost use Rattle.root_index.specs.{Roots.{RootPath, root_path, root_key}, Heads.{AreHeads, AreTails}};

    ghost Value = { RootPath };

    ghost view = { λ s. root_path s.file.path s.place (slice_get s.file.file.rules s.place) };

    ghost invariant = { λ s. (s.place < length s.file.file.rules)
        × AreHeads s.heads (root_key (root_path s.file.path s.place
        (slice_get s.file.file.rules s.place)))
        × AreTails s.tails (root_key (root_path s.file.path s.place
        (slice_get s.file.file.rules s.place))) };
}

impl Slot {
    ghost use Rattle.std.specs.{Prelude.{◌≡◌, ◌<◌, ◌≤◌, Some, IfOk, IsTrue, length, take, slice_get}, Cmp.Lexicographic.{slice_cmp}, Option.{is_some, option_map}, Ordering.{nat_cmp, ordering_then}};
    ghost use Rattle.version_tree.specs.Contents.{path_cmp};
    ghost use Rattle.partial_path.specs.Keys.{key_cmp, key_size, texts};
    ghost use Rattle.root_index.specs.{Roots.{root_path, root_key, rank, rank_cmp}, Inside.{IsOtherwise, key_order}};

    /// The path at that place of the file.
    pub(crate) fn of(file: FileHandle, place: usize) -> Slot
        requires { place < length file.file.rules }
        ensures { result ≡ root_path file.path place (slice_get file.file.rules place) }
    {
        let (heads, tails) = heads_and_tails(&file.paths().get().paths().at(place));
        Slot {
            file,
            place,
            heads,
            tails,
        }
    }

    /// The same path once more, not copied. The one error is want of room to count one holder more.
    pub(crate) fn share(&self) -> Result<Slot, AllocError>
        ensures { IfOk result (λ slot. slot ≡ self.now) }
    {
        Ok(Slot {
            file: self.file.share()?,
            place: self.place,
            heads: self.heads,
            tails: self.tails,
        })
    }

    /// The path of its file.
    pub(crate) fn path(&self) -> &str
        ensures { result.now ≡ self.now.path }
    {
        self.file.path()
    }

    /// The partial path itself.
    pub(crate) fn rule(&self) -> StoredPath<'_>
        ensures { self.now.rule ≡ Some result }
    {
        self.file.paths().get().paths().at(self.place)
    }

    /// The number of its file's row in the version of which its file was taken up.
    pub(crate) fn row(&self) -> u32 {
        self.file.row()
    }

    /// The heads of its symbols.
    pub(crate) fn heads(&self) -> &[u64; 6] {
        &self.heads
    }

    /// Whether the heads of its symbols stand before these.
    pub(crate) fn seems_before(&self, wanted: &[u64; 6]) -> bool {
        stand_before(&self.heads, wanted)
    }

    /// How the symbol that it asks for at that place, from 0, stands to that one: as their heads and tails tell it, and by a
    /// look at the path where they don't. None where it asks for fewer.
    pub(crate) fn text_side(&self, i: usize, wanted: &Symbol) -> Option<Ordering>
        requires { i < key_size }
        ensures { option_map (λ text. slice_cmp nat_cmp text wanted.now)
            (slice_get (root_key self.now) i) ≡ result }
    {
        let head = self.heads[i];
        if head == 0 {
            return None;
        }
        if let Some(order) = heads_cmp(head, wanted.head()) {
            return Some(order);
        }
        match tails_cmp(head, self.tails[i], tail_of(wanted)) {
            Some(order) => Some(order),
            None => text_order(&self.rule(), i, wanted),
        }
    }

    /// Whether it asks for a symbol at that place, from 0.
    pub(crate) fn asks_at(&self, i: usize) -> bool
        requires { i < key_size }
        ensures { result ≡ is_some (slice_get (root_key self.now) i) }
    {
        self.heads[i] != 0
    }

    /// Whether the heads tell that the other path doesn't ask first for what this one asks for.
    pub(crate) fn ends_before(&self, other: &Slot) -> bool
        ensures { IsTrue result → IsOtherwise (root_key self.now) (root_key other.now) }
    {
        for i in 0..KEY_SIZE {
            let head = self.heads[i];
            if head == 0 {
                return false;
            }
            if head != other.heads[i] {
                return true;
            }
        }
        false
    }

    /// How its key stands to the texts of the stack's first symbols, so many of them: as the heads and tails of its symbols
    /// tell it, and by a look at the path where they don't.
    pub(crate) fn key_side(&self, symbols: &LentStack<'_>, count: usize) -> Ordering
        requires { count ≤ key_size }
        ensures { result ≡ key_order (take count (texts symbols.now)) self.now }
    {
        match heads_side(&self.heads, &self.tails, symbols, count) {
            Some(order) => order,
            None => key_side(&self.rule(), symbols, count),
        }
    }

    /// How it stands to another: by key, then by file, and then by place.
    pub(crate) fn order(&self, other: &Slot) -> Ordering
        ensures { result ≡ rank_cmp (rank self.now) (rank other.now) }
    {
        match self.order_of_keys(other) {
            Ordering::Less => Ordering::Less,
            Ordering::Equal => self.order_in_key(other),
            Ordering::Greater => Ordering::Greater,
        }
    }

    /// How its key stands to another's: as the heads of their symbols tell it, and by a look at both paths where
    /// they don't.
    fn order_of_keys(&self, other: &Slot) -> Ordering
        ensures { result ≡ key_cmp (root_key self.now) (root_key other.now) }
    {
        match heads_order(&self.heads, &other.heads) {
            Some(order) => order,
            None => keys_cmp(&self.rule(), &other.rule()),
        }
    }

    /// How it stands to another of the same key.
    fn order_in_key(&self, other: &Slot) -> Ordering
        ensures { result
            ≡ ordering_then (path_cmp self.now.path other.now.path)
            (nat_cmp self.now.place other.now.place) }
    {
        match self.path().as_bytes().cmp(other.path().as_bytes()) {
            Ordering::Less => Ordering::Less,
            Ordering::Equal => self.place.cmp(&other.place),
            Ordering::Greater => Ordering::Greater,
        }
    }
}

ghost use Rattle.std.specs.{Prelude.{◌≡◌, ◌<◌, slice_get}, Cmp.Lexicographic.{slice_cmp}, Option.{option_map}, Ordering.{nat_cmp}};
ghost use Rattle.partial_path.specs.Keys.{key, key_size};

/// How the symbol that the path asks for at that place, from 0, stands to that one; None where it asks for fewer.
fn text_order(path: &StoredPath<'_>, i: usize, wanted: &Symbol) -> Option<Ordering>
    requires { i < key_size }
    ensures { option_map (λ text. slice_cmp nat_cmp text wanted.now)
        (slice_get (key path.now) i) ≡ result }
{
    match path.asked().get(i) {
        Some(pat) => Some(pat.symbol.order(wanted)),
        None => None,
    }
}
