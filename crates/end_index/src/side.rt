//! One of the two lists of an index: what the files tell, and the paths that this tells, in order.
use crate::place::{EndPlace, order};
use partial_path::EndMark;
use stacks_vars::Listed;
use std::alloc::{AllocError, Global};
use std::marker::Model;
use std::mem;

/// The marks of all files, by number, and the paths that they tell: shares of them, of which each is in the order of the
/// keys of what the paths make. The shares aren't put together, which takes longer than to look in each of a few.
#[derive(Drop)]
pub struct Side {
    marks: Vec<Listed<EndMark>>,
    shares: Vec<Listed<EndPlace>>,
}

impl Model for Side {
    ghost use Rattle.end_index.specs.Ends.{AreListed, SideView, side_of};

    ghost Value = { SideView };

    ghost view = { λ s. side_of s.marks.items s.shares.items };

    ghost invariant = { λ s. AreListed s.marks.items s.shares.items };
}

impl Side {
    ghost use Rattle.std.specs.Prelude.{◌≡◌, ◌<◌, ◌++◌, [], length, set, slice_get, Some, IsTrue, OnOk};
    ghost use Rattle.end_index.specs.Ends.{AreListed, IsPartAt, side_of};

    /// No file. It takes no memory.
    pub(crate) fn new(alloc: Global) -> Side
        ensures { result ≡ side_of [] [] }
    {
        Side {
            marks: Vec::new(alloc),
            shares: Vec::new(alloc),
        }
    }

    /// The paths, by shares.
    pub(crate) fn shares(&self) -> &[Listed<EndPlace>]
        ensures value { result.now ≡ self.now.shares }
        ensures listed { AreListed self.now.marks self.now.shares }
    {
        self.shares.as_slice()
    }

    /// Of how many files it has the marks.
    pub(crate) fn len(&self) -> usize
        ensures { result ≡ length self.now.marks }
    {
        self.marks.len()
    }

    /// Whether the file with that number has these marks.
    pub(crate) fn has(&self, file: u32, marks: &[EndMark]) -> bool
        requires { file < length self.now.marks }
        ensures { IsTrue result → slice_get self.now.marks file ≡ Some marks.now }
    {
        are_same(self.marks[file as usize].items(), marks)
    }

    /// Puts the files of the part behind the others. The one error is want of memory, and leaves nothing.
    pub(crate) fn add(&mut self, part: Part) -> Result<(), AllocError>
        requires { IsPartAt (length self.old.marks) part }
        ensures { OnOk result (self.new.marks ≡ self.old.marks ++ part.marks) }
    {
        let Part {
            marks: mut more,
            places,
        } = part;
        let alloc = *more.allocator();
        let Side {
            mut marks,
            mut shares,
        } = mem::replace(self, Side::new(alloc));
        marks.append(&mut more)?;
        shares.push(Listed::of(places))?;
        *self = Side { marks, shares };
        Ok(())
    }

    /// Gives the file with that number these marks. It goes over all paths; those of this file come into the last share.
    /// The one error is want of memory, and leaves nothing.
    pub(crate) fn put(
        &mut self,
        alloc: Global,
        file: u32,
        own: &[EndMark],
    ) -> Result<(), AllocError>
        requires { file < length self.old.marks }
        ensures { OnOk result (self.new.marks ≡ set self.old.marks file own.now) }
    {
        let Side { mut marks, shares } = mem::replace(self, Side::new(alloc));
        let mut shares = without(alloc, shares, file)?;
        let mut last = last_of(alloc, &mut shares);
        add_places(&mut last, own, file)?;
        sort(&mut last);
        shares.push(Listed::of(last))?;
        marks[file as usize] = Listed::of(Vec::from_slice(alloc, own)?);
        *self = Side { marks, shares };
        Ok(())
    }
}

/// Of some files that follow one another the marks, and the paths that these tell.
#[derive(Drop)]
pub struct Part {
    marks: Vec<Listed<EndMark>>,
    places: Vec<EndPlace>,
}

impl Model for Part {
    ghost use Rattle.end_index.specs.Ends.{PartView, part_of};

    ghost Value = { PartView };

    ghost view = { λ p. part_of p.marks.items p.places.items };
}

impl Part {
    ghost use Rattle.std.specs.Prelude.{◌≡◌, ◌++◌, [], ◌∷◌, map, IsPermutation, OnOk};
    ghost use Rattle.end_index.specs.{Ends.{end_place, part_of}, Runs.{AreByRank}};

    /// No file. It takes no memory.
    pub(crate) fn new(alloc: Global) -> Part
        ensures { result ≡ part_of [] [] }
    {
        Part {
            marks: Vec::new(alloc),
            places: Vec::new(alloc),
        }
    }

    /// Adds the file with that number, which has these marks. The one error is want of memory.
    pub(crate) fn add(
        &mut self,
        alloc: Global,
        marks: &[EndMark],
        file: u32,
    ) -> Result<(), AllocError>
        ensures marks { OnOk result (self.new.marks ≡ self.old.marks ++ marks.now ∷ []) }
        ensures places { OnOk result (self.new.places
            ≡ self.old.places ++ map (end_place file) marks.now) }
    {
        self.marks.push(Listed::of(Vec::from_slice(alloc, marks)?))?;
        add_places(&mut self.places, marks, file)?;
        Ok(())
    }

    /// Puts the paths in order. It takes no memory.
    pub(crate) fn sort(&mut self)
        ensures marks { self.new.marks ≡ self.old.marks }
        ensures all { IsPermutation self.old.places self.new.places }
        ensures order { AreByRank self.new.places }
    {
        sort(&mut self.places);
    }
}

ghost use Rattle.std.specs.Prelude.{◌≡◌, ◌++◌, [], ◌∷◌, map, filter, All, IsPermutation, IsTrue, IfOk, OnOk};
ghost use Rattle.end_index.specs.{Ends.{all_of, end_place, is_of_other}, Runs.{AreByRank}};

/// Whether the marks are the same.
fn are_same(one: &[EndMark], other: &[EndMark]) -> bool
    ensures { IsTrue result → one.now ≡ other.now }
{
    if one.len() != other.len() {
        return false;
    }
    for i in 0..one.len() {
        if !is_same(one[i], other[i]) {
            return false;
        }
    }
    true
}

/// Whether the two marks are the same.
fn is_same(one: EndMark, other: EndMark) -> bool
    ensures { IsTrue result → one ≡ other }
{
    one.key == other.key && one.place == other.place
}

/// Adds the paths that the marks of the file with that number tell. The one error is want of memory.
fn add_places(places: &mut Vec<EndPlace>, marks: &[EndMark], file: u32) -> Result<(), AllocError>
    ensures { OnOk result (places.new.items
        ≡ places.old.items ++ map (end_place file) marks.now) }
{
    places.reserve(marks.len())?;
    for i in 0..marks.len() {
        places.push(EndPlace {
            key: marks[i].key,
            file,
            place: marks[i].place,
        })?;
    }
    Ok(())
}

/// The shares without the paths of the file with that number. The one error is want of memory.
fn without(
    alloc: Global,
    shares: Vec<Listed<EndPlace>>,
    file: u32,
) -> Result<Vec<Listed<EndPlace>>, AllocError>
    requires { All AreByRank shares.items }
    ensures all { IfOk result
        (λ left. all_of left.items ≡ filter (is_of_other file) (all_of shares.items)) }
    ensures order { IfOk result (λ left. All AreByRank left.items) }
{
    let mut left = Vec::with_capacity(alloc, shares.len())?;
    for share in shares {
        let mut places = share.into_items();
        leave_out(&mut places, file);
        left.push(Listed::of(places))?;
    }
    Ok(left)
}

/// Lets go of the paths of the file with that number. The others stay in their order.
fn leave_out(places: &mut Vec<EndPlace>, file: u32)
    ensures { places.new.items ≡ filter (is_of_other file) places.old.items }
{
    let mut kept = 0;
    for i in 0..places.len() {
        let place = places[i];
        if place.file != file {
            places[kept] = place;
            kept += 1;
        }
    }
    places.truncate(kept);
}

/// The last of the shares, which is taken out; nothing where there is none.
fn last_of(alloc: Global, shares: &mut Vec<Listed<EndPlace>>) -> Vec<EndPlace>
    requires { All AreByRank shares.old.items }
    ensures all { all_of shares.old.items ≡ all_of shares.new.items ++ result.items }
    ensures order { All AreByRank shares.new.items }
{
    match shares.pop() {
        Some(last) => last.into_items(),
        None => Vec::new(alloc),
    }
}

/// Puts the paths in order. It takes no memory.
fn sort(places: &mut Vec<EndPlace>)
    ensures all { IsPermutation places.old.items places.new.items }
    ensures order { AreByRank places.new.items }
{
    places.sort_unstable_by(|a, b| order(a, b));
}
