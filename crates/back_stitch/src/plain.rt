//! A list of files as a source that goes over all paths at each look-up.
ghost use Rattle.std.specs.Prelude.{◌≡◌, ◌≤◌, ◌^◌, [], ◌∷◌, List, length, slice_get, filter, drop, MatchOption};
ghost use Rattle.partial_path.specs.PathSets.{FileRules};
ghost use Rattle.back_stitch.specs.{Sources.{agrees, rules_to}, Plain.{ends_in, ends_left, agreed_left}};

use crate::ending::{is_exported_in, may_end};
use crate::source::BackSource;
use partial_path::{FileList, FilePaths, Spot, StoredPath, StoredPaths};
use stacks_vars::{NodeAt, SymOut, SymPat};

/// Where a look-up that goes over all paths stands.
#[derive(Clone, Copy, Debug)]
pub struct PlainEnds {
    /// Where the paths end.
    pub spot: Spot,
    /// The number of the file that is gone over.
    pub file: usize,
    /// The place in it of the path that is looked at next.
    pub place: usize,
}

/// Each look-up goes over all paths of all files: it serves tests, and few files.
impl BackSource for FileList {
    ghost use Rattle.back_stitch.specs.{Sources.{rules_to}, Plain.{agreed_left}};

    ghost files = { λ l. l };

    ghost listed = { λ l at. rules_to l at };

    fn path_to(&self, spot: &Spot, k: usize) -> Option<(u32, StoredPath<'_>)> {
        path_of(self.as_slice(), *spot, k)
    }

    type Ends = PlainEnds;

    ghost given = { λ l symbols at. agreed_left l symbols at };

    fn ends(&self, spot: &Spot, _symbols: &[SymPat]) -> PlainEnds {
        // The files' facts are known once they are looked at.
        let _files = self.as_slice();
        first_end(*spot)
    }

    fn next_end(
        &self,
        symbols: &[SymPat],
        at: PlainEnds,
    ) -> Option<(u32, StoredPath<'_>, PlainEnds)> {
        next_agreed(self.as_slice(), symbols, at)
    }

    fn is_exported(&self, at: &NodeAt) -> bool {
        is_exported_in(self.as_slice(), *at)
    }
}

/// Before the first path that may end at the spot.
fn first_end(spot: Spot) -> PlainEnds
    ensures { (files : List FileRules) → ends_left files result ≡ rules_to files spot }
{
    PlainEnds {
        spot,
        file: 0,
        place: 0,
    }
}

/// The path at place `k` of those of the files that may end at the spot, with its file's number.
fn path_of<'a>(files: &'a [FilePaths], spot: Spot, k: usize) -> Option<(u32, StoredPath<'a>)>
    requires { length files.now ≤ 2 ^ 32 }
    ensures { result ≡ slice_get (rules_to files.now spot) k }
{
    let mut at = first_end(spot);
    let mut left = k;
    while left > 0 {
        let Some(found) = next_of(files, at) else {
            return None;
        };
        at = found.2;
        left -= 1;
    }
    match next_of(files, at) {
        Some((file, path, _)) => Some((file, path)),
        None => None,
    }
}

/// The next of the paths that make what is asked for, with its file's number, and where the look-up stands after it.
fn next_agreed<'a>(
    files: &'a [FilePaths],
    symbols: &[SymPat],
    at: PlainEnds,
) -> Option<(u32, StoredPath<'a>, PlainEnds)>
    requires { length files.now ≤ 2 ^ 32 }
    ensures { MatchOption result (agreed_left files.now symbols.now at ≡ [])
        (λ found. agreed_left files.now symbols.now at
        ≡ (found.0, found.1) ∷ agreed_left files.now symbols.now found.2) }
{
    let mut next = at;
    while let Some(found) = next_of(files, next) {
        if agrees(symbols, found.1.made()) {
            return Some(found);
        }
        next = found.2;
    }
    None
}

/// Whether the symbols that a path makes have the texts of the first of those that are asked for, one by one.
fn agrees(asked: &[SymPat], made: &[SymOut]) -> bool
    ensures { result ≡ agrees asked.now made.now }
{
    if made.len() > asked.len() {
        return false;
    }
    for place in 0..made.len() {
        if !asked[place].symbol.same(&made[place].symbol) {
            return false;
        }
    }
    true
}

/// The next of all paths that may end at the spot, with its file's number, and where the look-up stands after it.
fn next_of<'a>(files: &'a [FilePaths], at: PlainEnds) -> Option<(u32, StoredPath<'a>, PlainEnds)>
    requires { length files.now ≤ 2 ^ 32 }
    ensures { MatchOption result (ends_left files.now at ≡ [])
        (λ found. ends_left files.now at ≡ (found.0, found.1) ∷ ends_left files.now found.2) }
{
    let mut place = at.place;
    for file in at.file..files.len() {
        let paths = files[file].paths();
        if let Some((path, behind)) = next_in(files, file as u32, &paths, at.spot, place) {
            let after = PlainEnds {
                spot: at.spot,
                file,
                place: behind,
            };
            return Some((file as u32, path, after));
        }
        place = 0;
    }
    None
}

/// The first path, from that place on, of the file with that number that may end at the spot, and the place behind it.
fn next_in<'a>(
    files: &[FilePaths],
    number: u32,
    paths: &StoredPaths<'a>,
    spot: Spot,
    place: usize,
) -> Option<(StoredPath<'a>, usize)>
    ensures { MatchOption result (filter (ends_in files.now spot number) (drop place paths.now)
        ≡ []) (λ found. filter (ends_in files.now spot number) (drop place paths.now)
        ≡ found.0 ∷ filter (ends_in files.now spot number) (drop found.1 paths.now)) }
{
    for next in place..paths.len() {
        let path = paths.at(next);
        if may_end(files, number, &path, spot) {
            return Some((path, next + 1));
        }
    }
    None
}
