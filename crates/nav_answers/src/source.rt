//! Where the stored paths of the files that a user sees are looked for: in one file, or among those from the root.

ghost use Rattle.std.specs.Prelude.{◌≡◌, [], ◌∷◌, slice_get, option_copied, MatchOption, IsPermutation};
ghost use Rattle.partial_path.specs.Sources.{rules_from, rules_offered};
ghost use Rattle.root_index.specs.{Offers.{files_of}, Roots.{IsIndexOfView, root}};
ghost use Rattle.root_index.specs.Offers as roots;
ghost use Rattle.nav_answers.specs.Sources.{offers_left};

use crate::in_file::{next_inside, offers_inside, path_inside};
use crate::viewed::{FileTable, are_sources};
use end_index::file_in;
use partial_path::{FilePaths, ListOffers, PathSource, Spot, Start, StoredPath};
use root_index::{RootIndex, RootOffers, SeenFiles};
use stacks_vars::{LentStack, NodeAt, Symbol};
use std::alloc::{AllocError, Global};
use std::marker::Model;
use version_tree::View;

/// Where a look-up stands: in one file, or among the paths from the root.
#[derive(Clone, Copy, Debug)]
pub enum ViewOffers {
    Inside(ListOffers),
    Roots(RootOffers),
}

/// What is made once for many look-ups in what a user sees: the number of its file for each path from the root, and the
/// files by their numbers.
#[derive(Drop)]
pub struct ForMany {
    numbers: SeenFiles,
    table: FileTable,
}

impl ForMany {
    ghost use Rattle.std.specs.Prelude.{IfOk};
    ghost use Rattle.root_index.specs.Roots.{IsIndexOfView};
    ghost use Rattle.nav_answers.specs.Sources.{IsForMany};

    /// What serves look-ups in the view; the one error is want of memory, of four bytes for each path from the root and
    /// eight for each file.
    pub fn of(alloc: Global, view: &View, index: &RootIndex) -> Result<ForMany, AllocError>
        ensures { IfOk result (IsForMany view.now index.now) }
    {
        Ok(ForMany {
            numbers: index.seen_files(alloc, view)?,
            table: FileTable::of(alloc, view)?,
        })
    }
}

/// The stored paths of the files that a user sees: those of a file are found in the file's own order, those from the
/// root by the index of the version, and the numbers of their files by a table where there is one.
#[derive(Drop)]
pub struct ViewSource<'a> {
    view: &'a View,
    index: &'a RootIndex,
    many: Option<&'a ForMany>,
}

impl<'a> Model for ViewSource<'a> {
    ghost use Rattle.std.specs.Prelude.{IfSome};
    ghost use Rattle.root_index.specs.Roots.{IsIndexOfView};
    ghost use Rattle.nav_answers.specs.Sources.{IsForMany, Seen, seen_of};

    ghost Value = { Seen };

    ghost view = { λ s. seen_of s.view.now s.index.now };

    ghost invariant = { λ s. IsIndexOfView s.index.now s.view.now
        × IfSome s.many (λ many. IsForMany s.view.now s.index.now many.now) };
}

impl<'a> ViewSource<'a> {
    ghost use Rattle.std.specs.Prelude.{◌≡◌, ◌<◌, ◌^◌, All, IfSome, option_copied, slice_get};
    ghost use Rattle.partial_path.specs.Sources.{IsSourceFile};
    ghost use Rattle.root_index.specs.{Offers.{files_of}, Roots.{IsIndexOfView}};
    ghost use Rattle.nav_answers.specs.Sources.{IsForMany, seen_of};

    /// What is seen, with the index of its version.
    pub fn of(view: &'a View, index: &'a RootIndex) -> ViewSource<'a>
        requires { IsIndexOfView index.now view.now }
        ensures { result ≡ seen_of view.now index.now }
    {
        ViewSource::with(view, index, None)
    }

    /// The same, with what was made once for many look-ups, where it was.
    pub fn with(view: &'a View, index: &'a RootIndex, many: Option<&'a ForMany>) -> ViewSource<'a>
        requires index { IsIndexOfView index.now view.now }
        requires many { IfSome many (λ many. IsForMany view.now index.now many.now) }
        ensures { result ≡ seen_of view.now index.now }
    {
        ViewSource { view, index, many }
    }

    /// The files that are seen.
    pub fn view(&self) -> &'a View
        ensures { result.now ≡ self.now.rows }
    {
        self.view
    }

    /// Tells that each file is a checked graph with its path set, which the view says.
    pub fn are_sources(&self)
        ensures { All IsSourceFile (files_of self.now.rows) }
    {
        are_sources(self.view);
    }

    /// The paths of the file with that number; None where there is none.
    pub fn file(&self, file: usize) -> Option<&'a FilePaths>
        ensures value { option_copied result ≡ slice_get (files_of self.now.rows) file }
        ensures small { IfSome result (λ _. file < 2 ^ 32) }
    {
        match self.many {
            Some(many) => many.table.file(file),
            None => file_in(self.view, file),
        }
    }
}

impl<'a> PathSource for ViewSource<'a> {
    ghost use Rattle.partial_path.specs.Sources.{rules_from};
    ghost use Rattle.root_index.specs.Offers.{files_of};
    ghost use Rattle.nav_answers.specs.Sources.{offers_left};

    ghost files = { λ s. files_of s.rows };

    ghost listed = { λ s start first. rules_from (files_of s.rows) start first };

    fn path_from(
        &self,
        start: &Start,
        first: Option<&Symbol>,
        k: usize,
    ) -> Option<(u32, StoredPath<'_>)> {
        are_sources(self.view);
        path_at(self, *start, first, k)
    }

    type Offers = ViewOffers;

    ghost offered = { λ s symbols at. offers_left s symbols at };

    fn offers(&self, start: &Start, symbols: &LentStack<'_>) -> ViewOffers {
        are_sources(self.view);
        offers_from(self, *start, symbols)
    }

    fn next_offer(
        &self,
        symbols: &LentStack<'_>,
        at: ViewOffers,
    ) -> Option<(u32, StoredPath<'_>, ViewOffers)> {
        match at {
            ViewOffers::Inside(at) => match next_inside(self, symbols, at) {
                Some((file, path, after)) => Some((file, path, ViewOffers::Inside(after))),
                None => None,
            },
            ViewOffers::Roots(at) => match next_root(self, symbols, at) {
                Some((file, path, after)) => Some((file, path, ViewOffers::Roots(after))),
                None => None,
            },
        }
    }

    fn is_reference(&self, at: &NodeAt) -> bool {
        match self.file(at.file as usize) {
            Some(file) => file.is_reference(at.node),
            None => false,
        }
    }

    fn is_cut(&self, at: &NodeAt) -> bool {
        match self.file(at.file as usize) {
            Some(file) => file.is_cut(at.node),
            None => false,
        }
    }

    fn is_definition(&self, at: &NodeAt) -> bool {
        match self.file(at.file as usize) {
            Some(file) => file.is_definition(at.node),
            None => false,
        }
    }
}

/// The path at place `k` of those that begin at the start and can be met with that symbol in front.
fn path_at<'a>(
    source: &ViewSource<'a>,
    start: Start,
    first: Option<&Symbol>,
    k: usize,
) -> Option<(u32, StoredPath<'a>)>
    ensures { result
        ≡ slice_get (rules_from (files_of source.now.rows) start (option_copied first.entry)) k }
{
    match start {
        Start::Before(node) => path_inside(source, start, node, first, k),
        Start::After(Spot::At(node)) => path_inside(source, start, node, first, k),
        Start::After(Spot::Root) => path_of_root(source.view, source.index, first, k),
    }
}

/// The same at the root, which all files share.
fn path_of_root<'a>(
    view: &'a View,
    index: &RootIndex,
    first: Option<&Symbol>,
    k: usize,
) -> Option<(u32, StoredPath<'a>)>
    requires { IsIndexOfView index.now view.now }
    ensures { result
        ≡ slice_get (rules_from (files_of view.now) root (option_copied first.entry)) k }
{
    let mut left = k;
    let mut at = index.look(first, view);
    while let Some(found) = index.next_path(first, view, at) {
        if left == 0 {
            return Some((found.0, found.1.again()));
        }
        left -= 1;
        at = found.2;
    }
    None
}

/// Before the first path that is offered at the start.
fn offers_from(source: &ViewSource<'_>, start: Start, symbols: &LentStack<'_>) -> ViewOffers
    ensures { IsPermutation (rules_offered (files_of source.now.rows) start symbols.now)
        (offers_left source.now symbols.now result) }
{
    match start {
        Start::Before(node) => ViewOffers::Inside(offers_inside(source, start, node, symbols)),
        Start::After(Spot::At(node)) => {
            ViewOffers::Inside(offers_inside(source, start, node, symbols))
        }
        Start::After(Spot::Root) => ViewOffers::Roots(source.index.offers(source.view, symbols)),
    }
}

/// The path that comes next in a look-up among the paths from the root, with its file's number, and where the look-up
/// stands after it: by the numbers of the files where these were found.
fn next_root<'a>(
    source: &ViewSource<'a>,
    symbols: &LentStack<'_>,
    at: RootOffers,
) -> Option<(u32, StoredPath<'a>, RootOffers)>
    ensures { MatchOption result
        (roots.offers_left at symbols.now source.now.rows source.now.paths ≡ [])
        (λ found. roots.offers_left at symbols.now source.now.rows source.now.paths
        ≡ (found.0, found.1)
        ∷ roots.offers_left found.2 symbols.now source.now.rows source.now.paths) }
{
    let index = source.index;
    match source.many {
        Some(many) => index.next_offer_by(&many.numbers, source.view, symbols, at),
        None => index.next_offer(source.view, symbols, at),
    }
}
