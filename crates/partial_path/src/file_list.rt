//! The path sets of a list of files as a source of paths, and what they offer to a symbol stack.

use crate::config::Spot;
use crate::file_paths::FilePaths;
use crate::list_paths::path_of;
use crate::offers::FileOffers;
use crate::rule::Start;
use crate::source::PathSource;
use crate::stored::StoredPath;
use stacks_vars::{LentStack, NodeAt, Symbol};
use std::alloc::{AllocError, Global};
use std::marker::Model;

/// Where a look-up in a list of files stands.
#[derive(Clone, Copy, Debug)]
pub struct ListOffers {
    /// The number of the file.
    pub file: usize,
    /// Where it stands there.
    pub inside: FileOffers,
}

/// The path sets of a list of files, each file's found by halving. A contract sees the list.
#[derive(Debug, Drop)]
pub struct FileList {
    files: Vec<FilePaths>,
}

impl Model for FileList {
    ghost use Rattle.std.specs.Prelude.{List};
    ghost use Rattle.partial_path.specs.{PathSets.{FileRules}, Inside.{AreStored}};

    ghost Value = { List FileRules };

    ghost view = { λ l. l.files.items };

    ghost invariant = { λ l. AreStored l.files.items };
}

impl FileList {
    ghost use Rattle.std.specs.Prelude.{◌≡◌, ◌<◌, ◌≤◌, ◌^◌, [], ◌∷◌, ◌++◌, length, All, IfOk, OnErr};
    ghost use Rattle.partial_path.specs.Sources.{IsSourceFile};

    /// No files. It takes no memory.
    pub fn new(alloc: Global) -> FileList
        ensures { result ≡ [] }
    {
        FileList {
            files: Vec::new(alloc),
        }
    }

    /// How many files it has.
    pub fn len(&self) -> usize
        ensures { result ≡ length self.now }
    {
        self.files.len()
    }

    /// The path sets, each at the place of its file's number.
    pub fn as_slice(&self) -> &[FilePaths]
        ensures value { result.now ≡ self.now }
        ensures sets { All IsSourceFile self.now }
        ensures few { length self.now ≤ 2 ^ 32 }
    {
        self.files.as_slice()
    }

    /// Puts the file last; the one error is want of memory, and leaves the list as it was.
    pub fn push(&mut self, file: FilePaths) -> Result<(), AllocError>
        requires { length self.old < 2 ^ 32 }
        ensures ok { IfOk result (λ _. self.new ≡ self.old ++ file ∷ []) }
        ensures err { OnErr result (self.new ≡ self.old) }
    {
        let _nodes = file.node_count();
        self.files.push(file)?;
        Ok(())
    }
}

impl PathSource for FileList {
    ghost use Rattle.partial_path.specs.{Sources.{rules_from}, Offers.{list_offers_left}};

    ghost files = { λ l. l };

    ghost listed = { λ l start first. rules_from l start first };

    fn path_from(
        &self,
        start: &Start,
        first: Option<&Symbol>,
        k: usize,
    ) -> Option<(u32, StoredPath<'_>)> {
        path_of(self.files.as_slice(), *start, first, k)
    }

    type Offers = ListOffers;

    ghost offered = { λ l symbols at. list_offers_left l symbols at };

    fn offers(&self, start: &Start, _symbols: &LentStack<'_>) -> ListOffers {
        // The files' facts are known once they are looked at.
        let _count = self.files.len();
        offers_from(*start)
    }

    fn next_offer(
        &self,
        symbols: &LentStack<'_>,
        at: ListOffers,
    ) -> Option<(u32, StoredPath<'_>, ListOffers)> {
        offer_of(self.files.as_slice(), symbols, at)
    }

    fn is_reference(&self, at: &NodeAt) -> bool {
        match self.files.get(at.file as usize) {
            Some(file) => file.is_reference(at.node),
            None => false,
        }
    }

    fn is_cut(&self, at: &NodeAt) -> bool {
        self.files[at.file as usize].is_cut(at.node)
    }

    fn is_definition(&self, at: &NodeAt) -> bool {
        self.files[at.file as usize].is_definition(at.node)
    }
}

ghost use Rattle.std.specs.Prelude.{◌≡◌, ◌≤◌, ◌^◌, List, [], ◌∷◌, length, IfSome, MatchOption, All};
ghost use Rattle.stacks_vars.specs.declared.items.SymbolItem.{SymbolItem};
ghost use Rattle.partial_path.specs.{PathSets.{FileRules}, Spots.{node_at}, Inside.{file_of, start_inside}, Offers.{is_shared, list_offers_left, offers_behind, offers_here}, Sources.{IsSourceFile, rules_offered}};

/// Before the first path that the files offer at the start: at a start of one file in that file, at the root
/// in the first.
fn offers_from(start: Start) -> ListOffers
    ensures { (files : List FileRules) (symbols : List SymbolItem) → All IsSourceFile files
        → list_offers_left files symbols result ≡ rules_offered files start symbols }
{
    let (file, start) = in_its_file(start);
    ListOffers {
        file,
        inside: FileOffers::at(start),
    }
}

/// The number of the file that the start is in, 0 for the root, and the start by that file's own numbers.
fn in_its_file(start: Start) -> (usize, Start)
    ensures file { result.0 ≡ file_of start }
    ensures start { result.1 ≡ start_inside start }
{
    match start {
        Start::Before(node) => (node.file as usize, Start::Before(in_file_0(node))),
        Start::After(Spot::At(node)) => (
            node.file as usize,
            Start::After(Spot::At(in_file_0(node))),
        ),
        Start::After(Spot::Root) => (0, Start::After(Spot::Root)),
    }
}

/// The node at the same position of file 0.
fn in_file_0(node: NodeAt) -> NodeAt
    ensures { result ≡ node_at 0 node.node }
{
    NodeAt {
        file: 0,
        node: node.node,
    }
}

/// The path that comes next among those that the files offer, with its file's number, and where the look-up
/// stands after it.
fn offer_of<'a>(
    files: &'a [FilePaths],
    symbols: &LentStack<'_>,
    at: ListOffers,
) -> Option<(u32, StoredPath<'a>, ListOffers)>
    requires { length files.now ≤ 2 ^ 32 }
    ensures { MatchOption result (list_offers_left files.now symbols.now at ≡ [])
        (λ found. list_offers_left files.now symbols.now at
        ≡ (found.0, found.1) ∷ list_offers_left files.now symbols.now found.2) }
{
    match offer_here(files, symbols, at) {
        Some(found) => Some(found),
        None => offer_behind(files, symbols, at),
    }
}

/// The same of the file where the look-up stands alone.
fn offer_here<'a>(
    files: &'a [FilePaths],
    symbols: &LentStack<'_>,
    at: ListOffers,
) -> Option<(u32, StoredPath<'a>, ListOffers)>
    requires { length files.now ≤ 2 ^ 32 }
    ensures next { MatchOption result (offers_here files.now symbols.now at ≡ [])
        (λ found. offers_here files.now symbols.now at
        ≡ (found.0, found.1) ∷ offers_here files.now symbols.now found.2) }
    ensures start { IfSome result (λ found. found.2.inside.start ≡ at.inside.start) }
    ensures file { IfSome result (λ found. found.2.file ≡ at.file) }
{
    let file = files.get(at.file)?;
    match file.next_offer(symbols, at.inside) {
        Some((path, inside)) => {
            let after = ListOffers {
                file: at.file,
                inside,
            };
            Some((at.file as u32, path, after))
        }
        None => None,
    }
}

/// The same of the files behind that one.
fn offer_behind<'a>(
    files: &'a [FilePaths],
    symbols: &LentStack<'_>,
    at: ListOffers,
) -> Option<(u32, StoredPath<'a>, ListOffers)>
    requires { length files.now ≤ 2 ^ 32 }
    ensures { MatchOption result (offers_behind files.now symbols.now at ≡ [])
        (λ found. offers_behind files.now symbols.now at
        ≡ (found.0, found.1) ∷ list_offers_left files.now symbols.now found.2) }
{
    let start = at.inside.start;
    if !is_shared(start) {
        return None;
    }
    if at.file >= files.len() {
        return None;
    }
    for file in at.file + 1..files.len() {
        let inside = FileOffers::at(start);
        if let Some(found) = offer_here(files, symbols, ListOffers { file, inside }) {
            return Some(found);
        }
    }
    None
}

/// Whether paths of more than one file can have the start: whether it is the root.
fn is_shared(start: Start) -> bool
    ensures { result ≡ is_shared start }
{
    match start {
        Start::Before(_) => false,
        Start::After(Spot::Root) => true,
        Start::After(Spot::At(_)) => false,
    }
}
