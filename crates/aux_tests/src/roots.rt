//! What no clause says: that an index is made and amended with memory at hand, and what it offers then.
ghost use Rattle.root_index.specs.Roots.{IsIndexOf};

use crate::paths::paths_of;
use aux_graph_text::stacks_of;
use partial_path::{Spot, Start, StoredPath};
use root_index::RootIndex;
use stacks_vars::LentStack;
use std::alloc::Global;
use std::marker::Model;
use std::test::Fail;
use version_tree::{Edit, PathText, UserText, Version};

/// The graphs that files have, by a digit.
const GRAPHS: [&str; 5] = [
    "scope",
    "pop a; push b | root>0, 0>1, 1>root",
    "pop b; pop x D | root>0, 0>1",
    "pop a; pop b; pop c D; push d | root>0, 0>1, 1>2, 1>3, 3>root",
    "push e; pop a D; pop a; pop b; pop c; pop d; pop e; pop f; pop g D | root>0, 0>root, root>1, root>2, 2>3, 3>4, 4>5, 5>6, 6>7, 7>8",
];

/// Stacks that are met with in them, and others.
const STACKS: [&str; 8] = [
    "|", "a|", "b|", "bx|", "abc|", "abcdefg|", "abcdefz|", "zzz|",
];

/// No look-up here gives so many paths.
const PATHS: u32 = 10_000;

/// Puts a file with the graph of that digit at the path.
fn put(alloc: Global, path: &str, digit: usize) -> Result<Edit, Fail> {
    let graph = GRAPHS.get(digit).copied().unwrap_or("scope");
    let path = PathText::of(alloc, path)?;
    let paths = paths_of(alloc, graph)?;
    Ok(Edit::Put { path, paths })
}

/// The edit that a word stands for: `PATH=DIGIT` puts a file with the graph of that digit, `!PATH` grants ann
/// what is under the path, and `PATH` alone removes the file.
fn edit_of(alloc: Global, word: &str) -> Result<Edit, Fail> {
    if let Some((path, digit)) = word.split_once('=') {
        return put(alloc, path, digit.parse()?);
    }
    if let Some(prefix) = word.strip_prefix('!') {
        let user = UserText::of(alloc, "ann")?;
        let prefix = PathText::of(alloc, prefix)?;
        return Ok(Edit::Grant { user, prefix });
    }
    let path = PathText::of(alloc, word)?;
    Ok(Edit::Remove { path })
}

/// Puts the numbered files from the first on, below the end, each with the graph of a digit of its number, or, as
/// in `0..100=3`, all with that of one digit.
fn push_numbered(
    alloc: Global,
    edits: &mut Vec<Edit>,
    first: &str,
    rest: &str,
) -> Result<(), Fail> {
    let (end, digit) = rest.split_once('=').unwrap_or((rest, ""));
    let (first, end): (usize, usize) = (first.parse()?, end.parse()?);
    for number in first..end {
        let path = format!(in alloc; "f{number:03}")?;
        edits.push(put(alloc, path.as_str(), digit.parse().unwrap_or(number % 5))?)?;
    }
    Ok(())
}

/// The edits that the words of a line stand for; `190..290` puts numbered files.
fn edits_of(alloc: Global, line: &str) -> Result<Vec<Edit>, Fail> {
    let mut edits = Vec::new(alloc);
    for word in line.split(' ') {
        match word.split_once("..") {
            Some((first, rest)) => push_numbered(alloc, &mut edits, first, rest)?,
            None => edits.push(edit_of(alloc, word)?)?,
        }
    }
    Ok(edits)
}

/// A path that is offered, by its file's number in the view and by how many symbols it asks for, and how
/// many edges it stands for.
fn told(file: u32, path: &StoredPath<'_>) -> (u32, usize, usize) {
    (file, path.asked().len(), path.edge_numbers().len())
}

/// What the index offers to the user and the stack, by file.
fn offered(
    alloc: Global,
    index: &RootIndex,
    version: &Version,
    user: &str,
    symbols: &LentStack<'_>,
) -> Result<Vec<(u32, usize, usize)>, Fail>
    requires { IsIndexOf version.now.content.rows index.now }
{
    let view = version.view(alloc, user)?;
    let mut found = Vec::new(alloc);
    let mut at = index.offers(&view, symbols);
    for _ in 0..PATHS {
        let Some(next) = index.next_offer(&view, symbols, at) else {
            break;
        };
        at = next.2;
        found.push(told(next.0, &next.1))?;
    }
    found.sort_unstable();
    Ok(found)
}

/// Whether the texts of the first six symbols that the path asks for are those of the stack's first ones.
fn stands_first(path: &StoredPath<'_>, symbols: &LentStack<'_>) -> bool {
    let asked = path.asked();
    let items = symbols.reversed();
    for i in 0..asked.len().min(6) {
        if i >= items.len() {
            return false;
        }
        if !asked[i].symbol.same(items[items.len() - 1 - i].symbol()) {
            return false;
        }
    }
    true
}

/// The same, found by going over all paths of all files that the user sees.
fn filtered(
    alloc: Global,
    version: &Version,
    user: &str,
    symbols: &LentStack<'_>,
) -> Result<Vec<(u32, usize, usize)>, Fail> {
    let view = version.view(alloc, user)?;
    let mut found = Vec::new(alloc);
    for file in 0..view.row_count() {
        let paths = view.paths(file).get().paths();
        for place in 0..paths.len() {
            let path = paths.at(place);
            if path.start() == Start::After(Spot::Root) && stands_first(&path, symbols) {
                found.push(told(file, &path))?;
            }
        }
    }
    found.sort_unstable();
    Ok(found)
}

/// Whether the index offers to both users and each stack what a filter over all paths keeps.
fn is_right(alloc: Global, index: &RootIndex, version: &Version) -> Result<bool, Fail>
    requires { IsIndexOf version.now.content.rows index.now }
{
    for text in &STACKS {
        let stacks = stacks_of(alloc, text)?;
        let symbols = LentStack::lending(alloc, &stacks.symbols)?;
        for user in &["operator", "ann"] {
            let found = offered(alloc, index, version, user, &symbols)?;
            if found.as_slice() != filtered(alloc, version, user, &symbols)?.as_slice() {
                return Ok(false);
            }
        }
    }
    Ok(true)
}

/// A version and its index.
#[derive(Drop)]
struct Kept {
    version: Version,
    index: RootIndex,
}

impl Model for Kept {
    ghost use Rattle.version_tree.specs.Contents.{Content};
    ghost use Rattle.root_index.specs.Roots.{IsIndexOf};

    ghost Value = { Content };

    ghost view = { λ k. k.version.content };

    ghost invariant = { λ k. IsIndexOf k.version.content.rows k.index };
}

impl Kept {
    /// The version that holds nothing.
    fn new(alloc: Global) -> Kept {
        Kept {
            version: Version::empty(alloc, 0),
            index: RootIndex::empty(alloc),
        }
    }

    /// The version that the edits make of this one, with its index.
    fn amended(self, alloc: Global, edits: &[Edit]) -> Result<Kept, Fail> {
        let version = self.version.amend(alloc, edits)?;
        let index = self.index.amended(alloc, &self.version, &version, edits)?;
        Ok(Kept { version, index })
    }

    /// Whether the index, and the one made afresh, offer what they have to.
    fn is_right(&self, alloc: Global) -> Result<bool, Fail> {
        let afresh = RootIndex::afresh(alloc, &self.version)?;
        let right = is_right(alloc, &self.index, &self.version)?;
        Ok(right && is_right(alloc, &afresh, &self.version)?)
    }
}

/// How many lines of edits, from nothing on, are followed by indexes that offer what they have to.
fn right_steps(alloc: Global, lines: &str) -> Result<u32, Fail> {
    let mut kept = Kept::new(alloc);
    let mut right: u32 = 0;
    for line in lines.split('\n') {
        let edits = edits_of(alloc, line)?;
        kept = kept.amended(alloc, edits.as_slice())?;
        right = right.saturating_add(kept.is_right(alloc)? as u32);
    }
    Ok(right)
}

/// Edits of few files: put, removed, put again with other symbols, granted between.
const EDITS: &str = "lib/a=1 lib/b=2
lib/c=3
!lib app/d=4
lib/a=3
lib/b
lib/a=0 lib/b=4
app/d lib/e=1 lib/f=2";

/// Many files, and then small steps: one file is put with another graph, and at each second one another is removed,
/// if it is there.
const STEPS: &str = "0..200
f000=1
f037=2 f063
f074=3
f111=4 f167
f148=1
f185=2 f071
f022=3
f059=4 f175
f096=1
f133=2 f079
f170=3
f007=4 f183
f044=1
f081=2 f087
f118=3
f155=4 f191
f192=1
f029=2 f095
f066=3
f103=4 f199
f140=1
f177=2 f103
f014=3
f051=4 f007
f088=1
f125=2 f111
f162=3
f199=4 f015
f036=1
f073=2 f119
f110=3
f147=4 f023
f184=1
f021=2 f127
f058=3
f095=4 f031
f132=1
f169=2 f135
f006=3
f043=4 f039
f080=1
f117=2 f143
f154=3
f191=4 f047
f028=1
f065=2 f151
f102=3
f139=4 f055
f176=1
f013=2 f159";

/// Large commits of a version of 200 files: one that names few of the files that are there, one that names many, and
/// one of more edits than are sorted behind the old paths.
const LARGE: &str = "0..200
190..290 f000 f010 f020 f030 f040 f050 f060 f070 f080 f090
0..100=3
0..600";

#[test]
fn amended_indexes_offer_what_a_filter_keeps(rt: HostRuntime) -> Result<(), Fail> {
    for (lines, count) in [(EDITS, 7), (STEPS, 51), (LARGE, 4)] {
        assert_eq!(rt; right_steps(rt.alloc(), lines)?, count);
    }
    Ok(())
}
