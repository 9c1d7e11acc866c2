//! What no clause says: what versions tell, each made from the one before it, as a script.

use crate::version_edits::{edits_of, number, numbered};
use std::alloc::Global;
use std::test::Fail;
use version_tree::{EditList, Version, View};

/// Steps, and behind an arrow what each tells.
///
/// `empty 7` begins with the empty version of that number, `commit` makes the next version, and `back` goes
/// back to the one before; they tell the last version's number, and `commit` why there is no next one.
/// `see ann` tells the paths that the user sees, `find ann a.py` the number of the file at the path for the
/// user, and `nodes ann a.py` how many nodes the file has. `row 3` tells the path at that place among all files,
/// and `at a.py` how many nodes the file at the path has, whoever may see it. `count` tells how many files there
/// are, and `stand 3 1` whether these are the first three numbered ones without that of number 1.
///
/// The edits of a commit are told of at `edits_of`.
const STEPS: &str = r"# Files stay in order through split blocks.
empty 0 => 0
commit puts 0 130 2 => 1
count => 65
commit puts 1 130 2 => 2
stand 130 130 => true
row 0 => f000.sg.json
row 64 => f064.sg.json
row 129 => f129.sg.json
row 130 => none
commit remove f064.sg.json => 3
stand 129 64 => true
find operator f064.sg.json => none
commit put f064.sg.json => 4
stand 130 130 => true
back => 3
stand 129 64 => true
back => 2
stand 130 130 => true
# Removed files leave no empty block.
empty 0 => 0
commit puts 0 70 1 => 1
commit removes 69 => 2
see operator => f069.sg.json
commit remove f069.sg.json => 3
count => 0
commit put a => 4
see operator => a
# A put replaces the file at its path.
empty 0 => 0
commit put a.py;put b.py => 1
nodes operator b.py => 0
commit one b.py => 2
nodes operator a.py => 0
nodes operator b.py => 1
at b.py => 1
at c.py => none
count => 2
back => 1
nodes operator b.py => 0
# A version has no more than 2,048 files.
empty 7 => 7
commit puts 0 2049 1 => 2049 files are too many
commit puts 0 2049 1;undeny ann lib => ann has no deny of lib
count => 0
commit puts 0 2048 1 => 8
count => 2048
commit put one => 2049 files are too many
commit put f000.sg.json => 9
commit put one;remove f000.sg.json => 10
count => 2048
find operator one => 2047
back => 9
find operator one => none
# The last number has no next.
empty 999999999 => 999999999
commit => 1000000000
commit => the versions have no more numbers
commit puts 0 2049 1 => 2049 files are too many
commit undeny ann lib => ann has no deny of lib
# Paths are named once, and removed where they are.
empty 0 => 0
commit put a.py;put b.py => 1
commit remove z.py;remove z.py => z.py is put or removed twice
commit remove z.py => there is no file z.py
commit remove z.py;remove y.py => there is no file z.py
commit remove y.py;remove z.py => there is no file y.py
commit remove b.py;remove z.py => there is no file z.py
commit remove z.py;put y.py;remove y.py;put z.py => y.py is put or removed twice
commit put c.py;remove c.py => c.py is put or removed twice
commit remove a.py;put c.py => 2
see operator => b.py c.py
# Faults have an order.
empty 999999999 => 999999999
commit revoke bob lib;grant bob lib => bob has no grant of lib
commit grant ann lib;deny ann lib;grant bob a;revoke bob a => 1000000000
commit undeny bob a;revoke bob a;remove z;remove z => z is put or removed twice
commit undeny bob a;revoke bob a;remove z => there is no file z
commit undeny bob a;revoke bob a => bob has no grant of a
commit undeny bob a;undeny bob b => bob has no deny of a
commit revoke ann lib;undeny ann lib => the versions have no more numbers
commit revoke ann lib;revoke ann lib => ann has no grant of lib
# A user sees the files that are granted, and the operator all.
empty 0 => 0
commit put library.sg.json;put lib/use.sg.json => 1
commit put app/alias.sg.json;put lib/def.sg.json => 2
commit grant ann lib;deny operator  => 3
see operator => app/alias.sg.json lib/def.sg.json lib/use.sg.json library.sg.json
see ann => lib/def.sg.json lib/use.sg.json
see bob => nothing
find ann lib/use.sg.json => 1
find ann library.sg.json => none
commit revoke ann lib => 4
see ann => nothing
# The longest prefix decides.
empty 0 => 0
commit put app/a;put lib/secret/ann/b;put lib/secret/c;put lib/secretary => 1
commit grant ann ;deny ann lib/secret;grant ann lib/secret/ann;deny bob  => 2
see ann => app/a lib/secret/ann/b lib/secretary
commit deny ann lib/secret/ann;grant bob  => 3
see ann => app/a lib/secretary
see bob => nothing
commit undeny ann lib/secret;undeny bob  => 4
see ann => app/a lib/secret/c lib/secretary
see bob => app/a lib/secret/ann/b lib/secret/c lib/secretary";

/// The paths that are seen, in order, a space between two.
fn paths_in(alloc: Global, view: &View) -> Result<String, Fail> {
    let mut all = String::new(alloc);
    for file in 0..view.row_count() {
        all.push_str(if file > 0 { " " } else { "" })?;
        all.push_str(view.path(file))?;
    }
    if all.is_empty() {
        all.push_str("nothing")?;
    }
    Ok(all)
}

/// Whether the file of that number has this path, and is found by it.
fn stands_at(view: &View, file: u32, wanted: &str) -> bool {
    file < view.row_count() && view.path(file) == wanted && view.find(wanted) == Some(file)
}

/// Whether the view has so many numbered files in their order, without the one that is left out.
fn stand_in(alloc: Global, view: &View, count: u32, left_out: usize) -> Result<bool, Fail> {
    let mut file = 0;
    for number in 0..count.max(view.row_count()) as usize + 1 {
        if number != left_out && file < count {
            if !stands_at(view, file, numbered(alloc, number)?.as_str()) {
                return Ok(false);
            }
            file += 1;
        }
    }
    Ok(file == view.row_count())
}

/// A number, or `none`.
fn told_number(alloc: Global, number: Option<u32>) -> Result<String, Fail> {
    match number {
        Some(number) => Ok(format!(in alloc; "{number}")?),
        None => Ok(String::from_str(alloc, "none")?),
    }
}

/// How many nodes the file at the path has.
fn nodes_at(view: &View, path: &str) -> Option<u32> {
    match view.find(path) {
        Some(file) if file < view.row_count() => Some(view.paths(file).get().node_count()),
        _ => None,
    }
}

/// How many nodes the file at the path has, whoever may see it.
fn all_nodes_at(version: &Version, path: &str) -> Option<u32> {
    match version.paths_at(path) {
        Some(paths) => Some(paths.get().node_count()),
        None => None,
    }
}

/// The path at the place among all files.
fn path_at(version: &Version, place: u32) -> &str {
    match version.row(place) {
        Some((path, _)) => path,
        None => "none",
    }
}

/// What a question is told of the version.
fn told_of(alloc: Global, version: &Version, verb: &str, rest: &str) -> Result<String, Fail> {
    let (first, second) = rest.split_once(' ').unwrap_or((rest, ""));
    match verb {
        "count" => told_number(alloc, Some(version.row_count())),
        "see" => paths_in(alloc, &version.view(alloc, first)?),
        "find" => told_number(alloc, version.view(alloc, first)?.find(second)),
        "nodes" => told_number(alloc, nodes_at(&version.view(alloc, first)?, second)),
        "row" => Ok(String::from_str(alloc, path_at(version, number(first)))?),
        "at" => told_number(alloc, all_nodes_at(version, first)),
        "stand" => {
            let view = version.view(alloc, "operator")?;
            let stand = stand_in(alloc, &view, number(first), number(second) as usize)?;
            Ok(format!(in alloc; "{stand}")?)
        }
        _ => Err(Fail::new("a step has no such verb")),
    }
}

/// Versions, each made from the one before it.
#[derive(Drop)]
struct History {
    versions: Vec<Version>,
}

impl History {
    fn last(&self) -> Result<&Version, Fail> {
        match self.versions.last() {
            Some(version) => Ok(version),
            None => Err(Fail::new("there is no version")),
        }
    }

    /// Makes the next version; tells its number, or why there is none.
    fn commit(&mut self, alloc: Global, text: &str) -> Result<String, Fail> {
        let edits = edits_of(alloc, text)?;
        let entry = EditList::copy(alloc, edits.as_slice())?;
        match self.last()?.amend(alloc, entry.items()) {
            Ok(version) => self.versions.push(version)?,
            Err(fault) => return Ok(format!(in alloc; "{fault}")?),
        }
        told_number(alloc, Some(self.last()?.number()))
    }

    /// What the step tells.
    fn told(&mut self, alloc: Global, step: &str) -> Result<String, Fail> {
        let (verb, rest) = step.split_once(' ').unwrap_or((step, ""));
        match verb {
            "commit" => return self.commit(alloc, rest),
            "empty" => self.versions.push(Version::empty(alloc, number(rest)))?,
            "back" => {
                if self.versions.pop().is_none() {
                    return Err(Fail::new("there is no version"));
                }
            }
            _ => return told_of(alloc, self.last()?, verb, rest),
        }
        told_number(alloc, Some(self.last()?.number()))
    }
}

/// The first step that tells something else, and what it tells; else an empty text.
fn first_wrong(alloc: Global) -> Result<String, Fail> {
    let mut history = History {
        versions: Vec::new(alloc),
    };
    for row in STEPS.split('\n') {
        let (step, wanted) = row.split_once(" => ").unwrap_or((row, "no arrow"));
        if step.starts_with('#') {
            continue;
        }
        let told = history.told(alloc, step)?;
        if told.as_str() != wanted {
            return Ok(format!(in alloc; "{row}, but {told}")?);
        }
    }
    Ok(String::new(alloc))
}

#[test]
fn versions_tell_what_the_script_says(rt: HostRuntime) -> Result<(), Fail> {
    assert_eq!(rt; first_wrong(rt.alloc())?.as_str(), "");
    Ok(())
}
