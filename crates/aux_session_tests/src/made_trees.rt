//! What no clause says: that a made tree is committed and asked with memory at hand, and what is meant by a made tree and
//! its summary: texts that were written by hand.
ghost use Rattle.std.specs.Prelude.{◌≡◌, ◌<◌};

use aux_graph_text::files_of;
use file_paths::find_paths;
use graph_json::{print_graph, read_graph};
use graph_nodes::{FileGraph, Steps};
use nav_demo::demo;
use nav_io::MemSink;
use partial_path::{FilePaths, SharedPaths};
use std::alloc::Global;
use std::marker::Brand;
use std::sync::ledger::{Blank, Ledger};
use std::test::*;
use std::thread::Threads;
use version_board::{Commits, Pins, PlainBoard};
use version_tree::{Edit, PathText, Version};

/// What is written for the tree of so many files from this start, on this board.
fn shown_on<R: Threads + Sync, L: Ledger>(
    rt: &R,
    alloc: Global,
    files: u32,
    start: u32,
    board: &mut PlainBoard,
    blank: Blank,
) -> Result<String, Fail>
    requires name { blank.name ≡ L.name }
    requires parts { blank.parts ≡ L.parts }
    requires some { 0 < blank.parts }
{
    let mut sink = MemSink::new(alloc, 4_096, Vec::new(alloc));
    let mut steps = Steps::<L>::new(blank);
    let status = demo(rt, alloc, files, start, &mut sink, board, &mut steps);
    if status != 0 {
        return Err(Fail::new("there is no summary"));
    }
    Ok(String::from_str(alloc, str::from_utf8(sink.held())?)?)
}

/// The same with steps that are counted on a ledger of their own.
fn shown<R: Threads + Sync>(
    rt: &R,
    alloc: Global,
    files: u32,
    start: u32,
    board: &mut PlainBoard,
) -> Result<String, Fail> {
    shown_on::<R, Brand>(rt, alloc, files, start, board, Blank::new(1))
}

/// All paths of the graph.
fn paths_of(alloc: Global, graph: FileGraph) -> Result<FilePaths, Fail> {
    let mut walks = 0;
    match find_paths(alloc, graph, &mut walks) {
        Ok(paths) => Ok(paths),
        Err(_) => Err(Fail::new("there are no paths")),
    }
}

/// A tree of three files that is drawn from 0: the first file draws 0 and 0, the second 1 and 1, the third 0 and 1.
const TREE: &str =
    r#"f0000.sg.json {"edges":[["root",0,0],[1,"root",0],["root",2,0],[2,3,0],[3,"root",0]],"nodes":[{"definition":true,"kind":"pop","symbol":"d0"},{"kind":"push","reference":true,"symbol":"a0"},{"kind":"pop","symbol":"a0"},{"kind":"push","symbol":"d0"}]}
f0001.sg.json {"edges":[["root",0,0],[1,"root",0],["root",2,0],[2,3,0],[3,"root",0]],"nodes":[{"definition":true,"kind":"pop","symbol":"d1"},{"kind":"push","reference":true,"symbol":"a1"},{"kind":"pop","symbol":"a1"},{"kind":"push","symbol":"d1"}]}
f0002.sg.json {"edges":[["root",0,0],[1,"root",0],["root",2,0],[2,3,0],[3,"root",0]],"nodes":[{"definition":true,"kind":"pop","symbol":"d2"},{"kind":"push","reference":true,"symbol":"a0"},{"kind":"pop","symbol":"a2"},{"kind":"push","symbol":"d1"}]}"#;

/// As many bytes as a graph file may have.
const MOST_BYTES: usize = 1_048_576;

/// The text behind the path in `TREE`.
fn text_at(path: &str) -> &'static str {
    for row in TREE.split('\n') {
        if let Some((name, text)) = row.split_once(' ') {
            if name == path {
                return text;
            }
        }
    }
    ""
}

/// Whether the file is that of the text, node by node, edge by edge and path by path, and the text the one that is
/// printed of its graph.
fn is_of_text(alloc: Global, file: &FilePaths, text: &str) -> Result<bool, Fail> {
    let bytes = text.as_bytes();
    if bytes.len() > MOST_BYTES {
        return Ok(false);
    }
    let Ok(graph) = read_graph(alloc, bytes) else {
        return Ok(false);
    };
    let printed = print_graph(alloc, &graph)?;
    let paths = paths_of(alloc, graph)?;
    let same = format!(in alloc; "{file:?}")? == format!(in alloc; "{paths:?}")?;
    Ok(same && printed.as_slice() == bytes)
}

/// The paths of the version's files, in order, each with a blank before it; behind one whose file isn't that of its text
/// in `TREE` stands a `?`.
fn files_in(alloc: Global, version: &Version) -> Result<String, Fail> {
    let mut told = String::new(alloc);
    for place in 0..version.row_count() {
        if let Some((path, paths)) = version.row(place) {
            let mark = if is_of_text(alloc, paths.get(), text_at(path))? {
                ""
            } else {
                "?"
            };
            told.push_str(format!(in alloc; " {path}{mark}")?.as_str())?;
        }
    }
    Ok(told)
}

/// The files of the tree of so many files from this start.
fn drawn<R: Threads + Sync>(rt: &R, alloc: Global, files: u32, start: u32) -> Result<String, Fail> {
    let mut board = PlainBoard::new(alloc)?;
    shown(rt, alloc, files, start, &mut board)?;
    files_in(alloc, &board.pinned().version)
}

#[test]
fn draws_the_files(rt: HostRuntime) -> Result<(), Fail> {
    let alloc = rt.alloc();
    let all = " f0000.sg.json f0001.sg.json f0002.sg.json";
    let rows = [(3, 0, all), (3, 2_147_483_648, all), (0, 0, "")];
    for (files, start, wanted) in rows {
        let told = drawn(&rt, alloc, files, start)?;
        assert_eq!(rt; told.as_str(), wanted, "{files} from {start}");
    }
    Ok(())
}

/// The paths of a tree's files of these numbers, each with a blank behind it.
fn named<R: Threads + Sync>(rt: &R, alloc: Global, numbers: &[u32]) -> Result<String, Fail> {
    let mut board = PlainBoard::new(alloc)?;
    shown(rt, alloc, 2_048, 0, &mut board)?;
    let version = &board.pinned().version;
    let mut told = String::new(alloc);
    for n in numbers {
        if let Some((path, _)) = version.row(*n) {
            told.push_str(path)?;
            told.push(' ')?;
        }
    }
    Ok(told)
}

#[test]
fn names_files_by_four_digits(rt: HostRuntime) -> Result<(), Fail> {
    let told = named(&rt, rt.alloc(), &[0, 9, 10, 123, 2047])?;
    assert_eq!(rt;
        told.as_str(),
        "f0000.sg.json f0009.sg.json f0010.sg.json f0123.sg.json f2047.sg.json "
    );
    Ok(())
}

/// Files, between ` & ` and each with its path and, behind a colon, its graph in the form of `files_of`, that are there
/// before a tree of three files; and behind an arrow the summary of that tree when it is drawn from 0. In it the first
/// and the third file refer to `a0`, which is defined in the first, and the second to `a1`, which is defined there.
const SUMMED: &str = r#"# 1 * 1, 2 * 2 and 3 * 1.
 => {"crowded":0,"files":3,"limited":0,"references":3,"rows":3,"sum":8}
# The first reference is defined in the first and the third file, and so is the third: 1 * 1, 1 * 3, 2 * 2, 3 * 1 and 3 * 3.
x: pop a0; push d2 | root>0, 0>1, 1>root => {"crowded":0,"files":3,"limited":0,"references":3,"rows":5,"sum":20}
# The second one is crowded besides, by 91 times 91 runs.
x: pop a0; push d2 | root>0, 0>1, 1>root & y: pop a1; push b | root>0, 0>1 *91, 1>root & z: pop b; scope | root>0, 0>1 *91, 1>root => {"crowded":1,"files":3,"limited":0,"references":3,"rows":4,"sum":16}
# Paths of no file of the tree add nothing.
f0003.sg.json: pop a1 D | root>0 & f001.sg.json: pop a1 D | root>0 & f0001.sg.jsom: pop a0 D | root>0 => {"crowded":0,"files":3,"limited":0,"references":3,"rows":7,"sum":8}
# A run of the second reference that holds 49 symbols is left out.
x: pop a1; push y *49 | root>0, 0-49, 49>root => {"crowded":0,"files":3,"limited":1,"references":3,"rows":3,"sum":8}"#;

/// A board with these files.
fn board_with(alloc: Global, files: &str) -> Result<PlainBoard, Fail> {
    let mut edits = Vec::new(alloc);
    for part in files.split(" & ") {
        if let Some((path, text)) = part.split_once(": ") {
            edits.push(put(alloc, path, text)?)?;
        }
    }
    let mut board = PlainBoard::new(alloc)?;
    match board.commit(&(), alloc, None, edits.as_slice()) {
        Ok(()) => Ok(board),
        Err(_) => Err(Fail::new("the files are refused")),
    }
}

fn put(alloc: Global, path: &str, text: &str) -> Result<Edit, Fail> {
    let Some(graph) = files_of(alloc, text)?.pop() else {
        return Err(Fail::new("there is no file"));
    };
    Ok(Edit::Put {
        path: PathText::of(alloc, path)?,
        paths: SharedPaths::of(alloc, paths_of(alloc, graph)?)?,
    })
}

fn summed<R: Threads + Sync>(rt: &R, alloc: Global, files: &str) -> Result<String, Fail> {
    let mut board = board_with(alloc, files)?;
    shown(rt, alloc, 3, 0, &mut board)
}

/// The first row with another summary, with what is written; None where all rows hold.
fn first_other<R: Threads + Sync>(rt: &R, alloc: Global) -> Result<Option<String>, Fail> {
    for row in SUMMED.split('\n') {
        if row.starts_with('#') {
            continue;
        }
        let (files, wanted) = row.split_once(" => ").unwrap_or((row, "no arrow"));
        let told = summed(rt, alloc, files)?;
        if told.trim_end() != wanted {
            return Ok(Some(format!(in alloc; "{files} => {told}")?));
        }
    }
    Ok(None)
}

#[test]
fn adds_the_replies_up(rt: HostRuntime) -> Result<(), Fail> {
    assert_eq!(rt; first_other(&rt, rt.alloc())?, None);
    Ok(())
}
