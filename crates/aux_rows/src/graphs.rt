//! Lines that ask the graphs of short texts, and words with the command that they are.
use crate::answers::{list_of, searched, stitched};
use crate::counts::Tally;
use crate::row::{number, sides, words_of};
use crate::sessions::written;
use crate::texts::quoted_graph;
use aux_graph_text::{TextFault, files_of};
use graph_json::print_graph;
use graph_nodes::FileGraph;
use nav_serve::command_of;
use partial_path::Bounds;
use stacks_vars::NodeAt;
use std::alloc::{AllocError, Global};
use std::sync::Wait;
use std::thread::Threads;

/// Whether the paths of each file can be stored, or one is too heavy.
#[derive(Clone, Copy, PartialEq, Eq)]
pub enum Stored {
    Light,
    Heavy,
}

/// The reply to a commit whose first file is too heavy, and to a query for it.
const HEAVY: &str =
    "{\"error\":\"bad_file\",\"fault\":\"heavy\",\"path\":\"f0.sg.json\",\"weight\":1000001}\n{\"error\":\"no_file\"}";

/// The reference that a line asks.
const FIRST: NodeAt = NodeAt { file: 0, node: 0 };

/// What a line such as `GRAPHS within 6 edges 3 symbols` asks.
#[derive(Drop)]
struct Question<'a> {
    graphs: &'a str,
    bounds: Bounds,
    /// The same bounds as members of a query; empty where none are stated.
    stated: String,
}

/// The question of a text.
fn question_of(alloc: Global, text: &str) -> Result<Question<'_>, TextFault> {
    let Some((graphs, rest)) = text.split_once(" within ") else {
        return Ok(Question {
            graphs: text,
            bounds: Bounds::usual(),
            stated: String::new(alloc),
        });
    };
    let (edges, rest) = rest.split_once(" edges ").unwrap_or((rest, ""));
    let depth = rest.strip_suffix(" symbols").unwrap_or("");
    Ok(Question {
        graphs,
        bounds: Bounds {
            edges: number(edges)?,
            depth: number(depth)?,
        },
        stated: format!(in alloc; ",\"edges\":{edges},\"depth\":{depth}")?,
    })
}

/// The lines of a session in which the operator commits the graphs, as `f0.sg.json` and so on.
pub fn committing(alloc: Global, files: &[FileGraph]) -> Result<Vec<u8>, AllocError> {
    let mut bytes =
        b"{\"do\":\"hello\",\"user\":\"operator\"}\n{\"do\":\"commit\",\"edits\":[".to_vec(alloc)?;
    for (file, graph) in files.iter().enumerate() {
        let comma = if file > 0 { "," } else { "" };
        let put = format!(in alloc; "{comma}{{\"put\":\"f{file}.sg.json\",\"text\":")?;
        bytes.extend_from_slice(put.as_bytes())?;
        bytes.extend_from_slice(quoted_graph(alloc, graph)?.as_slice())?;
        bytes.push(b'}')?;
    }
    bytes.extend_from_slice(b"]}\n")?;
    Ok(bytes)
}

/// The reply that an answer such as `0/1 1/0 whole` stands for, where file 1 is called `f1.sg.json`, or `once.sg.json`.
pub fn reply(alloc: Global, wanted: &str, once: bool) -> Result<String, TextFault> {
    if wanted == "crowded" {
        return Ok(String::from_str(alloc, "{\"error\":\"crowded\"}")?);
    }
    if wanted == "no reference" {
        return Ok(String::from_str(alloc, "{\"error\":\"no_reference\"}")?);
    }
    let mut rows = String::new(alloc);
    for word in wanted.split(' ') {
        if let Some((file, node)) = word.split_once('/') {
            let comma = if rows.is_empty() { "" } else { "," };
            let path = if once {
                String::from_str(alloc, "once")?
            } else {
                format!(in alloc; "f{file}")?
            };
            let row = format!(in alloc;
                "{comma}{{\"node\":{node},\"path\":\"{path}.sg.json\",\"span\":null}}"
            )?;
            rows.push_str(row.as_str())?;
        }
    }
    let limit = wanted.ends_with("limit");
    Ok(format!(in alloc; "{{\"limit\":{limit},\"rows\":[{rows}]}}")?)
}

/// Asks the graph of one file by `once`.
fn ask_once<R: Threads + Wait + Sync>(
    rt: &R,
    alloc: Global,
    name: &str,
    graph: &FileGraph,
    wanted: &str,
    tally: &mut Tally,
) -> Result<(), TextFault> {
    let mut input = print_graph(alloc, graph)?;
    input.extend_from_slice(b"\n{\"node\":0}\n")?;
    let came = written(rt, alloc, "once", &input)?;
    let reply = reply(alloc, wanted, true)?;
    let wanted = format!(in alloc; "0 {reply}\n")?;
    tally.compare(alloc, name, "by once", wanted.as_bytes(), came.as_bytes())?;
    Ok(())
}

/// Asks the graphs in a session.
fn ask_session<R: Threads + Wait + Sync>(
    rt: &R,
    alloc: Global,
    name: &str,
    files: &[FileGraph],
    stated: &str,
    replies: &str,
    tally: &mut Tally,
) -> Result<(), TextFault> {
    let mut input = committing(alloc, files)?;
    let query = format!(in alloc;
        "{{\"do\":\"define\",\"path\":\"f0.sg.json\",\"node\":0{stated}}}\n"
    )?;
    input.extend_from_slice(query.as_bytes())?;
    let came = written(rt, alloc, "run", &input)?;
    let wanted = format!(in alloc; "0 {{\"version\":0}}\n{replies}\n")?;
    tally.compare(
        alloc,
        name,
        "in a session",
        wanted.as_bytes(),
        came.as_bytes(),
    )?;
    Ok(())
}

/// Asks the graphs by stitching.
fn ask_stitched(
    alloc: Global,
    name: &str,
    question: &Question<'_>,
    files: &[FileGraph],
    wanted: &str,
    tally: &mut Tally,
) -> Result<(), TextFault> {
    let list = list_of(alloc, question.graphs)?;
    let came = stitched(alloc, files, &list, FIRST, question.bounds)?;
    tally.compare(alloc, name, "stitched", wanted.as_bytes(), came.as_bytes())?;
    Ok(())
}

/// Asks the graphs by the search, by `once` where there is one file and no bounds are stated, and in a session; and where
/// each file can be stored, by stitching.
fn ask_each<R: Threads + Wait + Sync>(
    rt: &R,
    alloc: Global,
    name: &str,
    question: &Question<'_>,
    wanted: &str,
    stored: Stored,
    tally: &mut Tally,
) -> Result<(), TextFault> {
    let files = files_of(alloc, question.graphs)?;
    let came = searched(alloc, &files, FIRST, question.bounds)?;
    tally.compare(alloc, name, "searched", wanted.as_bytes(), came.as_bytes())?;
    if let ([graph], true) = (files.as_slice(), question.stated.is_empty()) {
        ask_once(rt, alloc, name, graph, wanted, tally)?;
    }
    if stored == Stored::Heavy {
        return ask_session(rt, alloc, name, &files, "", HEAVY, tally);
    }
    ask_stitched(alloc, name, question, &files, wanted, tally)?;
    let reply = reply(alloc, wanted, false)?;
    let replies = format!(in alloc; "{{\"version\":1}}\n{reply}")?;
    let stated = question.stated.as_str();
    ask_session(rt, alloc, name, &files, stated, replies.as_str(), tally)
}

/// Asks what a text such as `GRAPHS => ANSWER` states, in each way.
pub fn graph_line<R: Threads + Wait + Sync>(
    rt: &R,
    alloc: Global,
    name: &str,
    text: &str,
    stored: Stored,
    tally: &mut Tally,
) -> Result<(), TextFault> {
    let (asked, wanted) = sides(text)?;
    let question = question_of(alloc, asked)?;
    let case = format!(in alloc; "{name}, {asked}")?;
    ask_each(rt, alloc, case.as_str(), &question, wanted, stored, tally)
}

/// Compares the command that words are with what a text such as `WORDS => COMMAND` states.
pub fn command_line(
    alloc: Global,
    name: &str,
    text: &str,
    tally: &mut Tally,
) -> Result<(), TextFault> {
    let Some((line, wanted)) = text.split_once("=> ") else {
        return Err(TextFault::Word);
    };
    let words = match line.strip_suffix(' ') {
        Some(line) => words_of(alloc, line)?,
        None => Vec::new(alloc),
    };
    let command = command_of(alloc, &words)?;
    let came = format!(in alloc; "{command:?}")?;
    tally.compare(alloc, name, line, wanted.as_bytes(), came.as_bytes())?;
    Ok(())
}
