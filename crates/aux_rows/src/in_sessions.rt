//! That a session answers each reference and each definition of graphs as the search of the whole graph does, in each
//! order of their files.
use crate::answers::searched;
use crate::callers::without_flag;
use crate::counts::Tally;
use crate::graphs::{committing, reply};
use crate::orders::{in_order, order_count};
use crate::sessions::written;
use aux_graph_text::{TextFault, files_of};
use graph_nodes::FileGraph;
use partial_path::Bounds;
use stacks_vars::NodeAt;
use std::alloc::{AllocError, Global};
use std::sync::Wait;
use std::thread::Threads;

/// A session, and the replies that it is to have.
#[derive(Drop)]
struct Asked {
    input: Vec<u8>,
    replies: String,
    /// The references of the files, each with what the search answers.
    answers: Vec<(NodeAt, String)>,
}

impl Asked {
    /// Adds a query for a node, and its reply.
    fn ask(
        &mut self,
        alloc: Global,
        word: &str,
        at: NodeAt,
        reply: &str,
    ) -> Result<(), AllocError> {
        let (file, node) = (at.file, at.node);
        let line = format!(in alloc;
            "{{\"do\":\"{word}\",\"path\":\"f{file}.sg.json\",\"node\":{node}}}\n"
        )?;
        self.input.extend_from_slice(line.as_bytes())?;
        self.replies.push_str(reply)?;
        Ok(self.replies.push('\n')?)
    }
}

/// What the search answers to each reference of the files.
fn answers(alloc: Global, files: &[FileGraph]) -> Result<Vec<(NodeAt, String)>, AllocError> {
    let mut answers = Vec::new(alloc);
    for (file, graph) in (0u32..).zip(files) {
        for node in 0..graph.node_count() {
            let at = NodeAt { file, node };
            if graph.is_reference(node) {
                answers.push((at, searched(alloc, files, at, Bounds::usual())?))?;
            }
        }
    }
    Ok(answers)
}

/// The references that have a definition among their answers, in the form of an answer.
fn referring(
    alloc: Global,
    answers: &[(NodeAt, String)],
    definition: NodeAt,
) -> Result<String, AllocError> {
    let wanted = format!(in alloc; "{}/{}", definition.file, definition.node)?;
    let mut text = String::new(alloc);
    let mut limit = false;
    for (at, answer) in answers {
        limit |= answer.ends_with("limit");
        if answer.split(' ').any(|word| word == wanted.as_str()) {
            text.push_str(format!(in alloc; "{}/{} ", at.file, at.node)?.as_str())?;
        }
    }
    text.push_str(if limit { "limit" } else { "whole" })?;
    Ok(text)
}

/// Adds the queries for the references of a file that the search answers.
fn ask_references(alloc: Global, asked: &mut Asked) -> Result<(), TextFault> {
    for place in 0..asked.answers.len() {
        if let Some((at, answer)) = asked.answers.get(place) {
            let (at, reply) = (*at, reply(alloc, answer.as_str(), false)?);
            asked.ask(alloc, "define", at, reply.as_str())?;
        }
    }
    Ok(())
}

/// Adds the queries for the definitions of the files, whose references the search answers without crowding.
fn ask_definitions(alloc: Global, files: &[FileGraph], asked: &mut Asked) -> Result<(), TextFault> {
    for (file, graph) in (0u32..).zip(files) {
        for node in 0..graph.node_count() {
            if graph.is_definition(node) {
                let at = NodeAt { file, node };
                let answer = referring(alloc, &asked.answers, at)?;
                let reply = reply(alloc, answer.as_str(), false)?;
                asked.ask(alloc, "references", at, reply.as_str())?;
                asked.ask(
                    alloc,
                    "callers",
                    at,
                    without_flag(alloc, reply.as_str())?.as_str(),
                )?;
            }
        }
    }
    Ok(())
}

/// Asks each reference and each definition of the graphs, a definition by `references` and by `callers`, in each order of
/// the files.
pub fn ask_all<R: Threads + Wait + Sync>(
    rt: &R,
    alloc: Global,
    name: &str,
    text: &str,
    tally: &mut Tally,
) -> Result<(), TextFault> {
    for order in 0..order_count(text) {
        let text = in_order(alloc, text, order)?;
        ask_session(rt, alloc, name, text.as_str(), tally)?;
    }
    Ok(())
}

/// Asks each of them in a session, and compares the replies with what the search of the whole graph tells.
fn ask_session<R: Threads + Wait + Sync>(
    rt: &R,
    alloc: Global,
    name: &str,
    text: &str,
    tally: &mut Tally,
) -> Result<(), TextFault> {
    let files = files_of(alloc, text)?;
    let mut asked = Asked {
        input: committing(alloc, &files)?,
        replies: String::from_str(alloc, "0 {\"version\":0}\n{\"version\":1}\n")?,
        answers: answers(alloc, &files)?,
    };
    ask_references(alloc, &mut asked)?;
    ask_definitions(alloc, &files, &mut asked)?;
    let came = written(rt, alloc, "run", &asked.input)?;
    tally.compare(alloc, name, text, asked.replies.as_bytes(), came.as_bytes())?;
    Ok(())
}
