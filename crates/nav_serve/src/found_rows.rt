ghost use Rattle.std.specs.Prelude.{◌≡◌, [], ◌∷◌, IfOk, IfErr, OnOk, OnErr};
ghost use Rattle.partial_path.specs.{Spots.{node_at}, Step.{start}};
ghost use Rattle.nav_proto.specs.{declared.reply.Reply.TheVariants.{Plain}, declared.reply.PlainError.TheVariants.{Crowded}};
ghost use Rattle.nav_session.specs.declared.halt.Halt.TheVariants as halt;
ghost use Rattle.nav_serve.specs.Once.{AnswersFrom, answer_of, span_at};

use crate::once_input::ONCE_PATH;
use graph_nodes::{FileGraph, Span};
use nav_proto::{PlainError, Reply};
use nav_session::Halt;
use partial_path::Bounds;
use std::alloc::{AllocError, Global};
use version_tree::{Answer, PathText, Row, Rows};
use whole_search::{Found, SearchFault, is_reference, search};

/// The reply on the node of the graph, the first of these: it is no reference, it is crowded, its definitions.
/// They are those within the usual bounds, since `once` states none.
pub fn node_reply(alloc: Global, graph: FileGraph, n: u32) -> Result<Reply, Halt>
    ensures reply { IfOk result (AnswersFrom graph (start (graph ∷ []) (node_at 0 n))) }
    ensures err { IfErr result (λ reason. reason ≡ halt.NoMemory) }
{
    let files = [graph];
    if !is_reference(&files, 0, n) {
        return Ok(Reply::Plain(PlainError::NoReference));
    }
    match search(alloc, &files, 0, n, Bounds::usual()) {
        Ok(found) => Ok(Reply::Rows(answer_of(alloc, &files[0], found)?)),
        Err(fault) => refused_by(fault),
    }
}

/// The reply where the search has this fault.
fn refused_by(fault: SearchFault) -> Result<Reply, Halt>
    ensures reply { IfOk result (λ reply. reply ≡ Plain Crowded) }
    ensures crowded { OnOk result (fault ≡ SearchFault.Crowded) }
    ensures err { IfErr result (λ reason. reason ≡ halt.NoMemory) }
    ensures memory { OnErr result (fault ≡ SearchFault.NoMemory) }
{
    match fault {
        SearchFault::Crowded => Ok(Reply::Plain(PlainError::Crowded)),
        SearchFault::NoMemory => Err(Halt::NoMemory),
    }
}

/// What was found, as rows of the graph's file, in the order of their nodes' positions.
fn answer_of(alloc: Global, graph: &FileGraph, found: Found) -> Result<Answer, AllocError>
    ensures { IfOk result (λ answer. answer ≡ answer_of graph.now found.limit found.rows) }
{
    let mut rows = Vec::new(alloc);
    for hit in found.rows.items() {
        rows.push(Row {
            path: PathText::of(alloc, ONCE_PATH)?,
            node: hit.node,
            span: span_at(graph, hit.node),
        })?;
    }
    Ok(Answer {
        limit: found.limit,
        rows: Rows::of(rows),
    })
}

fn span_at(graph: &FileGraph, n: u32) -> Option<Span>
    ensures { result ≡ span_at graph.now n }
{
    graph.span(n)
}
