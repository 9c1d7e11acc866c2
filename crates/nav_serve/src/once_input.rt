//! What answers the input of `once`.
ghost use Rattle.std.specs.Prelude.{◌≡◌, ◌≤◌, ℕ, Err};
ghost use Rattle.nav_io.specs.Faults.{HasRisen};
ghost use Rattle.nav_serve.specs.Serving.{AnswersOnce, AnswersText};
ghost use Rattle.nav_serve.specs.declared.tasks.Task.TheVariants as task;
ghost use Rattle.nav_session.specs.declared.halt.Halt.TheVariants as halt;

use crate::found_rows::node_reply;
use crate::input_lines::{read_graph_line, read_node_line};
use nav_io::{LineReader, Source};
use nav_proto::Reply;
use nav_session::{Halt, reply_bytes};
use std::alloc::Global;

/// The path that `once` gives its graph. By its ending the first line has to be a graph file.
pub const ONCE_PATH: &str = "once.sg.json";

/// Reads a graph line and a node line; the text that answers them, without its newline.
///
/// It is the first of these: no first line, `bad_request` with field `graph`; a line that is no
/// graph file, `bad_file` with its first fault; no second line or one of another form, `bad_request`
/// with field `node`, and `bad_json` where it isn't JSON; a node that is no reference,
/// `no_reference`; `crowded`; else the definitions of the reference. The second line is read only
/// where the graph is accepted, and nothing behind it.
pub fn once_text<S: Source>(alloc: Global, source: &mut S) -> Result<Vec<u8>, Halt>
    ensures answers { AnswersText task.Once (S.left source.old) (S.left source.new) result }
    ensures count { S.faults source.old ≤ S.faults source.new }
    ensures cause { result ≡ Err halt.SourceFailed
        → HasRisen (S.faults source.old) (S.faults source.new) }
{
    let reply = reply(alloc, source)?;
    reply_bytes(alloc, &reply)
}

/// Reads the input; the one reply to it. One reader has both lines, since with the first one it may have taken
/// bytes of the second.
fn reply<S: Source>(alloc: Global, source: &mut S) -> Result<Reply, Halt>
    ensures answers { AnswersOnce (S.left source.old) (S.left source.new) result }
    ensures count { S.faults source.old ≤ S.faults source.new }
    ensures cause { result ≡ Err halt.SourceFailed
        → HasRisen (S.faults source.old) (S.faults source.new) }
{
    let mut reader = LineReader::new(alloc)?;
    let graph = match read_graph_line(alloc, &mut reader, source, ONCE_PATH) {
        Ok(graph) => graph,
        Err(refused) => return refused.reply(),
    };
    match read_node_line(alloc, &mut reader, source) {
        Ok(n) => node_reply(alloc, graph, n),
        Err(refused) => refused.reply(),
    }
}
