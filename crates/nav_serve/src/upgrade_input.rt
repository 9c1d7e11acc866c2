//! What answers the input of `upgrade`.
ghost use Rattle.std.specs.Prelude.{◌≡◌, ◌≤◌, ℕ, Err};
ghost use Rattle.nav_io.specs.Faults.{HasRisen};
ghost use Rattle.nav_serve.specs.Serving.{AnswersText};
ghost use Rattle.nav_serve.specs.declared.tasks.Task.TheVariants as task;
ghost use Rattle.nav_session.specs.declared.halt.Halt.TheVariants as halt;

use crate::input_lines::read_graph_line;
use graph_json::print_named;
use nav_io::{LineReader, Source};
use nav_session::{Halt, reply_bytes};
use std::alloc::Global;

/// The path that `upgrade` gives its graph. By its ending the line has to be a graph file.
pub const UPGRADE_PATH: &str = "upgrade.sg.json";

/// Reads one line; the text that answers it, without its newline: its graph in format 2, or a reply.
///
/// No line is answered with `bad_request` with field `graph`, and one that is no graph file with
/// `bad_file` and its first fault. What follows the line is ignored.
pub fn upgrade_text<S: Source>(alloc: Global, source: &mut S) -> Result<Vec<u8>, Halt>
    ensures answers { AnswersText task.Upgrade (S.left source.old) (S.left source.new) result }
    ensures count { S.faults source.old ≤ S.faults source.new }
    ensures cause { result ≡ Err halt.SourceFailed
        → HasRisen (S.faults source.old) (S.faults source.new) }
{
    let mut reader = LineReader::new(alloc)?;
    match read_graph_line(alloc, &mut reader, source, UPGRADE_PATH) {
        Ok(graph) => Ok(print_named(alloc, &graph)?),
        Err(refused) => {
            let reply = refused.reply()?;
            reply_bytes(alloc, &reply)
        }
    }
}
