ghost use Rattle.std.specs.Prelude.{◌≡◌, ◌≤◌, ℕ, Err};
ghost use Rattle.nav_io.specs.Faults.{HasRisen};
ghost use Rattle.nav_serve.specs.{Files.{graph_line}, Once.{node_line}, Reads.{ReadsAs}, Refused.{parts}};
ghost use Rattle.nav_serve.specs.declared.file.Refused.TheVariants as refused;
ghost use Rattle.nav_session.specs.declared.halt.Halt.TheVariants as halt;

use crate::file::{Refused, graph_line};
use crate::node_line::node_line;
use graph_nodes::FileGraph;
use nav_io::{LineReader, Source};
use nav_session::Halt;
use std::alloc::Global;

/// Reads a line, of at most 8,388,608 bytes, that has to be a graph file of that path.
pub fn read_graph_line<S: Source>(
    alloc: Global,
    reader: &mut LineReader,
    source: &mut S,
    path: &str,
) -> Result<FileGraph, Refused>
    ensures reads { ReadsAs reader.old reader.new (S.left source.old) (S.left source.new)
        parts (graph_line path.now) result }
    ensures count { S.faults source.old ≤ S.faults source.new }
    ensures cause { result ≡ Err (refused.Halt halt.SourceFailed)
        → HasRisen (S.faults source.old) (S.faults source.new) }
{
    match reader.next_line(source) {
        Ok(line) => graph_line(alloc, path, line),
        Err(error) => Err(Refused::Halt(Halt::from(error))),
    }
}

/// Reads a line, of at most as many bytes, that has to ask for a node.
pub fn read_node_line<S: Source>(
    alloc: Global,
    reader: &mut LineReader,
    source: &mut S,
) -> Result<u32, Refused>
    ensures reads { ReadsAs reader.old reader.new (S.left source.old) (S.left source.new)
        (λ n. n) node_line result }
    ensures count { S.faults source.old ≤ S.faults source.new }
    ensures cause { result ≡ Err (refused.Halt halt.SourceFailed)
        → HasRisen (S.faults source.old) (S.faults source.new) }
{
    match reader.next_line(source) {
        Ok(line) => node_line(alloc, line),
        Err(error) => Err(Refused::Halt(Halt::from(error))),
    }
}
