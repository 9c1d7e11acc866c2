//! The one body of the commands that read their input, answer it by one line, and end.
ghost use Rattle.std.specs.Prelude.{◌≡◌, ◌≤◌, Err};
ghost use Rattle.nav_io.specs.Faults.{HasRisen};
ghost use Rattle.nav_session.specs.declared.halt.Halt.TheVariants as halt;
ghost use Rattle.nav_serve.specs.{Ended.{status_after}, Outside.{EndsSo, seen_at}, Performed.{DoesTask, EndsTask, task_ends}, Serving.{AnswersText, Serves}};

use crate::once_input::once_text;
use crate::upgrade_input::upgrade_text;
use nav_io::{Sink, Source};
use nav_session::{ANSWERED, Halt, write_line};
use std::alloc::Global;

/// What is to be answered.
#[derive(Clone, Copy, Debug, PartialEq, Eq)]
pub enum Task {
    /// One reference of one graph.
    Once,
    /// A graph file, by its text in format 2.
    Upgrade,
}

/// Reads the task's input, writes the one line that answers it, and gives the status.
///
/// Status 0: the line was written. 3: the source failed, and nothing was written. 4: the sink
/// failed. 5: memory was refused. 6: a line that has to be read has more than 8,388,608 bytes, and
/// nothing was written.
pub fn perform<S: Source, K: Sink>(task: Task, alloc: Global, source: &mut S, sink: &mut K) -> u8
    ensures does { DoesTask task (seen_at S.Source K.Sink source.old sink.old)
        (seen_at S.Source K.Sink source.new sink.new) result }
    ensures ends { EndsSo task_ends (EndsTask task (S.left source.old))
        (seen_at S.Source K.Sink source.old sink.old) (seen_at S.Source K.Sink source.new sink.new)
        result }
{
    status_of(serve(task, alloc, source, sink))
}

// The status where the task was done, or the one that tells why it wasn't.
fn status_of(served: Result<(), Halt>) -> u8
    ensures { result ≡ status_after served }
{
    match served {
        Ok(()) => ANSWERED,
        Err(halt) => halt.status(),
    }
}

// Apart from `perform`, so that `?` passes on whatever stops the task, and its status is told at one place.
fn serve<S: Source, K: Sink>(
    task: Task,
    alloc: Global,
    source: &mut S,
    sink: &mut K,
) -> Result<(), Halt>
    ensures served { Serves task
        (S.left source.old) (S.left source.new) (K.held sink.old) (K.held sink.new) result }
    ensures source_failed { result ≡ Err halt.SourceFailed
        → HasRisen (S.faults source.old) (S.faults source.new) }
    ensures sink_failed { result ≡ Err halt.SinkFailed
        → HasRisen (K.faults sink.old) (K.faults sink.new) }
    ensures source_count { S.faults source.old ≤ S.faults source.new }
    ensures sink_count { K.faults sink.old ≤ K.faults sink.new }
{
    let text = text(task, alloc, source)?;
    write_line(sink, text)
}

// Reads the input; the text that answers it, without the newline, which `write_line` puts behind it.
fn text<S: Source>(task: Task, alloc: Global, source: &mut S) -> Result<Vec<u8>, Halt>
    ensures answers { AnswersText task (S.left source.old) (S.left source.new) result }
    ensures count { S.faults source.old ≤ S.faults source.new }
    ensures cause { result ≡ Err halt.SourceFailed
        → HasRisen (S.faults source.old) (S.faults source.new) }
{
    match task {
        Task::Once => once_text(alloc, source),
        Task::Upgrade => upgrade_text(alloc, source),
    }
}
