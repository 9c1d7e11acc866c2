ghost use Rattle.std.specs.{Prelude.{◌≡◌, ◌≤◌, ℕ, List, OnOk, OnErr, IfOk, IfErr, Err}, Io.KnownBytes.{append_known}};
ghost use Rattle.nav_io.specs.{Faults.{HasRisen}, Write.{HoldsPrefix}};
ghost use Rattle.nav_proto.specs.Replies.{reply_text};
ghost use Rattle.nav_session.specs.Transcripts.{with_newline};
ghost use Rattle.nav_session.specs.declared.halt.Halt.TheVariants as halt;

use crate::halt::Halt;
use nav_io::{Sink, write_all};
use nav_proto::{Reply, ReplyText, print_reply};
use std::alloc::Global;

/// The bytes of the reply's text.
pub fn reply_bytes(alloc: Global, reply: &Reply) -> Result<Vec<u8>, Halt>
    ensures ok { IfOk result (λ text. text.items ≡ reply_text reply.now) }
    ensures err { IfErr result (λ reason. reason ≡ halt.NoMemory) }
{
    Ok(print_reply(alloc, reply)?.into_string().into_bytes())
}

/// Writes the text and a newline at once. After a stop the sink holds what it held and a prefix of them.
pub fn write_line<K: Sink>(sink: &mut K, text: Vec<u8>) -> Result<(), Halt>
    ensures ok { OnOk result (K.held sink.new
        ≡ append_known (K.held sink.old) (with_newline text.items)) }
    ensures err { OnErr result (HoldsPrefix (K.held sink.old) (with_newline text.items)
        (K.held sink.new)) }

    ensures count { K.faults sink.old ≤ K.faults sink.new }
    ensures cause { result ≡ Err halt.SinkFailed
        → HasRisen (K.faults sink.old) (K.faults sink.new) }
    ensures not_source { result ≡ Err halt.SourceFailed → ⊥ }
    ensures not_long { result ≡ Err halt.LongLine → ⊥ }
{
    let mut line = text;
    if line.push(b'\n').is_err() {
        return Err(Halt::NoMemory);
    }
    write_bytes(sink, line.as_slice())
}

/// Writes the reply, which has its newline, at once. It takes no memory. After a stop the sink holds what it held and a
/// prefix of the reply.
pub(crate) fn write_reply<K: Sink>(sink: &mut K, reply: &ReplyText) -> Result<(), Halt>
    ensures ok { OnOk result (K.held sink.new ≡ append_known (K.held sink.old) reply.now) }
    ensures err { OnErr result (HoldsPrefix (K.held sink.old) reply.now (K.held sink.new)) }

    ensures count { K.faults sink.old ≤ K.faults sink.new }
    ensures cause { result ≡ Err halt.SinkFailed
        → HasRisen (K.faults sink.old) (K.faults sink.new) }
    ensures not_source { result ≡ Err halt.SourceFailed → ⊥ }
    ensures not_long { result ≡ Err halt.LongLine → ⊥ }
{
    write_bytes(sink, reply.as_str().as_bytes())
}

// The same of any bytes.
fn write_bytes<K: Sink>(sink: &mut K, bytes: &[u8]) -> Result<(), Halt>
    ensures ok { OnOk result (K.held sink.new ≡ append_known (K.held sink.old) bytes.now) }
    ensures err { OnErr result (HoldsPrefix (K.held sink.old) bytes.now (K.held sink.new)) }

    ensures count { K.faults sink.old ≤ K.faults sink.new }
    ensures cause { result ≡ Err halt.SinkFailed
        → HasRisen (K.faults sink.old) (K.faults sink.new) }
    ensures not_source { result ≡ Err halt.SourceFailed → ⊥ }
    ensures not_long { result ≡ Err halt.LongLine → ⊥ }
{
    match write_all(sink, bytes) {
        Ok(()) => Ok(()),
        Err(error) => Err(Halt::from(error)),
    }
}
