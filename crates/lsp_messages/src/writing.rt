//! Writing replies.
ghost use Rattle.std.specs.{Prelude.{◌≡◌, ◌≤◌, IfOk, OnOk, OnErr, Err}, Io.KnownBytes.{append_known}};
ghost use Rattle.nav_io.specs.{Faults.{HasRisen}, Write.{HoldsPrefix}};
ghost use Rattle.lsp_messages.specs.Serving.{reply_frame};
ghost use Rattle.lsp_messages.specs.declared.halt.Halt.TheVariants as halt;

use crate::halt::Halt;
use lsp_frames::frame_text;
use lsp_wire::{Reply, print_reply};
use nav_io::{Sink, write_all};
use std::alloc::{AllocError, Global};

/// Writes the frame of a reply, and nothing where there is none. After a halt the sink holds what it held and a prefix
/// of it. Its time follows the length of the reply's text.
///
/// - `SinkFailed`: the sink's count of faults rose.
/// - `NoMemory`: memory was wanting, here or to the sink.
#[tactic(auto, using(crate::proofs::Written::nothing_written))]
pub fn write_reply<K: Sink>(alloc: Global, sink: &mut K, reply: &Option<Reply>) -> Result<(), Halt>
    ensures ok { OnOk result
        (K.held sink.new ≡ append_known (K.held sink.old) (reply_frame reply.now)) }
    ensures err { OnErr result
        (HoldsPrefix (K.held sink.old) (reply_frame reply.now) (K.held sink.new)) }

    ensures count { K.faults sink.old ≤ K.faults sink.new }
    ensures cause { result ≡ Err halt.SinkFailed
        → HasRisen (K.faults sink.old) (K.faults sink.new) }
    ensures not_source { result ≡ Err halt.SourceFailed → ⊥ }
    ensures not_large { result ≡ Err halt.Large → ⊥ }
    ensures not_broken { result ≡ Err halt.Broken → ⊥ }
{
    // The whole frame is there before a byte is written: want of memory here leaves no half of one.
    let Ok(frame) = reply_frame(alloc, reply) else {
        return Err(Halt::NoMemory);
    };
    match write_all(sink, frame.as_slice()) {
        Ok(()) => Ok(()),
        Err(error) => Err(Halt::from(error)),
    }
}

/// The frame of a reply, which is empty where there is none, so that one write serves both; the one error is want of
/// memory.
fn reply_frame(alloc: Global, reply: &Option<Reply>) -> Result<Vec<u8>, AllocError>
    ensures { IfOk result (λ frame. frame.items ≡ reply_frame reply.now) }
{
    match reply {
        Some(reply) => frame_text(alloc, print_reply(alloc, reply)?.as_bytes()),
        None => Ok(Vec::new(alloc)),
    }
}
