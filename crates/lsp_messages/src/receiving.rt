//! Reading messages one by one.
ghost use Rattle.std.specs.Prelude.{◌≡◌, ◌≤◌, Err};
ghost use Rattle.nav_io.specs.Faults.{HasRisen};
ghost use Rattle.lsp_messages.specs.{Inputs.{is_exit_body}, Turns.{ReadsNext, WantsMemory, LooksOn}};
ghost use Rattle.lsp_messages.specs.declared.halt.Halt.TheVariants as halt;
ghost use Rattle.lsp_messages.specs.declared.receiving.TheConstants as constant;

use crate::halt::Halt;
use lsp_frames::{FrameError, FrameReader};
use lsp_wire::{Asks, Body, Message, read_body};
use nav_io::Source;
use std::alloc::Global;

/// The most messages of a session.
pub const MAX_MESSAGES: u32 = 1_000_000;

/// What stands behind the last message that may be answered.
#[derive(Clone, Copy, Debug, PartialEq, Eq)]
pub enum More {
    /// Nothing: the input ends there.
    Nothing,
    /// One byte or more.
    Bytes,
}

/// Whether the message is the notification `exit`. With an id it is a request, and ends nothing.
pub fn ends_session(body: &Body) -> bool
    ensures { result ≡ is_exit_body body.now }
{
    match body {
        Body::Message(message) => is_exit(message),
        Body::NotJson | Body::Invalid | Body::Passed => false,
    }
}

fn is_exit(message: &Message) -> bool
    ensures { result ≡ is_exit_body (Body.Message message.now) }
{
    message.id.is_none() && matches!(message.asks, Asks::Exit)
}

/// The next message, or `None` exactly at the end of input.
///
/// A whole frame among the bytes that were taken is answered without a read of the source.
///
/// - `SourceFailed`: the source's count of faults rose, and no whole message was taken.
/// - `Broken`: no frame is there, or none that is whole.
/// - `Large`: the block states more than 8,388,608 bytes. The body isn't waited for.
/// - `NoMemory`: memory was wanting for a frame of which nothing or a beginning was taken, or for a body with bytes.
pub fn next_message<S: Source>(
    alloc: Global,
    reader: &mut FrameReader,
    source: &mut S,
) -> Result<Option<Body>, Halt>
    ensures reads { ReadsNext reader.old reader.new (S.left source.old) (S.left source.new) result }
    ensures memory { result ≡ Err halt.NoMemory
        → WantsMemory reader.old reader.new (S.left source.old) (S.left source.new) }
    ensures count { S.faults source.old ≤ S.faults source.new }
    ensures cause { result ≡ Err halt.SourceFailed
        → HasRisen (S.faults source.old) (S.faults source.new) }
{
    match reader.next_frame(source) {
        Ok(Some(bytes)) => Ok(Some(read_body(alloc, bytes)?)),
        Ok(None) => Ok(None),
        Err(error) => Err(Halt::from(error)),
    }
}

/// Looks whether a byte stands behind the last message that may be answered. Where one does, it may wait for the whole
/// frame that it begins.
///
/// - `SourceFailed`: the source's count of faults rose, and no whole message was taken.
/// - `NoMemory`: memory was wanting, and nothing or a beginning of a frame was taken.
pub fn look_on<S: Source>(reader: &mut FrameReader, source: &mut S) -> Result<More, Halt>
    ensures looks { LooksOn reader.old reader.new (S.left source.old) (S.left source.new) result }
    ensures count { S.faults source.old ≤ S.faults source.new }
    ensures cause { result ≡ Err halt.SourceFailed
        → HasRisen (S.faults source.old) (S.faults source.new) }
{
    match reader.next_frame(source) {
        Ok(Some(_)) => Ok(More::Bytes),
        Ok(None) => Ok(More::Nothing),
        // What stands there is no frame, but it is something.
        Err(FrameError::Broken) | Err(FrameError::TooLong) => Ok(More::Bytes),
        Err(FrameError::ReadFault) => Err(Halt::SourceFailed),
        Err(FrameError::NoMemory) => Err(Halt::NoMemory),
    }
}
