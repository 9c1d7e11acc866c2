//! Pulling from a link what a reader has to have.
ghost use Rattle.std.specs.{Prelude.{◌≡◌, ◌≤◌, ℕ, List, Ok, Err, OnErr, false, length}, Io.KnownBytes.{prepend_known}};
ghost use Rattle.nav_io.specs.{Lines.{line_max}, Faults.{HasRisen}};
ghost use Rattle.nav_session.specs.declared.halt.Halt.TheVariants as halt;
ghost use Rattle.nav_poll.specs.{Links.{NoneFell}, Turns.{Pulls}};

use crate::link::{Link, LinkFault, Moved};
use crate::went::Went;
use nav_io::LineReader;
use nav_session::Halt;

/// The most bytes of one pull.
const PULL: usize = 16_384;

// Pulls once, and puts what comes behind the bytes of the reader, which has so many in front; `at_end` tells whether it
// met the end. Where memory is refused, the bytes that came are lost.
pub(crate) fn pull_more<K: Link>(
    reader: &mut LineReader,
    in_front: &mut usize,
    at_end: &mut bool,
    link: &mut K,
) -> Result<Went, Halt>
    requires not_ended { reader.old.ended ≡ false }
    requires in_front { in_front.old ≡ length reader.old.front }
    requires short { length reader.old.front ≤ line_max }
    requires told { at_end.old ≡ reader.old.ended }
    ensures in_front { in_front.new ≡ length reader.new.front }
    ensures told { at_end.new ≡ reader.new.ended }
    ensures on { result ≡ Ok Went.On
        → Pulls reader.old reader.new (K.left link.old) (K.left link.new) }
    ensures same { result ≡ Ok Went.Waits → (reader.new ≡ reader.old)
        × (K.left link.new ≡ K.left link.old) }
    ensures lost { OnErr result ((pulled : List ℕ)
        × (K.left link.old ≡ prepend_known pulled (K.left link.new))) }
    ensures failed { result ≡ Err halt.SourceFailed → K.left link.new ≡ K.left link.old }
    ensures held { K.held link.new ≡ K.held link.old }
    ensures counts { NoneFell (K.counts link.old) (K.counts link.new) }
    ensures waits { result ≡ Ok Went.Waits
        → HasRisen (K.counts link.old).read_waits (K.counts link.new).read_waits }
    ensures cause { result ≡ Err halt.SourceFailed
        → HasRisen (K.counts link.old).read_faults (K.counts link.new).read_faults }
    ensures not_sink { result ≡ Err halt.SinkFailed → ⊥ }
    ensures not_long { result ≡ Err halt.LongLine → ⊥ }
{
    let mut chunk = [0u8; PULL];
    match link.pull(&mut chunk) {
        Ok(Moved::NotYet) => Ok(Went::Waits),
        Ok(Moved::Bytes(0)) => {
            reader.end();
            *at_end = true;
            Ok(Went::On)
        }
        Ok(Moved::Bytes(n)) => match reader.push(&chunk[..n]) {
            Ok(()) => {
                *in_front += n;
                Ok(Went::On)
            }
            Err(_) => Err(Halt::NoMemory),
        },
        Err(LinkFault::Failed) => Err(Halt::SourceFailed),
        Err(LinkFault::NoMemory) => Err(Halt::NoMemory),
    }
}
