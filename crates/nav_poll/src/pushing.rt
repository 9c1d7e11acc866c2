//! Pushing to a link what is to be pushed.
ghost use Rattle.std.specs.Prelude.{◌≡◌, ◌≤◌, Ok, Err, length, drop};
ghost use Rattle.nav_io.specs.Faults.{HasRisen};
ghost use Rattle.nav_session.specs.declared.halt.Halt.TheVariants as halt;
ghost use Rattle.nav_poll.specs.{Links.{NoneFell}, Turns.{Pushes}};

use crate::link::{Link, LinkFault, Moved};
use crate::went::Went;
use nav_session::Halt;

// Pushes the bytes from `sent` on, until the link has all or has to wait.
pub(crate) fn push_rest<K: Link>(out: &[u8], sent: &mut usize, link: &mut K) -> Result<Went, Halt>
    requires { sent.old ≤ length out.now }
    ensures within { sent.new ≤ length out.now }
    ensures pushes { Pushes (drop sent.old out.now) (drop sent.new out.now) (K.held link.old)
        (K.held link.new) }
    ensures left { K.left link.new ≡ K.left link.old }
    ensures counts { NoneFell (K.counts link.old) (K.counts link.new) }
    ensures on { result ≡ Ok Went.On → sent.new ≡ length out.now }
    ensures waits { result ≡ Ok Went.Waits
        → HasRisen (K.counts link.old).write_waits (K.counts link.new).write_waits }
    ensures cause { result ≡ Err halt.SinkFailed
        → HasRisen (K.counts link.old).write_faults (K.counts link.new).write_faults }
    ensures not_source { result ≡ Err halt.SourceFailed → ⊥ }
    ensures not_long { result ≡ Err halt.LongLine → ⊥ }
{
    while *sent < out.len() {
        match link.push(&out[*sent..]) {
            Ok(Moved::Bytes(n)) => *sent += n,
            Ok(Moved::NotYet) => return Ok(Went::Waits),
            Err(LinkFault::Failed) => return Err(Halt::SinkFailed),
            Err(LinkFault::NoMemory) => return Err(Halt::NoMemory),
        }
    }
    Ok(Went::On)
}
