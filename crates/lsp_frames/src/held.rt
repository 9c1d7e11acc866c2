//! The bytes that a frame reader holds: taking what is wanting of a frame, and lending its body.
ghost use Rattle.std.specs.{Prelude.{◌≡◌, ◌≢◌, ◌<◌, ◌≤◌, length, drop, IfOk, IfSome, OnOk, OnErr, Ok, Err, true, false}, Io.KnownBytes.{prepend_known, IsAtEnd}, Option.{option_copied}};
ghost use Rattle.nav_io.specs.Faults.{HasRisen};
ghost use Rattle.lsp_frames.specs.{Frames.{cut, is_short}, Inside.{IsFront, IsPlaceOf, body_at, behind}};

use crate::front::{Front, Place, front_of};
use crate::reader::FrameError;
use nav_io::{CHUNK, Source, take_until};

/// Takes what is wanting of the first frame, and answers what stands at the front. It asks for as many bytes as are known
/// to be wanting, so a body that has come in part isn't looked at again for each chunk.
pub(crate) fn fill<S: Source>(
    held: &mut Vec<u8>,
    ended: &mut bool,
    chunk: &mut [u8],
    source: &mut S,
) -> Result<Front, FrameError>
    requires room { CHUNK ≤ length chunk.old }
    requires more { ended.old ≡ false }
    ensures kept { prepend_known held.new.items (S.left source.new)
        ≡ prepend_known held.old.items (S.left source.old) }
    ensures at_end { ended.new ≡ true → IsAtEnd (S.left source.new) }
    ensures ok { IfOk result (λ front. IsFront front held.new.items) }
    ensures whole { OnOk result (is_short (cut held.new.items) ≡ true → ended.new ≡ true) }
    ensures err { OnErr result ((ended.new ≡ false) × (is_short (cut held.new.items) ≡ true)) }
    ensures kind { result ≢ Err FrameError.Broken × result ≢ Err FrameError.TooLong }

    ensures count { S.faults source.old ≤ S.faults source.new }
    ensures cause { result ≡ Err FrameError.ReadFault
        → HasRisen (S.faults source.old) (S.faults source.new) }
{
    while !*ended {
        match front_of(held) {
            Front::Short(wants) => *ended = take_until(held, chunk, source, wants)?,
            front => return Ok(front),
        }
    }
    Ok(front_of(held))
}

/// Where the body of what stands at the front is, or why there is none where the input ends with what is short: nothing is
/// the end of a session, and a beginning of a frame is a broken one.
pub(crate) fn place_of(front: Front, is_empty: bool) -> Result<Option<Place>, FrameError>
    ensures { IsPlaceOf front is_empty result }
{
    match front {
        Front::Whole(place) => Ok(Some(place)),
        Front::Short(_) if is_empty => Ok(None),
        Front::Large => Err(FrameError::TooLong),
        _ => Err(FrameError::Broken),
    }
}

/// Lends the body at that place behind `start`, and moves `start` past it.
pub(crate) fn take_body<'a>(
    held: &'a [u8],
    start: &mut usize,
    found: Option<Place>,
) -> Option<&'a [u8]>
    requires within { start.old ≤ length held.now }
    requires place { IfSome found
        (λ place. (place.from ≤ place.to) × (place.to ≤ length (drop start.old held.now))) }
    ensures within { start.new ≤ length held.now }
    ensures body { option_copied result ≡ body_at found (drop start.old held.now) }
    ensures rest { drop start.new held.now ≡ behind found (drop start.old held.now) }
{
    let place = found?;
    let from = *start;
    *start = from + place.to;
    Some(&held[from + place.from..from + place.to])
}
