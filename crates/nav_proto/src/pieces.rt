ghost use Rattle.std.specs.{Prelude.{◌≡◌, nat_le}, List.{list_all, slice_split}};
ghost use Rattle.nav_proto.specs.{Answers.{Names}, Texts.{has_bytes, is_slash, is_part, is_path, is_prefix, is_user}};

use crate::{ProtoFault, ReplyText};
use std::alloc::Global;

/// The fault that names this field, or want of memory.
pub(crate) fn wrong(alloc: Global, name: &str) -> ProtoFault
    ensures { Names name.now result }
{
    match ReplyText::of(alloc, name) {
        Ok(field) => ProtoFault::BadRequest(field),
        Err(_) => ProtoFault::NoMemory,
    }
}

/// Whether the text has 1 to `most` bytes.
fn has_bytes(text: &str, most: usize) -> bool
    ensures { result ≡ has_bytes most text.now }
{
    1 <= text.len() && text.len() <= most
}

fn is_part(part: &[u8]) -> bool
    ensures { result ≡ is_part part.now }
{
    !(part.is_empty() || part == b".".as_slice() || part == b"..".as_slice())
}

fn has_parts(text: &[u8]) -> bool
    ensures { result ≡ list_all is_part (slice_split is_slash text.now) }
{
    text.split(|byte| *byte == b'/').all(|part| is_part(part))
}

fn has_no_control(text: &[u8]) -> bool
    ensures { result ≡ list_all (nat_le 32) text.now }
{
    text.iter().all(|byte| 32 <= *byte)
}

/// Whether the text is a path as requests have them: 1 to 512 bytes, none of them below 32, and no part between slashes that
/// is empty, `.` or `..` (`docs/FORMATS.md`). It takes time that follows the length of the text.
#[tactic(auto, unfolding(crate::specs::Texts::is_path))]
pub fn is_path(text: &str) -> bool
    ensures { result ≡ is_path text.now }
{
    has_bytes(text, 512) && has_no_control(text.as_bytes()) && has_parts(text.as_bytes())
}

/// Whether the text is a path or empty, as the prefix that reaches all is.
pub(crate) fn is_prefix(text: &str) -> bool
    ensures { result ≡ is_prefix text.now }
{
    text == "" || is_path(text)
}

/// Whether the text is a user's: 1 to 256 bytes.
pub(crate) fn is_user(text: &str) -> bool
    ensures { result ≡ is_user text.now }
{
    has_bytes(text, 256)
}
