ghost use Rattle.std.specs.{Prelude.{◌≡◌, ◌≤◌, [], OnErr, IfOk, false}, String.{string_bytes, string_len, string_capacity}};
ghost use Rattle.nav_proto.specs.{declared.reply.Reply.TheVariants.{Version}, Replies.{reply_text}};
ghost use Rattle.nav_session.specs.{Transcripts.{with_newline}, Desks.{is_accepted}};

use itoa::Buffer;
use nav_proto::{Reply, ReplyText, print_reply};
use std::alloc::{AllocError, Global};

/// How many bytes the reply to an accepted change has at most, with its newline.
const ROOM: usize = 23;

/// Room for the reply to an accepted change, which is taken before the change is made.
#[derive(Drop)]
pub struct Room {
    text: String,
    ghost none: { string_bytes text ≡ [] },
    ghost len: { string_len text ≡ 0 },
    ghost room: { 23 ≤ string_capacity text },
}

impl Room {
    /// Takes the room; the one error is want of memory.
    pub fn new(alloc: Global) -> Result<Room, AllocError> {
        Ok(Room {
            text: String::with_capacity(alloc, ROOM)?,
        })
    }

    /// The line that tells the version's number. It takes no memory.
    fn version(self, n: u32) -> ReplyText
        ensures { result ≡ with_newline (reply_text (Version n)) }
    {
        let mut buffer = Buffer::new();
        let mut text = self.text;
        text.push_str("{\"version\":").unwrap();
        text.push_str(buffer.format(n)).unwrap();
        text.push_str("}").unwrap();
        text.push_str("\n").unwrap();
        ReplyText::from_string(text)
    }
}

/// The reply's text with its newline. That of an accepted change needs no more memory than the room; for another one the
/// one error is want of memory.
pub fn print(alloc: Global, room: Room, reply: &Reply) -> Result<ReplyText, AllocError>
    ensures text { IfOk result (λ text. text ≡ with_newline (reply_text reply.now)) }
    ensures version { OnErr result (is_accepted reply.now ≡ false) }
{
    match reply {
        Reply::Version(n) => Ok(room.version(*n)),
        reply => ended(print_reply(alloc, reply)?),
    }
}

/// The text with a newline behind it; the one error is want of memory.
pub fn ended(text: ReplyText) -> Result<ReplyText, AllocError>
    ensures { IfOk result (λ line. line ≡ with_newline text) }
{
    let mut line = text.into_string();
    line.push_str("\n")?;
    Ok(ReplyText::from_string(line))
}
