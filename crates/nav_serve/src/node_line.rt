ghost use Rattle.std.specs.{Prelude.{◌≡◌}, Option.{option_copied}};
ghost use Rattle.nav_serve.specs.{NodeLine.{refusal_of}, Once.{node_line}, Refused.{AnswersAs}};

use crate::file::Refused;
use nav_proto::{PlainError, ProtoFault, Reply, ReplyText, read_node};
use nav_session::Halt;
use std::alloc::Global;

/// The position of the node that the line asks for, from 0, or the reply that refuses it.
pub fn node_line(alloc: Global, line: Option<&[u8]>) -> Result<u32, Refused>
    ensures { AnswersAs (λ n. n) result (node_line (option_copied line.entry)) }
{
    let Some(bytes) = line else {
        return Err(Refused::Reply(Reply::BadRequest(ReplyText::of(alloc, "node")?)));
    };
    match read_node(alloc, bytes) {
        Ok(node) => Ok(node),
        Err(fault) => Err(refused(fault)),
    }
}

/// Want of memory is no fault of the line: it has no reply, and stops the task.
fn refused(fault: ProtoFault) -> Refused
    ensures { result ≡ refusal_of fault }
{
    match fault {
        ProtoFault::BadJson => Refused::Reply(Reply::Plain(PlainError::BadJson)),
        ProtoFault::BadRequest(field) => Refused::Reply(Reply::BadRequest(field)),
        ProtoFault::NoMemory => Refused::Halt(Halt::NoMemory),
    }
}
