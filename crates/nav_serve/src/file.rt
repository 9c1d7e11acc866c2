ghost use Rattle.std.specs.{Prelude.{◌≡◌, ℕ, List, Option, Result, Ok, Err, IfOk, OnErr}, Option.{option_copied}};
ghost use Rattle.nav_proto.specs.declared.reply.Reply.TheVariants.{BadFile};
ghost use Rattle.nav_serve.specs.{Files.{graph_line}, Refused.{AnswersAs, parts}};

use graph_nodes::FileGraph;
use index_gate::{FileFault, ReadFault, read_document};
use nav_proto::{FileError, Reply, ReplyText};
use nav_session::{Halt, file_error};
use std::alloc::{AllocError, Global};
use version_tree::PathText;

/// What stands in place of a value: a reply that refuses the input, or a stop.
#[derive(Debug, Drop)]
pub enum Refused {
    Reply(Reply),
    Halt(Halt),
}

impl Refused {
    ghost use Rattle.std.specs.Prelude.{◌≡◌};
    ghost use Rattle.nav_serve.specs.Refused.{reply_of};

    /// The reply, since a refusal is an answer too; a stop stays an error.
    pub fn reply(self) -> Result<Reply, Halt>
        ensures { result ≡ reply_of self }
    {
        match self {
            Refused::Reply(reply) => Ok(reply),
            Refused::Halt(stop) => Err(stop),
        }
    }
}

impl From<AllocError> for Refused {
    ghost use Rattle.std.specs.Prelude.{◌≡◌};
    ghost use Rattle.nav_serve.specs.declared.file.Refused.TheVariants as refused;
    ghost use Rattle.nav_session.specs.declared.halt.Halt.TheVariants as halt;

    ghost from_gives = { λ _ r. r ≡ refused.Halt halt.NoMemory };

    fn from(_: AllocError) -> Refused {
        Refused::Halt(Halt::NoMemory)
    }
}

/// The graph of the line, or the reply that refuses it. The line is read as a document of that path, whose
/// ending says that it is a graph file.
#[tactic(auto, using(crate::proofs::Told::refuses_file))]
pub fn graph_line(alloc: Global, path: &str, line: Option<&[u8]>) -> Result<FileGraph, Refused>
    ensures { AnswersAs parts result (graph_line path.now (option_copied line.entry)) }
{
    let Some(bytes) = line else {
        return Err(Refused::Reply(Reply::BadRequest(ReplyText::of(alloc, "graph")?)));
    };
    match read_document(alloc, path, bytes) {
        Ok(graph) => Ok(graph),
        Err(fault) => refuse(alloc, path, file_error(fault_of(fault)?)),
    }
}

/// The fault of the document; the one error is want of memory.
fn fault_of(fault: ReadFault) -> Result<FileFault, AllocError>
    ensures file { IfOk result (λ file. fault ≡ ReadFault.File file) }
    ensures memory { OnErr result (fault ≡ ReadFault.NoMemory) }
{
    match fault {
        ReadFault::File(fault) => Ok(fault),
        ReadFault::NoMemory => Err(AllocError),
    }
}

fn refuse(alloc: Global, path: &str, fault: FileError) -> Result<FileGraph, Refused>
    ensures { AnswersAs parts result (Err (BadFile path.now fault)) }
{
    let path = PathText::of(alloc, path)?;
    Err(Refused::Reply(Reply::BadFile { path, fault }))
}
