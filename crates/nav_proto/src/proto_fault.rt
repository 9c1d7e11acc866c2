ghost use Rattle.std.specs.Prelude.{◌≡◌};
ghost use Rattle.nav_proto.specs.declared.proto_fault.ProtoFault.TheVariants.{NoMemory};

use crate::ReplyText;
use std::alloc::{AllocError, AllocFailed};
use std::fmt;

/// Why a line is no request.
#[derive(Debug, Drop)]
pub enum ProtoFault {
    /// The line isn't JSON in UTF-8, or nests deeper than 127.
    BadJson,
    /// The line is JSON and no request; this is the name of its first wrong field.
    BadRequest(ReplyText),
    /// Memory was refused.
    NoMemory,
}

impl fmt::Display for ProtoFault {
    fn fmt<W: fmt::Write>(&self, f: &mut fmt::Formatter<W>) -> fmt::Result {
        match self {
            ProtoFault::BadJson => f.write_str("the line isn't JSON"),
            ProtoFault::BadRequest(field) => write!(f, "the field {} is wrong", field.as_str()),
            ProtoFault::NoMemory => f.write_str("memory was refused"),
        }
    }
}

impl From<AllocError> for ProtoFault {
    ghost from_gives = { λ _ e. e ≡ NoMemory };

    fn from(_e: AllocError) -> ProtoFault {
        ProtoFault::NoMemory
    }
}

impl<T: Drop> From<AllocFailed<T>> for ProtoFault {
    ghost from_gives = { λ _ e. e ≡ NoMemory };

    fn from(_e: AllocFailed<T>) -> ProtoFault {
        ProtoFault::NoMemory
    }
}
