//! The outside of the server as traits, with the bytes and the faults that each tells of, and lines over them.
#![tactic(auto)]

mod gate;
mod guard;
mod house;
mod lines;
mod mem;
mod notices;
mod settling;
mod sink;
mod source;
mod std_io;
mod taking;
mod tcp;
mod write;

pub use gate::{Gate, Unguarded};
pub use guard::Guarded;
pub use house::{Door, House, HouseFault};
pub use lines::{LINE_MAX, LineError, LineReader, NoMemory, TooLong};
pub use mem::{Lent, MemDoor, MemHouse, MemSink, MemSource};
pub use notices::{Cut, NoNotices, Notices};
pub use sink::{Sink, SinkError};
pub use source::{Failed, Source};
pub use std_io::{Std, StdSink, StdSource};
pub use taking::{CHUNK, TakeError, let_go, take_chunk, take_until};
pub use tcp::{TcpDoor, TcpHouse};
pub use write::{WriteError, write_all};
