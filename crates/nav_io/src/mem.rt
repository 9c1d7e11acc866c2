//! Sources, sinks, doors and houses in memory, which fail as they are told to.
ghost use Rattle.std.specs.Prelude.{◌≡◌};
ghost use Rattle.nav_io.specs.Mem.{fails_now};

mod doors;
mod lent;
mod sink;
mod source;

pub use doors::{MemDoor, MemHouse};
pub use lent::Lent;
pub use sink::MemSink;
pub use source::MemSource;

/// Whether the call with this number, from 0, is one of those that fail. They are few, so all are looked at.
fn is_failing(failing: &[u32], call: u64) -> bool
    ensures { result ≡ fails_now failing.now call }
{
    failing.iter().any(|number| u64::from(*number) == call)
}
