//! Many polled sessions on one thread: the links of a port served in rounds for the seats of a board.
#![tactic(auto)]

mod call;
mod closing;
mod finishing;
mod mem_port;
mod mem_yard;
mod place;
mod port;
mod rounds;
mod running;
mod seating;
mod serving;
mod words;
mod yard;

pub use mem_port::MemPort;
pub use mem_yard::MemYard;
pub use port::{Arrived, Port};
pub use running::run_many;
pub use serving::serve_many;
pub use words::{Wanted, wanted_by};
pub use yard::Yard;
