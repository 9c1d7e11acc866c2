use nav_proto::{Reply, Request};
use version_board::Exchange;

/// A request with its reply, as contracts speak of questions to a seat.
#[derive(Drop)]
pub struct Replied {
    pub request: Request,
    pub reply: Reply,
}

impl Exchange for Replied {
    ghost use Rattle.nav_session.specs.Exchanges.{IsDue};

    ghost is_due = { IsDue };
}
