use crate::config::Spot;
use stacks_vars::NodeAt;

/// Where a partial path begins.
#[derive(Clone, Copy, Debug, PartialEq, Eq, PartialOrd, Ord)]
pub enum Start {
    /// At this reference, which isn't entered yet.
    Before(NodeAt),
    /// At this spot, which was entered before.
    After(Spot),
}

/// Where a partial path ends.
#[derive(Clone, Copy, Debug, PartialEq, Eq)]
pub enum End {
    /// At this spot.
    At(Spot),
    /// At the scope in front of the scope stack, which is taken off.
    ByStack,
}
