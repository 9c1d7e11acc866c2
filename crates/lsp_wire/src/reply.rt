use crate::{Id, Position, Text};
use item_list::Listed;

/// What a message is answered with.
#[derive(Debug, Drop)]
pub struct Reply {
    /// The id of what is answered; none where it has no id that could be read.
    pub id: Option<Id>,
    pub outcome: Outcome,
}

/// What came of a request.
#[derive(Debug, Drop)]
pub enum Outcome {
    /// What the server can do.
    Capabilities,
    /// Nothing.
    Null,
    /// These places.
    Locations(Locations),
    /// An error.
    Refused(Refusal),
}

/// Why a request isn't answered.
#[derive(Clone, Copy, Debug, PartialEq, Eq)]
pub enum Refusal {
    /// The body is no JSON.
    ParseError,
    /// The body is no message.
    InvalidRequest,
    /// The session hasn't begun.
    NotInitialized,
    /// The method isn't known.
    MethodNotFound,
    /// The parameters aren't those that the method needs.
    InvalidParams,
    /// A reference has too many runs.
    Crowded,
}

/// A part of a document.
#[derive(Debug, Drop)]
pub struct Location {
    pub uri: Text,
    pub start: Position,
    pub end: Position,
}

/// Parts of documents, in their order. A contract sees them as a list.
pub type Locations = Listed<Location>;
