use crate::DocText;
use partial_path::Bounds;
use stacks_vars::Listed;
use version_tree::{PathText, UserText};

/// What a line asks for. Its paths have the form of a path, its prefixes are empty or paths, its
/// users have 1 to 256 bytes, and its bounds are 1 to 512 edges and 1 to 96 symbols.
#[derive(Debug, Drop)]
pub enum Request {
    /// Name the session's user, and pin the newest version.
    Hello {
        user: UserText,
    },
    /// Pin the newest version.
    Pin,
    /// Change files, where the head still has the base's number if one is given.
    Commit {
        base: Option<u32>,
        edits: Edits,
    },
    /// Grant the user what the prefix reaches.
    Grant {
        user: UserText,
        prefix: PathText,
    },
    /// Take that grant away.
    Revoke {
        user: UserText,
        prefix: PathText,
    },
    /// Deny the user what the prefix reaches.
    Deny {
        user: UserText,
        prefix: PathText,
    },
    /// Take that deny away.
    Undeny {
        user: UserText,
        prefix: PathText,
    },
    /// Ask for the definitions of the reference there.
    Define {
        path: PathText,
        at: Point,
        bounds: Bounds,
    },
    /// Ask for the references of the definition there.
    References {
        path: PathText,
        at: Point,
        bounds: Bounds,
    },
    /// Ask for the references of the definition there, found from it backward, within the usual bounds.
    Callers {
        path: PathText,
        at: Point,
    },
    /// End the session.
    Quit,
}

/// One change of a commit.
#[derive(Debug, Drop)]
pub enum FileEdit {
    /// The file at the path is the document of this text, in UTF-8.
    Put { path: PathText, text: DocText },
    /// The file at the path goes.
    Remove { path: PathText },
}

/// Where a query stands in its file.
#[derive(Clone, Copy, Debug, PartialEq, Eq)]
pub enum Point {
    /// At the node of this position from 0.
    Node(u32),
    /// On this line from 0, at this column in bytes from 0.
    LineColumn(u32, u32),
}

/// The edits of a commit, in their order.
pub type Edits = Listed<FileEdit>;
