use crate::ReplyText;
use version_tree::{Answer, PathText, Rows, UserText};

/// What a request is answered with.
#[derive(Debug, Drop)]
pub enum Reply {
    /// The session now sees the version of this number.
    Version(u32),
    /// The session ends.
    Done,
    /// The answer to a query.
    Rows(Answer),
    /// The references of the definition that `callers` asks about.
    Callers(Rows),
    /// An error that carries nothing.
    Plain(PlainError),
    /// The line is no request; this field is the first wrong one.
    BadRequest(ReplyText),
    /// The head isn't the commit's base; this is the head's number.
    Stale(u32),
    /// Two edits put or remove this path.
    Twice(PathText),
    /// This path was to be removed, and there is no such file.
    AbsentFile(PathText),
    /// This grant was to be revoked, and there is none of this user and prefix.
    AbsentGrant(UserText, PathText),
    /// The version would have this many files.
    TooManyFiles(u64),
    /// The version's files would weigh this much.
    TooHeavy(u64),
    /// The file at this path has this fault.
    BadFile { path: PathText, fault: FileError },
}

/// An error that carries nothing.
#[derive(Clone, Copy, Debug, PartialEq, Eq)]
pub enum PlainError {
    /// The line is no JSON.
    BadJson,
    /// No user has been named yet.
    NoUser,
    /// The user may not do this.
    Forbidden,
    /// The numbers of versions are used up.
    Spent,
    /// The user sees no such file.
    NoFile,
    /// No reference is there.
    NoReference,
    /// No definition is there.
    NoDefinition,
    /// A reference has too many runs.
    Crowded,
}

/// Why a file can't be taken in. Lines count from 0, nodes and edges by their place from 0.
#[derive(Clone, Copy, Debug, PartialEq, Eq)]
pub enum FileError {
    /// The path's ending is none that is read.
    Kind,
    /// The file has too many bytes: this many.
    Large(u64),
    /// A graph file is no JSON.
    Json,
    /// This part of a graph file has a wrong shape.
    Shape(ShapePart),
    /// The graph has too many nodes: this many.
    TooManyNodes(u32),
    /// The graph has too many edges: this many.
    TooManyEdges(u32),
    /// This edge has an end that is no node.
    BadEnd(u32),
    /// This edge leaves the place `jump`.
    JumpSource(u32),
    /// This node's scope is no exported scope.
    BadScope(u32),
    /// This line of a program has a byte from 128 up outside comments and strings.
    NotAscii(u32),
    /// This line of a program goes back to an indentation that no open block has.
    BadIndent(u32),
    /// On this line of a program begins what is no token.
    BadToken(u32),
    /// This line of a program has a form of the language that isn't read.
    Unsupported(u32),
    /// On this line of a program stands a token that can't stand there.
    Expected(u32),
    /// On this line of a program too many brackets and blocks are open.
    TooDeep(u32),
    /// The path gives no name of a module.
    BadName,
    /// The graph's paths weigh too much: this much, where counting ended.
    Heavy(u32),
    /// This node has the name of an earlier one.
    SameName(u32),
    /// This part of a graph file names a node that there is not.
    UnknownName(ShapePart),
}

/// A part of a graph file.
#[derive(Clone, Copy, Debug, PartialEq, Eq)]
pub enum ShapePart {
    /// The whole value.
    Top,
    /// The node at this place.
    Node(u32),
    /// The edge at this place.
    Edge(u32),
}
