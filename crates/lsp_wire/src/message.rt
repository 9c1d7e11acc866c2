use crate::Text;

/// What the body of a frame is.
#[derive(Debug, Drop)]
pub enum Body {
    /// No JSON in UTF-8, or JSON that nests deeper than 127.
    NotJson,
    /// No object; or an object whose `method` isn't a text, or that has a method and an `id` that is none.
    Invalid,
    /// An object without a method, as the reply to a request is: nothing is asked for.
    Passed,
    /// A request, which has an id, or a notification, which has none.
    Message(Message),
}

/// A request or a notification.
#[derive(Debug, Drop)]
pub struct Message {
    pub id: Option<Id>,
    pub asks: Asks,
}

/// The id of a request.
#[derive(Debug, Drop)]
pub enum Id {
    Text(Text),
    Number(i32),
}

/// What a message asks for.
#[derive(Debug, Drop)]
pub enum Asks {
    /// Begin the session, over the project at this URI if one is named.
    Initialize {
        root: Option<Text>,
    },
    /// The client has begun.
    Initialized,
    /// Answer no more requests.
    Shutdown,
    /// End.
    Exit,
    /// The document has this text from now on, and is open.
    DidOpen {
        uri: Text,
        text: Text,
    },
    /// The open document has this text from now on, or its text stays.
    DidChange {
        uri: Text,
        text: Option<Text>,
    },
    /// The document is no longer open.
    DidClose {
        uri: Text,
    },
    /// Where is what stands there defined?
    Definition {
        uri: Text,
        at: Position,
    },
    /// Where is it referred to? The declaration counts among these places where that is said.
    References {
        uri: Text,
        at: Position,
        declaration: bool,
    },
    /// A method that isn't known.
    Unknown,
    /// This method, without the parameters that it needs.
    WrongParams(Method),
}

/// A place in a text: a line and, in it, a number of code units of UTF-16, both from 0.
#[derive(Clone, Copy, Debug, PartialEq, Eq)]
pub struct Position {
    pub line: u32,
    pub character: u32,
}

/// A method that is known.
#[derive(Clone, Copy, Debug, PartialEq, Eq)]
pub enum Method {
    /// `initialize`
    Initialize,
    /// `initialized`
    Initialized,
    /// `shutdown`
    Shutdown,
    /// `exit`
    Exit,
    /// `textDocument/didOpen`
    DidOpen,
    /// `textDocument/didChange`
    DidChange,
    /// `textDocument/didClose`
    DidClose,
    /// `textDocument/definition`
    Definition,
    /// `textDocument/references`
    References,
}
