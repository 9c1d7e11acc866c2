//! What a text is made of: tokens, and the faults that stop the reading.

use crate::tree::Word;
use std::alloc::AllocError;
use std::fmt;

/// The first fault of a text, with its line, counted from 0.
#[derive(Clone, Copy, Debug, PartialEq, Eq)]
pub enum PyFault {
    /// A byte from 128 up outside comments and strings.
    NotAscii(u32),
    /// A line that goes back to a column where no open block begins.
    BadIndent(u32),
    /// A byte that begins no token, a string that isn't closed on its line, a bracket that doesn't
    /// match or isn't closed, or a lone carriage return.
    BadToken(u32),
    /// A form of Python that is left out.
    Unsupported(u32),
    /// A token with which no module goes on.
    Expected(u32),
    /// More than 64 brackets and blocks open at once.
    TooDeep(u32),
    /// Memory ran out.
    NoMemory,
}

impl fmt::Display for PyFault {
    fn fmt<W: fmt::Write>(&self, f: &mut fmt::Formatter<W>) -> fmt::Result {
        match self {
            PyFault::NotAscii(line) => write!(f, "line {line} has a byte that isn't ASCII"),
            PyFault::BadIndent(line) => write!(f, "line {line} goes back to no open block"),
            PyFault::BadToken(line) => write!(f, "line {line} has no token there"),
            PyFault::Unsupported(line) => write!(f, "line {line} has a form that is left out"),
            PyFault::Expected(line) => write!(f, "no module goes on as line {line} does"),
            PyFault::TooDeep(line) => write!(f, "line {line} nests too deep"),
            PyFault::NoMemory => f.write_str("memory was refused"),
        }
    }
}

/// Which token it is, by its name: a class of words, a keyword or a sign.
#[derive(Clone, Copy, Debug, PartialEq, Eq)]
pub enum Mark {
    /// A name that is no keyword.
    Name,
    Number,
    /// A string.
    Text,
    /// The end of a line that counts.
    Newline,
    /// The begin of a block.
    Indent,
    /// The end of a block.
    Dedent,
    /// The end of the text.
    End,
    /// The word `False`.
    FalseWord,
    /// The word `None`.
    NoneWord,
    /// The word `True`.
    TrueWord,
    And,
    As,
    Break,
    Class,
    Continue,
    Def,
    Elif,
    Else,
    For,
    From,
    If,
    Import,
    In,
    Is,
    Not,
    Or,
    Pass,
    Return,
    While,
    /// A keyword or a sign of Python that no rule of the grammar has, other than a curly bracket.
    Foreign,
    OpenRound,
    CloseRound,
    OpenSquare,
    CloseSquare,
    OpenCurly,
    CloseCurly,
    Comma,
    Colon,
    Dot,
    Assign,
    Plus,
    Minus,
    Star,
    Slash,
    DoubleSlash,
    Percent,
    Power,
    Ampersand,
    Bar,
    Caret,
    Tilde,
    ShiftLeft,
    ShiftRight,
    Less,
    Greater,
    LessEqual,
    GreaterEqual,
    EqualEqual,
    NotEqual,
}

/// A token, of which definitions say what a text is made of. A word other than a name has its line alone:
/// its text is empty and its columns are 0.
#[derive(Debug, Drop)]
pub struct Token<'a> {
    pub mark: Mark,
    /// Where it stands, and a name's text.
    pub word: Word<'a>,
}

impl From<AllocError> for PyFault {
    ghost use Rattle.std.specs.Prelude.{◌≡◌};
    ghost use Rattle.py_subset.specs.declared.token.PyFault.TheVariants.{NoMemory};

    ghost from_gives = { λ _ e. e ≡ NoMemory };

    fn from(_: AllocError) -> PyFault {
        PyFault::NoMemory
    }
}
