//! The syntax tree of a module. What the translation of a module doesn't need isn't kept: brackets
//! round imported names, an empty pair of brackets after a class's name, a comma at the end of
//! imported names, parameters or arguments, whether a suite stands on the line of its colon, the
//! places of tokens other than names, and the texts of numbers and strings.

ghost use Rattle.std.specs.Prelude.{◌≡◌};

use crate::Items;
use std::marker::Model;

/// The text of a name, seen as its bytes. It stands in the text that was read.
#[derive(Debug, Drop)]
pub struct PyText<'a> {
    text: &'a str,
}

impl<'a> Model for PyText<'a> {
    ghost use Rattle.std.specs.Prelude.{List, ℕ};

    ghost Value = { List ℕ };

    ghost view = { λ t. t.text.now };
}

impl<'a> PyText<'a> {
    /// A text of these characters. It takes no memory.
    pub fn of(text: &'a str) -> PyText<'a>
        ensures { result ≡ text.now }
    {
        PyText { text }
    }

    /// The characters.
    pub fn as_str(&self) -> &str
        ensures { result.now ≡ self.now }
    {
        self.text
    }
}

/// A name where it stands. Lines are counted from 0, columns in bytes from 0.
#[derive(Debug, Drop)]
pub struct Word<'a> {
    pub text: PyText<'a>,
    pub line: u32,
    pub from_column: u32,
    /// The column after the name.
    pub to_column: u32,
}

/// A whole module.
#[derive(Drop)]
pub struct Module<'a> {
    pub body: Items<Stmt<'a>>,
}

/// A statement. An `otherwise` is empty where there is no `else`.
#[cycle(stmt)]
#[derive(Drop)]
pub enum Stmt<'a> {
    Import(Items<ImportItem<'a>>),
    From(Items<Word<'a>>, Items<FromItem<'a>>),
    /// `from .. import *`
    FromAll(Items<Word<'a>>),
    Assign(Target<'a>, Exprs<'a>),
    Evaluate(Exprs<'a>),
    Return(Option<Exprs<'a>>),
    Pass,
    Break,
    Continue,
    If {
        /// The `if`, then its `elif` parts in order.
        arms: Items<Arm<'a>>,
        otherwise: Items<Stmt<'a>>,
    },
    While {
        condition: Expr<'a>,
        body: Items<Stmt<'a>>,
        otherwise: Items<Stmt<'a>>,
    },
    For {
        name: Word<'a>,
        items: Exprs<'a>,
        body: Items<Stmt<'a>>,
        otherwise: Items<Stmt<'a>>,
    },
    Def {
        name: Word<'a>,
        parameters: Items<Word<'a>>,
        body: Items<Stmt<'a>>,
    },
    Class {
        name: Word<'a>,
        bases: Items<Expr<'a>>,
        body: Items<Stmt<'a>>,
    },
}

/// A condition and its block.
#[cycle(stmt)]
#[derive(Drop)]
pub struct Arm<'a> {
    pub condition: Expr<'a>,
    pub body: Items<Stmt<'a>>,
}

/// `a.b as c`
#[derive(Drop)]
pub struct ImportItem<'a> {
    pub dotted: Items<Word<'a>>,
    pub alias: Option<Word<'a>>,
}

/// `a as b`
#[derive(Drop)]
pub struct FromItem<'a> {
    pub name: Word<'a>,
    pub alias: Option<Word<'a>>,
}

/// What stands before the `=` of an assignment.
#[derive(Drop)]
pub enum Target<'a> {
    Name(Word<'a>),
    Member(Primary<'a>, Word<'a>),
}

/// Expressions with commas between.
#[cycle(expr)]
#[derive(Drop)]
pub struct Exprs<'a> {
    pub items: Items<Expr<'a>>,
    pub last_comma: bool,
}

/// Operands with operators between. How strongly an operator binds isn't kept.
#[cycle(expr)]
#[derive(Drop)]
pub struct Expr<'a> {
    pub first: Operand<'a>,
    pub rest: Items<Joined<'a>>,
}

/// An operator and the operand after it.
#[cycle(expr)]
#[derive(Drop)]
pub struct Joined<'a> {
    pub op: BinOp,
    pub operand: Operand<'a>,
}

/// A primary with the signs before it.
#[cycle(expr)]
#[derive(Drop)]
pub struct Operand<'a> {
    pub signs: Items<Sign>,
    pub primary: Primary<'a>,
}

/// What stands before an operand.
#[derive(Clone, Copy, Debug, PartialEq, Eq)]
pub enum Sign {
    Not,
    Minus,
    Plus,
    Invert,
}

/// An operator between operands.
#[derive(Clone, Copy, Debug, PartialEq, Eq)]
pub enum BinOp {
    And,
    Or,
    IsIn,
    NotIn,
    Is,
    IsNot,
    Add,
    Sub,
    Mul,
    Div,
    FloorDiv,
    Rem,
    Power,
    BitAnd,
    BitOr,
    BitXor,
    ShiftLeft,
    ShiftRight,
    Less,
    Greater,
    LessEqual,
    GreaterEqual,
    Equal,
    NotEqual,
}

/// An atom with the members and calls after it.
#[cycle(expr)]
#[derive(Drop)]
pub struct Primary<'a> {
    pub atom: Atom<'a>,
    pub posts: Items<Postfix<'a>>,
}

/// The innermost part of an expression.
#[cycle(expr)]
#[derive(Drop)]
pub enum Atom<'a> {
    Name(Word<'a>),
    Number,
    Text,
    TrueWord,
    FalseWord,
    NoneWord,
    Round(Option<Exprs<'a>>),
    Square(Option<Exprs<'a>>),
}

/// What stands after a primary.
#[cycle(expr)]
#[derive(Drop)]
pub enum Postfix<'a> {
    Member(Word<'a>),
    Call(Items<Expr<'a>>),
}
