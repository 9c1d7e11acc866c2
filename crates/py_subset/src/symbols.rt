//! What single tokens of an expression stand for.

ghost use Rattle.std.specs.Prelude.{◌≡◌};
ghost use Rattle.py_subset.specs.Parsers.{Gives, marked, star};
ghost use Rattle.py_subset.specs.Trees as tree;
ghost use Rattle.py_subset.specs.Parsing as spec;

use crate::Items;
use crate::mark::same;
use crate::token::Mark;
use crate::token_list::{Parsed, Stop, Tokens};
use crate::tree::{Atom, BinOp, Expr, Exprs, Sign};

/// Whether an expression may begin with this token.
#[tactic(auto, unfolding(crate::specs::Parsing::begins_expr))]
pub fn begins_expr(mark: Mark) -> bool
    ensures { result ≡ spec.begins_expr mark }
{
    match mark {
        Mark::Name
        | Mark::Number
        | Mark::Text
        | Mark::TrueWord
        | Mark::FalseWord
        | Mark::NoneWord
        | Mark::OpenRound
        | Mark::OpenSquare
        | Mark::Not
        | Mark::Minus
        | Mark::Plus
        | Mark::Tilde => true,
        _ => false,
    }
}

/// The sign that may stand before an operand.
fn sign_of(mark: Mark) -> Option<Sign>
    ensures { result ≡ tree.sign_of mark }
{
    match mark {
        Mark::Not => Some(Sign::Not),
        Mark::Minus => Some(Sign::Minus),
        Mark::Plus => Some(Sign::Plus),
        Mark::Tilde => Some(Sign::Invert),
        _ => None,
    }
}

/// The operators of one token but `is`, which may go on with `not`.
pub fn op_of(mark: Mark) -> Option<BinOp>
    ensures { result ≡ tree.op_of mark }
{
    match mark {
        Mark::And => Some(BinOp::And),
        Mark::Or => Some(BinOp::Or),
        Mark::In => Some(BinOp::IsIn),
        Mark::Plus => Some(BinOp::Add),
        Mark::Minus => Some(BinOp::Sub),
        Mark::Star => Some(BinOp::Mul),
        Mark::Slash => Some(BinOp::Div),
        Mark::DoubleSlash => Some(BinOp::FloorDiv),
        Mark::Percent => Some(BinOp::Rem),
        Mark::Power => Some(BinOp::Power),
        Mark::Ampersand => Some(BinOp::BitAnd),
        Mark::Bar => Some(BinOp::BitOr),
        Mark::Caret => Some(BinOp::BitXor),
        Mark::ShiftLeft => Some(BinOp::ShiftLeft),
        Mark::ShiftRight => Some(BinOp::ShiftRight),
        Mark::Less => Some(BinOp::Less),
        Mark::Greater => Some(BinOp::Greater),
        Mark::LessEqual => Some(BinOp::LessEqual),
        Mark::GreaterEqual => Some(BinOp::GreaterEqual),
        Mark::EqualEqual => Some(BinOp::Equal),
        Mark::NotEqual => Some(BinOp::NotEqual),
        _ => None,
    }
}

/// The atoms of one token but a name.
pub fn constant_of<'a>(mark: Mark) -> Option<Atom<'a>>
    ensures { result ≡ tree.constant_of mark }
{
    match mark {
        Mark::Number => Some(Atom::Number),
        Mark::Text => Some(Atom::Text),
        Mark::TrueWord => Some(Atom::TrueWord),
        Mark::FalseWord => Some(Atom::FalseWord),
        Mark::NoneWord => Some(Atom::NoneWord),
        _ => None,
    }
}

/// Whether an operator begins with this token.
#[tactic(auto, unfolding(crate::specs::Parsing::begins_joined))]
pub fn begins_joined(mark: Mark) -> bool
    ensures { result ≡ spec.begins_joined mark }
{
    op_of(mark).is_some() || same(mark, Mark::Not) || same(mark, Mark::Is)
}

/// Whether a member or a call begins with this token.
#[tactic(auto, unfolding(crate::specs::Parsing::begins_postfix))]
pub fn begins_postfix(mark: Mark) -> bool
    ensures { result ≡ spec.begins_postfix mark }
{
    same(mark, Mark::Dot) || same(mark, Mark::OpenRound)
}

/// The signs before an operand.
#[tactic(auto, using(crate::proofs::Turns::turns))]
pub fn signs<'a>(tokens: &mut Tokens<'a>, turns: usize) -> Parsed<Items<Sign>>
    ensures { Gives result tokens.new
        (star spec.begins_sign (marked tree.sign_of) turns tokens.old) }
{
    let mut signs = tokens.list();
    for _turn in 0..turns {
        let Some(sign) = sign_of(tokens.peek()) else {
            return Ok(signs);
        };
        tokens.pass();
        signs.push(sign)?;
    }
    Err(Stop::Refused)
}

/// The expressions of an argument list, without whether a comma stands at the end, which changes nothing there.
pub fn arguments<'a>(tokens: &Tokens<'a>, inside: Option<Exprs<'a>>) -> Items<Expr<'a>>
    ensures { result ≡ tree.items_of inside.entry }
{
    match inside {
        Some(
            Exprs {
                items,
                last_comma: _,
            },
        ) => items,
        None => tokens.list(),
    }
}
