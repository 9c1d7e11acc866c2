//! Expressions. `depth` bounds how deeply brackets nest, and falls by one with each; the loops take a
//! token a turn, so that `turns`, the number of all tokens, is never used up.

ghost use Rattle.std.specs.Prelude.{◌≡◌};
ghost use Rattle.py_subset.specs.Parsers.{Gives, star, several};
ghost use Rattle.py_subset.specs.Parsing as spec;

use crate::Items;
use crate::primaries::primary;
use crate::symbols::{begins_expr, begins_joined, op_of, signs};
use crate::token::Mark;
use crate::token_list::{Parsed, Stop, Tokens};
use crate::tree::{BinOp, Expr, Exprs, Joined, Operand};

/// A primary with the signs before it.
#[tactic(auto, unfolding(crate::specs::Parsing::operand))]
#[cycle(nested)]
fn operand<'a>(tokens: &mut Tokens<'a>, turns: usize, depth: usize) -> Parsed<Operand<'a>>
    ensures { Gives result tokens.new (spec.operand turns (spec.exprs turns depth) tokens.old) }
{
    let signs = signs(tokens, turns)?;
    let primary = primary(tokens, turns, depth)?;
    Ok(Operand { signs, primary })
}

/// `not in` and its operand.
#[tactic(auto, unfolding(crate::specs::Parsing::negated))]
#[cycle(nested)]
fn negated<'a>(tokens: &mut Tokens<'a>, turns: usize, depth: usize) -> Parsed<Joined<'a>>
    ensures { Gives result tokens.new (spec.negated turns (spec.exprs turns depth) tokens.old) }
{
    tokens.take(Mark::Not)?;
    tokens.take(Mark::In)?;
    let operand = operand(tokens, turns, depth)?;
    Ok(Joined {
        op: BinOp::NotIn,
        operand,
    })
}

/// `is` or `is not`, and its operand.
#[tactic(auto, unfolding(crate::specs::Parsing::compared))]
#[cycle(nested)]
fn compared<'a>(tokens: &mut Tokens<'a>, turns: usize, depth: usize) -> Parsed<Joined<'a>>
    ensures { Gives result tokens.new (spec.compared turns (spec.exprs turns depth) tokens.old) }
{
    tokens.take(Mark::Is)?;
    if tokens.sees(Mark::Not) {
        tokens.take(Mark::Not)?;
        let operand = operand(tokens, turns, depth)?;
        return Ok(Joined {
            op: BinOp::IsNot,
            operand,
        });
    }
    let operand = operand(tokens, turns, depth)?;
    Ok(Joined {
        op: BinOp::Is,
        operand,
    })
}

/// An operator and its operand.
#[tactic(auto, unfolding(crate::specs::Parsing::joined))]
#[cycle(nested)]
fn joined<'a>(tokens: &mut Tokens<'a>, turns: usize, depth: usize) -> Parsed<Joined<'a>>
    ensures { Gives result tokens.new (spec.joined turns (spec.exprs turns depth) tokens.old) }
{
    if tokens.sees(Mark::Not) {
        return negated(tokens, turns, depth);
    }
    if tokens.sees(Mark::Is) {
        return compared(tokens, turns, depth);
    }
    let op = tokens.told(op_of(tokens.peek()))?;
    let operand = operand(tokens, turns, depth)?;
    Ok(Joined { op, operand })
}

/// Operators with their operands.
#[tactic(auto, using(crate::proofs::Turns::turns))]
#[cycle(nested)]
fn joins<'a>(tokens: &mut Tokens<'a>, turns: usize, depth: usize) -> Parsed<Items<Joined<'a>>>
    ensures { Gives result tokens.new
        (star spec.begins_joined (spec.joined turns (spec.exprs turns depth)) turns tokens.old) }
{
    let mut rest = tokens.list();
    for _turn in 0..turns {
        if !begins_joined(tokens.peek()) {
            return Ok(rest);
        }
        rest.push(joined(tokens, turns, depth)?)?;
    }
    Err(Stop::Refused)
}

/// Operands with operators between.
#[tactic(auto, unfolding(crate::specs::Parsing::expr))]
#[cycle(nested)]
pub fn expr<'a>(tokens: &mut Tokens<'a>, turns: usize, depth: usize) -> Parsed<Expr<'a>>
    ensures { Gives result tokens.new (spec.expr turns (spec.exprs turns depth) tokens.old) }
{
    let first = operand(tokens, turns, depth)?;
    let rest = joins(tokens, turns, depth)?;
    Ok(Expr { first, rest })
}

/// Expressions with commas between, and whether a comma stands at the end.
#[tactic(auto, using(crate::proofs::Turns::turns))]
#[cycle(nested)]
fn listed<'a>(
    tokens: &mut Tokens<'a>,
    turns: usize,
    depth: usize,
) -> Parsed<(Items<Expr<'a>>, bool)>
    ensures { Gives result tokens.new
        (several spec.begins_expr (spec.expr turns (spec.exprs turns depth)) turns tokens.old) }
{
    let mut items = tokens.list();
    items.push(expr(tokens, turns, depth)?)?;
    for _turn in 0..turns {
        if !tokens.sees(Mark::Comma) {
            return Ok((items, false));
        }
        tokens.pass();
        if !begins_expr(tokens.peek()) {
            return Ok((items, true));
        }
        items.push(expr(tokens, turns, depth)?)?;
    }
    Err(Stop::Refused)
}

/// Expressions with brackets nested no deeper than `depth`.
#[tactic(auto, unfolding(crate::specs::Parsing::exprs_with))]
#[cycle(nested)]
pub fn exprs<'a>(tokens: &mut Tokens<'a>, turns: usize, depth: usize) -> Parsed<Exprs<'a>>
    ensures { Gives result tokens.new (spec.exprs turns depth tokens.old) }
{
    let Some(inner) = depth.checked_sub(1) else {
        return Err(Stop::Refused);
    };
    let (items, last_comma) = listed(tokens, turns, inner)?;
    Ok(Exprs { items, last_comma })
}
