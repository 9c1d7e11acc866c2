//! Statements with blocks, each by its first word.

ghost use Rattle.std.specs.Prelude.{◌≡◌};
ghost use Rattle.py_subset.specs.Parsers.{Gives, ◌▹◌};
ghost use Rattle.py_subset.specs.Statements as spec;

use crate::Items;
use crate::block::{colon_suite, otherwise};
use crate::expr::{expr, exprs};
use crate::header::{bases, parameters};
use crate::token::Mark;
use crate::token_list::{Parsed, Stop, Tokens};
use crate::tree::{Arm, Stmt};

/// The blocks of a loop.
#[tactic(auto, unfolding(crate::specs::Statements::bodies))]
#[cycle(blocks)]
fn bodies<'a>(
    tokens: &mut Tokens<'a>,
    turns: usize,
    depth: usize,
) -> Parsed<(Items<Stmt<'a>>, Items<Stmt<'a>>)>
    ensures { Gives result tokens.new (spec.bodies turns (spec.block turns depth) tokens.old) }
{
    let body = colon_suite(tokens, turns, depth)?;
    let otherwise = otherwise(tokens, turns, depth)?;
    Ok((body, otherwise))
}

/// A condition and its block.
#[tactic(auto, unfolding(crate::specs::Statements::arm))]
#[cycle(blocks)]
fn arm<'a>(tokens: &mut Tokens<'a>, turns: usize, depth: usize) -> Parsed<Arm<'a>>
    ensures { Gives result tokens.new (spec.arm turns (spec.block turns depth) tokens.old) }
{
    let condition = expr(tokens, turns, turns)?;
    let body = colon_suite(tokens, turns, depth)?;
    Ok(Arm { condition, body })
}

/// A further one behind `elif`.
#[cycle(blocks)]
fn next_arm<'a>(tokens: &mut Tokens<'a>, turns: usize, depth: usize) -> Parsed<Arm<'a>>
    ensures { Gives result tokens.new
        ((Mark.Elif ▹ spec.arm turns (spec.block turns depth)) tokens.old) }
{
    tokens.take(Mark::Elif)?;
    arm(tokens, turns, depth)
}

/// All arms of an `if`.
#[tactic(auto, using(crate::proofs::Turns::turns), unfolding(crate::specs::Statements::arms))]
#[cycle(blocks)]
fn arms<'a>(tokens: &mut Tokens<'a>, turns: usize, depth: usize) -> Parsed<Items<Arm<'a>>>
    ensures { Gives result tokens.new (spec.arms turns (spec.block turns depth) tokens.old) }
{
    let mut list = tokens.list();
    list.push(arm(tokens, turns, depth)?)?;
    for _turn in 0..turns {
        if !tokens.sees(Mark::Elif) {
            return Ok(list);
        }
        list.push(next_arm(tokens, turns, depth)?)?;
    }
    Err(Stop::Refused)
}

/// `if ..`
#[tactic(auto, unfolding(crate::specs::Statements::if_stmt))]
#[cycle(blocks)]
pub fn if_stmt<'a>(tokens: &mut Tokens<'a>, turns: usize, depth: usize) -> Parsed<Stmt<'a>>
    ensures { Gives result tokens.new (spec.if_stmt turns (spec.block turns depth) tokens.old) }
{
    tokens.take(Mark::If)?;
    let arms = arms(tokens, turns, depth)?;
    let otherwise = otherwise(tokens, turns, depth)?;
    Ok(Stmt::If { arms, otherwise })
}

/// `while ..`
#[tactic(auto, unfolding(crate::specs::Statements::while_stmt))]
#[cycle(blocks)]
pub fn while_stmt<'a>(tokens: &mut Tokens<'a>, turns: usize, depth: usize) -> Parsed<Stmt<'a>>
    ensures { Gives result tokens.new (spec.while_stmt turns (spec.block turns depth) tokens.old) }
{
    tokens.take(Mark::While)?;
    let condition = expr(tokens, turns, turns)?;
    let (body, otherwise) = bodies(tokens, turns, depth)?;
    Ok(Stmt::While {
        condition,
        body,
        otherwise,
    })
}

/// `for ..`
#[tactic(auto, unfolding(crate::specs::Statements::for_stmt))]
#[cycle(blocks)]
pub fn for_stmt<'a>(tokens: &mut Tokens<'a>, turns: usize, depth: usize) -> Parsed<Stmt<'a>>
    ensures { Gives result tokens.new (spec.for_stmt turns (spec.block turns depth) tokens.old) }
{
    tokens.take(Mark::For)?;
    let name = tokens.name()?;
    tokens.take(Mark::In)?;
    let items = exprs(tokens, turns, turns)?;
    let (body, otherwise) = bodies(tokens, turns, depth)?;
    Ok(Stmt::For {
        name,
        items,
        body,
        otherwise,
    })
}

/// `def ..`
#[tactic(auto, unfolding(crate::specs::Statements::def_stmt))]
#[cycle(blocks)]
pub fn def_stmt<'a>(tokens: &mut Tokens<'a>, turns: usize, depth: usize) -> Parsed<Stmt<'a>>
    ensures { Gives result tokens.new (spec.def_stmt turns (spec.block turns depth) tokens.old) }
{
    tokens.take(Mark::Def)?;
    let name = tokens.name()?;
    let parameters = parameters(tokens, turns)?;
    let body = colon_suite(tokens, turns, depth)?;
    Ok(Stmt::Def {
        name,
        parameters,
        body,
    })
}

/// `class ..`
#[tactic(auto, unfolding(crate::specs::Statements::class_stmt))]
#[cycle(blocks)]
pub fn class_stmt<'a>(tokens: &mut Tokens<'a>, turns: usize, depth: usize) -> Parsed<Stmt<'a>>
    ensures { Gives result tokens.new (spec.class_stmt turns (spec.block turns depth) tokens.old) }
{
    tokens.take(Mark::Class)?;
    let name = tokens.name()?;
    let bases = bases(tokens, turns)?;
    let body = colon_suite(tokens, turns, depth)?;
    Ok(Stmt::Class { name, bases, body })
}
