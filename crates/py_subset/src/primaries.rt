//! Names, constants and brackets, with the members and calls after them.

ghost use Rattle.std.specs.Prelude.{◌≡◌};
ghost use Rattle.py_subset.specs.Parsers.{Gives, opt, star, ◌▹◌, ◌◃◌};
ghost use Rattle.py_subset.specs.Parsing as spec;

use crate::Items;
use crate::expr::exprs;
use crate::symbols::{arguments, begins_expr, begins_postfix, constant_of};
use crate::token::Mark;
use crate::token_list::{Parsed, Stop, Tokens};
use crate::tree::{Atom, Exprs, Postfix, Primary};

/// What stands in brackets, by their marks.
#[cycle(nested)]
fn bracketed<'a>(
    tokens: &mut Tokens<'a>,
    turns: usize,
    depth: usize,
    first: Mark,
    last: Mark,
) -> Parsed<Option<Exprs<'a>>>
    ensures { Gives result tokens.new
        ((first ▹ (opt spec.begins_expr (spec.exprs turns depth) ◃ last)) tokens.old) }
{
    tokens.take(first)?;
    if !begins_expr(tokens.peek()) {
        tokens.take(last)?;
        return Ok(None);
    }
    let inner = exprs(tokens, turns, depth)?;
    tokens.take(last)?;
    Ok(Some(inner))
}

/// What stands in round brackets.
#[tactic(auto, unfolding(crate::specs::Parsing::in_round))]
#[cycle(nested)]
pub fn in_round<'a>(
    tokens: &mut Tokens<'a>,
    turns: usize,
    depth: usize,
) -> Parsed<Option<Exprs<'a>>>
    ensures { Gives result tokens.new (spec.in_round turns (spec.exprs turns depth) tokens.old) }
{
    bracketed(tokens, turns, depth, Mark::OpenRound, Mark::CloseRound)
}

/// The innermost part of an expression.
#[tactic(auto, unfolding(crate::specs::Parsing::atom, crate::specs::Parsing::in_square))]
#[cycle(nested)]
fn atom<'a>(tokens: &mut Tokens<'a>, turns: usize, depth: usize) -> Parsed<Atom<'a>>
    ensures { Gives result tokens.new (spec.atom turns (spec.exprs turns depth) tokens.old) }
{
    if tokens.sees(Mark::Name) {
        return Ok(Atom::Name(tokens.name()?));
    }
    if tokens.sees(Mark::OpenRound) {
        return Ok(Atom::Round(in_round(tokens, turns, depth)?));
    }
    if tokens.sees(Mark::OpenSquare) {
        return Ok(Atom::Square(bracketed(
            tokens,
            turns,
            depth,
            Mark::OpenSquare,
            Mark::CloseSquare,
        )?));
    }
    tokens.told(constant_of(tokens.peek()))
}

/// A member or a call.
#[tactic(auto, unfolding(crate::specs::Parsing::postfix))]
#[cycle(nested)]
fn postfix<'a>(tokens: &mut Tokens<'a>, turns: usize, depth: usize) -> Parsed<Postfix<'a>>
    ensures { Gives result tokens.new (spec.postfix turns (spec.exprs turns depth) tokens.old) }
{
    if tokens.sees(Mark::Dot) {
        tokens.take(Mark::Dot)?;
        return Ok(Postfix::Member(tokens.name()?));
    }
    let inside = in_round(tokens, turns, depth)?;
    Ok(Postfix::Call(arguments(tokens, inside)))
}

/// Members and calls after an atom.
#[tactic(auto, using(crate::proofs::Turns::turns))]
#[cycle(nested)]
fn postfixes<'a>(tokens: &mut Tokens<'a>, turns: usize, depth: usize) -> Parsed<Items<Postfix<'a>>>
    ensures { Gives result tokens.new
        (star spec.begins_postfix (spec.postfix turns (spec.exprs turns depth)) turns tokens.old) }
{
    let mut posts = tokens.list();
    for _turn in 0..turns {
        if !begins_postfix(tokens.peek()) {
            return Ok(posts);
        }
        posts.push(postfix(tokens, turns, depth)?)?;
    }
    Err(Stop::Refused)
}

/// An atom with the members and calls after it.
#[tactic(auto, unfolding(crate::specs::Parsing::primary))]
#[cycle(nested)]
pub fn primary<'a>(tokens: &mut Tokens<'a>, turns: usize, depth: usize) -> Parsed<Primary<'a>>
    ensures { Gives result tokens.new (spec.primary turns (spec.exprs turns depth) tokens.old) }
{
    let atom = atom(tokens, turns, depth)?;
    let posts = postfixes(tokens, turns, depth)?;
    Ok(Primary { atom, posts })
}
