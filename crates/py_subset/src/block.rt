//! Blocks of statements. `depth` bounds how deeply blocks nest, and falls by one with each.

ghost use Rattle.std.specs.Prelude.{◌≡◌};
ghost use Rattle.py_subset.specs.Parsers.{Gives, ◌▹◌};
ghost use Rattle.py_subset.specs.Statements as spec;

use crate::Items;
use crate::compound::{class_stmt, def_stmt, for_stmt, if_stmt, while_stmt};
use crate::header::begins_stmt;
use crate::simple::simple_line;
use crate::token::Mark;
use crate::token_list::{Parsed, Stop, Tokens};
use crate::tree::Stmt;

/// The block of a statement: on its line, or on lines of its own.
#[tactic(auto, unfolding(crate::specs::Statements::suite))]
#[cycle(blocks)]
fn suite<'a>(tokens: &mut Tokens<'a>, turns: usize, depth: usize) -> Parsed<Items<Stmt<'a>>>
    ensures { Gives result tokens.new (spec.suite turns (spec.block turns depth) tokens.old) }
{
    if tokens.sees(Mark::Newline) {
        tokens.take(Mark::Newline)?;
        tokens.take(Mark::Indent)?;
        let body = block(tokens, turns, depth)?;
        tokens.take(Mark::Dedent)?;
        return Ok(body);
    }
    let mut body = tokens.list();
    body.push(simple_line(tokens, turns)?)?;
    Ok(body)
}

/// A colon and the block behind it.
#[cycle(blocks)]
pub fn colon_suite<'a>(
    tokens: &mut Tokens<'a>,
    turns: usize,
    depth: usize,
) -> Parsed<Items<Stmt<'a>>>
    ensures { Gives result tokens.new
        ((Mark.Colon ▹ spec.suite turns (spec.block turns depth)) tokens.old) }
{
    tokens.take(Mark::Colon)?;
    suite(tokens, turns, depth)
}

/// The block behind `else`, empty where there is none.
#[tactic(auto, unfolding(crate::specs::Statements::otherwise))]
#[cycle(blocks)]
pub fn otherwise<'a>(tokens: &mut Tokens<'a>, turns: usize, depth: usize) -> Parsed<Items<Stmt<'a>>>
    ensures { Gives result tokens.new (spec.otherwise turns (spec.block turns depth) tokens.old) }
{
    if !tokens.sees(Mark::Else) {
        return Ok(tokens.list());
    }
    tokens.take(Mark::Else)?;
    colon_suite(tokens, turns, depth)
}

/// A statement with its blocks.
#[tactic(auto, unfolding(crate::specs::Statements::stmt))]
#[cycle(blocks)]
fn stmt<'a>(tokens: &mut Tokens<'a>, turns: usize, depth: usize) -> Parsed<Stmt<'a>>
    ensures { Gives result tokens.new (spec.stmt turns (spec.block turns depth) tokens.old) }
{
    if tokens.sees(Mark::If) {
        return if_stmt(tokens, turns, depth);
    }
    if tokens.sees(Mark::While) {
        return while_stmt(tokens, turns, depth);
    }
    if tokens.sees(Mark::For) {
        return for_stmt(tokens, turns, depth);
    }
    if tokens.sees(Mark::Def) {
        return def_stmt(tokens, turns, depth);
    }
    if tokens.sees(Mark::Class) {
        return class_stmt(tokens, turns, depth);
    }
    simple_line(tokens, turns)
}

/// At least one statement.
#[tactic(auto, using(crate::proofs::Turns::turns), unfolding(crate::specs::Statements::stmts))]
#[cycle(blocks)]
fn stmts<'a>(tokens: &mut Tokens<'a>, turns: usize, depth: usize) -> Parsed<Items<Stmt<'a>>>
    ensures { Gives result tokens.new (spec.stmts turns (spec.block turns depth) tokens.old) }
{
    let mut list = tokens.list();
    list.push(stmt(tokens, turns, depth)?)?;
    for _turn in 0..turns {
        if !begins_stmt(tokens.peek()) {
            return Ok(list);
        }
        list.push(stmt(tokens, turns, depth)?)?;
    }
    Err(Stop::Refused)
}

/// Statements with blocks nested no deeper than `depth`.
#[cycle(blocks)]
fn block<'a>(tokens: &mut Tokens<'a>, turns: usize, depth: usize) -> Parsed<Items<Stmt<'a>>>
    ensures { Gives result tokens.new (spec.block turns depth tokens.old) }
{
    let Some(inner) = depth.checked_sub(1) else {
        return Err(Stop::Refused);
    };
    stmts(tokens, turns, inner)
}

/// The statements of a module, up to a token with which none begins.
#[tactic(auto, using(crate::proofs::Turns::turns))]
pub fn module_body<'a>(
    tokens: &mut Tokens<'a>,
    turns: usize,
    depth: usize,
) -> Parsed<Items<Stmt<'a>>>
    ensures { Gives result tokens.new (spec.module_of turns depth tokens.old) }
{
    let mut list = tokens.list();
    for _turn in 0..turns {
        if !begins_stmt(tokens.peek()) {
            return Ok(list);
        }
        list.push(stmt(tokens, turns, depth)?)?;
    }
    Err(Stop::Refused)
}
