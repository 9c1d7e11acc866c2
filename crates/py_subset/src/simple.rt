//! Statements of one line.

ghost use Rattle.std.specs.Prelude.{◌≡◌};
ghost use Rattle.py_subset.specs.Parsers.{Gives};
ghost use Rattle.py_subset.specs.Trees as tree;
ghost use Rattle.py_subset.specs.Statements as spec;

use crate::expr::exprs;
use crate::imports::{from_stmt, import_stmt};
use crate::symbols::begins_expr;
use crate::token::Mark;
use crate::token_list::{Parsed, Stop, Tokens};
use crate::tree::{Atom, Expr, Exprs, Operand, Postfix, Primary, Stmt, Target};

/// The statement that one token is.
fn jump_of<'a>(mark: Mark) -> Option<Stmt<'a>>
    ensures { result ≡ tree.jump_of mark }
{
    match mark {
        Mark::Pass => Some(Stmt::Pass),
        Mark::Break => Some(Stmt::Break),
        Mark::Continue => Some(Stmt::Continue),
        _ => None,
    }
}

/// The target that a primary is.
#[tactic(auto, unfolding(crate::specs::Trees::primary_target))]
fn primary_target<'a>(primary: Primary<'a>) -> Option<Target<'a>>
    ensures { result ≡ tree.primary_target primary.entry }
{
    let Primary { atom, mut posts } = primary;
    match posts.pop() {
        Some(post) => match post {
            Postfix::Member(word) => Some(Target::Member(Primary { atom, posts }, word)),
            Postfix::Call(_arguments) => None,
        },
        None => match atom {
            Atom::Name(word) => Some(Target::Name(word)),
            Atom::Number | Atom::Text | Atom::TrueWord | Atom::FalseWord | Atom::NoneWord => None,
            Atom::Round(_inner) | Atom::Square(_inner) => None,
        },
    }
}

/// The target that these expressions are.
#[tactic(auto, unfolding(crate::specs::Trees::target_of))]
fn target_of<'a>(exprs: Exprs<'a>) -> Option<Target<'a>>
    ensures { result ≡ tree.target_of exprs.entry }
{
    let Exprs {
        mut items,
        last_comma,
    } = exprs;
    if last_comma || items.len() != 1 {
        return None;
    }
    let Some(Expr { first, rest }) = items.pop() else {
        return None;
    };
    if rest.len() != 0 {
        return None;
    }
    let Operand { signs, primary } = first;
    if signs.len() != 0 {
        return None;
    }
    primary_target(primary)
}

/// An assignment, or expressions alone.
#[tactic(auto, unfolding(crate::specs::Statements::assign))]
fn assign<'a>(tokens: &mut Tokens<'a>, turns: usize) -> Parsed<Stmt<'a>>
    ensures { Gives result tokens.new (spec.assign turns tokens.old) }
{
    // Only behind it is it known whether what is left of `=` is a target: with one token of lookahead it is read as
    // expressions first.
    let left = exprs(tokens, turns, turns)?;
    if !tokens.sees(Mark::Assign) {
        return Ok(Stmt::Evaluate(left));
    }
    match target_of(left) {
        Some(target) => {
            tokens.take(Mark::Assign)?;
            Ok(Stmt::Assign(target, exprs(tokens, turns, turns)?))
        }
        None => Err(Stop::Refused),
    }
}

/// `return ..`
#[tactic(auto, unfolding(crate::specs::Statements::return_stmt))]
fn return_stmt<'a>(tokens: &mut Tokens<'a>, turns: usize) -> Parsed<Stmt<'a>>
    ensures { Gives result tokens.new (spec.return_stmt turns tokens.old) }
{
    tokens.take(Mark::Return)?;
    if !begins_expr(tokens.peek()) {
        return Ok(Stmt::Return(None));
    }
    Ok(Stmt::Return(Some(exprs(tokens, turns, turns)?)))
}

/// A statement of one line, but for the line's end.
#[tactic(auto, unfolding(crate::specs::Statements::simple, crate::specs::Statements::is_jump))]
fn simple<'a>(tokens: &mut Tokens<'a>, turns: usize) -> Parsed<Stmt<'a>>
    ensures { Gives result tokens.new (spec.simple turns tokens.old) }
{
    if tokens.sees(Mark::Import) {
        return import_stmt(tokens, turns);
    }
    if tokens.sees(Mark::From) {
        return from_stmt(tokens, turns);
    }
    if tokens.sees(Mark::Return) {
        return return_stmt(tokens, turns);
    }
    match jump_of(tokens.peek()) {
        Some(stmt) => {
            tokens.pass();
            Ok(stmt)
        }
        None => assign(tokens, turns),
    }
}

/// A statement of one line.
#[tactic(auto, unfolding(crate::specs::Statements::simple_line))]
pub fn simple_line<'a>(tokens: &mut Tokens<'a>, turns: usize) -> Parsed<Stmt<'a>>
    ensures { Gives result tokens.new (spec.simple_line turns tokens.old) }
{
    let stmt = simple(tokens, turns)?;
    tokens.take(Mark::Newline)?;
    Ok(stmt)
}
