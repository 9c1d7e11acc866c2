//! What stands before the colon of a block.

ghost use Rattle.std.specs.Prelude.{◌≡◌};
ghost use Rattle.py_subset.specs.Parsers.{Gives};
ghost use Rattle.py_subset.specs.Statements as spec;

use crate::Items;
use crate::lists::named_parts;
use crate::primaries::in_round;
use crate::symbols::{arguments, begins_expr};
use crate::token::Mark;
use crate::token_list::{Parsed, Tokens};
use crate::tree::{Expr, Word};

/// Whether a statement may begin with this token: with its first word, or as an expression.
#[tactic(auto, unfolding(crate::specs::Statements::begins_stmt))]
pub fn begins_stmt(mark: Mark) -> bool
    ensures { result ≡ spec.begins_stmt mark }
{
    match mark {
        Mark::Import
        | Mark::From
        | Mark::Return
        | Mark::Pass
        | Mark::Break
        | Mark::Continue
        | Mark::If
        | Mark::While
        | Mark::For
        | Mark::Def
        | Mark::Class => true,
        _ => begins_expr(mark),
    }
}

/// The parameters of a function.
#[tactic(auto, unfolding(crate::specs::Statements::parameters))]
pub fn parameters<'a>(tokens: &mut Tokens<'a>, turns: usize) -> Parsed<Items<Word<'a>>>
    ensures { Gives result tokens.new (spec.parameters turns tokens.old) }
{
    tokens.take(Mark::OpenRound)?;
    if !tokens.sees(Mark::Name) {
        tokens.take(Mark::CloseRound)?;
        return Ok(tokens.list());
    }
    let (list, _) = named_parts(tokens, turns)?;
    tokens.take(Mark::CloseRound)?;
    Ok(list)
}

/// The bases of a class.
#[tactic(auto, unfolding(crate::specs::Statements::bases))]
pub fn bases<'a>(tokens: &mut Tokens<'a>, turns: usize) -> Parsed<Items<Expr<'a>>>
    ensures { Gives result tokens.new (spec.bases turns tokens.old) }
{
    if !tokens.sees(Mark::OpenRound) {
        return Ok(tokens.list());
    }
    let inside = in_round(tokens, turns, turns)?;
    Ok(arguments(tokens, inside))
}
