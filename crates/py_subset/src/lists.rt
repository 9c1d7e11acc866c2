//! Lists of parts with a mark between.

ghost use Rattle.std.specs.Prelude.{◌≡◌};
ghost use Rattle.py_subset.specs.{Parsers.{Gives, both, star, several, ◌▹◌}, Parsing.{is}, Trees.{cons}};

use crate::Items;
use crate::token::Mark;
use crate::token_list::{Parsed, Stop, Tokens};
use crate::tree::Word;

/// What stands in a list with a mark between, by the rule of the grammar that reads it.
pub(crate) trait Part<'a>: Drop {
    ghost use Rattle.std.specs.Prelude.{ℕ};
    ghost use Rattle.py_subset.specs.Parsers.{Parser, Gives};

    ghost rule: { ℕ → Parser Self };

    fn read(tokens: &mut Tokens<'a>, turns: usize) -> Parsed<Self>
        ensures { Gives result tokens.new (rule turns tokens.old) };
}

impl<'a> Part<'a> for Word<'a> {
    ghost use Rattle.py_subset.specs.Parsers.{name};

    ghost rule = { λ _. name };

    fn read(tokens: &mut Tokens<'a>, _turns: usize) -> Parsed<Word<'a>> {
        tokens.name()
    }
}

/// A further part behind the mark.
fn next_part<'a, T: Part<'a>>(tokens: &mut Tokens<'a>, turns: usize, between: Mark) -> Parsed<T>
    ensures { Gives result tokens.new ((between ▹ T.rule turns) tokens.old) }
{
    tokens.take(between)?;
    T::read(tokens, turns)
}

/// At least one part, with the mark between.
#[tactic(auto, using(crate::proofs::Turns::turns))]
pub(crate) fn parts<'a, T: Part<'a>>(
    tokens: &mut Tokens<'a>,
    turns: usize,
    between: Mark,
) -> Parsed<Items<T>>
    ensures { Gives result tokens.new
        (both cons (T.rule turns) (star (is between) (between ▹ T.rule turns) turns) tokens.old) }
{
    let mut list = tokens.list();
    list.push(T::read(tokens, turns)?)?;
    for _turn in 0..turns {
        if !tokens.sees(between) {
            return Ok(list);
        }
        list.push(next_part(tokens, turns, between)?)?;
    }
    Err(Stop::Refused)
}

/// At least one part that begins with a name, with commas between, and whether a comma stands at the end.
#[tactic(auto, using(crate::proofs::Turns::turns))]
pub(crate) fn named_parts<'a, T: Part<'a>>(
    tokens: &mut Tokens<'a>,
    turns: usize,
) -> Parsed<(Items<T>, bool)>
    ensures { Gives result tokens.new (several (is Mark.Name) (T.rule turns) turns tokens.old) }
{
    let mut list = tokens.list();
    list.push(T::read(tokens, turns)?)?;
    for _turn in 0..turns {
        if !tokens.sees(Mark::Comma) {
            return Ok((list, false));
        }
        tokens.pass();
        if !tokens.sees(Mark::Name) {
            return Ok((list, true));
        }
        list.push(T::read(tokens, turns)?)?;
    }
    Err(Stop::Refused)
}
