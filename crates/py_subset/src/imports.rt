//! Statements that import.

ghost use Rattle.std.specs.Prelude.{◌≡◌};
ghost use Rattle.py_subset.specs.Parsers.{Gives};
ghost use Rattle.py_subset.specs.Statements as spec;

use crate::Items;
use crate::lists::{Part, named_parts, parts};
use crate::token::Mark;
use crate::token_list::{Parsed, Tokens};
use crate::tree::{FromItem, ImportItem, Stmt, Word};

/// Names with dots between.
#[tactic(auto, unfolding(crate::specs::Statements::dotted))]
fn dotted<'a>(tokens: &mut Tokens<'a>, turns: usize) -> Parsed<Items<Word<'a>>>
    ensures { Gives result tokens.new (spec.dotted turns tokens.old) }
{
    parts(tokens, turns, Mark::Dot)
}

/// The name behind `as`, if there is one.
#[tactic(auto, unfolding(crate::specs::Statements::alias))]
fn alias<'a>(tokens: &mut Tokens<'a>, turns: usize) -> Parsed<Option<Word<'a>>>
    ensures { Gives result tokens.new (spec.alias turns tokens.old) }
{
    if !tokens.sees(Mark::As) {
        return Ok(None);
    }
    tokens.take(Mark::As)?;
    Ok(Some(tokens.name()?))
}

impl<'a> Part<'a> for ImportItem<'a> {
    ghost rule = { λ turns. spec.modas turns };

    /// An imported module and its name behind `as`.
    #[tactic(auto, unfolding(crate::specs::Statements::modas))]
    fn read(tokens: &mut Tokens<'a>, turns: usize) -> Parsed<ImportItem<'a>> {
        let dotted = dotted(tokens, turns)?;
        let alias = alias(tokens, turns)?;
        Ok(ImportItem { dotted, alias })
    }
}

/// `import ..`
#[tactic(auto, unfolding(crate::specs::Statements::import_stmt, crate::specs::Statements::modas_list))]
pub fn import_stmt<'a>(tokens: &mut Tokens<'a>, turns: usize) -> Parsed<Stmt<'a>>
    ensures { Gives result tokens.new (spec.import_stmt turns tokens.old) }
{
    tokens.take(Mark::Import)?;
    Ok(Stmt::Import(parts(tokens, turns, Mark::Comma)?))
}

impl<'a> Part<'a> for FromItem<'a> {
    ghost rule = { λ turns. spec.item turns };

    /// An imported name and its name behind `as`.
    #[tactic(auto, unfolding(crate::specs::Statements::item))]
    fn read(tokens: &mut Tokens<'a>, turns: usize) -> Parsed<FromItem<'a>> {
        let name = tokens.name()?;
        let alias = alias(tokens, turns)?;
        Ok(FromItem { name, alias })
    }
}

/// Imported names in brackets.
#[tactic(auto, unfolding(crate::specs::Statements::enclosed))]
fn enclosed<'a>(tokens: &mut Tokens<'a>, turns: usize) -> Parsed<Option<Items<FromItem<'a>>>>
    ensures { Gives result tokens.new (spec.enclosed turns tokens.old) }
{
    tokens.take(Mark::OpenRound)?;
    let (list, _) = named_parts(tokens, turns)?;
    tokens.take(Mark::CloseRound)?;
    Ok(Some(list))
}

/// What is imported: these names, or all.
#[tactic(auto, unfolding(crate::specs::Statements::imported, crate::specs::Statements::items))]
fn imported<'a>(tokens: &mut Tokens<'a>, turns: usize) -> Parsed<Option<Items<FromItem<'a>>>>
    ensures { Gives result tokens.new (spec.imported turns tokens.old) }
{
    if tokens.sees(Mark::Star) {
        tokens.take(Mark::Star)?;
        return Ok(None);
    }
    if tokens.sees(Mark::OpenRound) {
        return enclosed(tokens, turns);
    }
    Ok(Some(parts(tokens, turns, Mark::Comma)?))
}

/// `from .. import ..`
#[tactic(auto, unfolding(crate::specs::Statements::from_stmt))]
pub fn from_stmt<'a>(tokens: &mut Tokens<'a>, turns: usize) -> Parsed<Stmt<'a>>
    ensures { Gives result tokens.new (spec.from_stmt turns tokens.old) }
{
    tokens.take(Mark::From)?;
    let dotted = dotted(tokens, turns)?;
    tokens.take(Mark::Import)?;
    match imported(tokens, turns)? {
        Some(items) => Ok(Stmt::From(dotted, items)),
        None => Ok(Stmt::FromAll(dotted)),
    }
}
