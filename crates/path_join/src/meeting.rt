ghost use Rattle.std.specs.Prelude.{◌≡◌, ◌<◌, ◌^◌, IfOk, length};
ghost use Rattle.partial_path.specs.Rules.{start_spot};
ghost use Rattle.path_join.specs.{Joining.{asked_scopes, known_with, wide_pre}, Tables.{kept_if, meet_made}};

use crate::known::{Known, add};
use partial_path::{End, PartialPath, Spot, Start};
use stacks_vars::{Listed, NodeAt, SymOut, SymPat};
use std::alloc::{AllocError, Global};

/// The scopes that a path with this start and these fixed scopes asks for of the scope stack that a path
/// with this end leaves; None where the one doesn't end where the other starts.
pub(crate) fn asked_scopes(
    alloc: Global,
    end: End,
    start: Start,
    fixed: &[NodeAt],
) -> Result<Option<Listed<NodeAt>>, AllocError>
    ensures { IfOk result (λ asked. asked ≡ asked_scopes end (start_spot start) fixed.now) }
{
    let mut asked = Listed::new(alloc);
    match (end, start_spot(start)) {
        (End::At(end), start) if end.same(start) => {}
        (End::ByStack, Spot::At(node)) => asked.push(node)?,
        _ => return Ok(None),
    }
    add(&mut asked, fixed)?;
    Ok(Some(asked))
}

/// The spot at which a path begins.
pub(crate) fn start_spot(start: Start) -> Spot
    ensures { result ≡ start_spot start }
{
    match start {
        Start::Before(node) => Spot::At(node),
        Start::After(spot) => spot,
    }
}

/// What is known of the first path's variables once all is met that the second asks for, its scopes being
/// these; None where it isn't met. It costs what the second path asks for.
pub(crate) fn known_with(
    alloc: Global,
    p: &PartialPath,
    q: &PartialPath,
    asked: &[NodeAt],
) -> Result<Option<Known>, AllocError>
    requires { length (wide_pre p.now q.now) < 2 ^ 32 }
    ensures { IfOk result (λ known. known ≡ known_with p.now q.now asked.now) }
{
    let pats = q.pre().symbols.items();
    let outs = p.post().symbols.items();
    let handed = pats.len().saturating_sub(outs.len());
    let mut known = Known::nothing(alloc, p.pre().symbols.len() + handed)?;
    if !meet_made(&mut known, pats, outs)? {
        return Ok(None);
    }
    if !known.meet_scopes(asked, &p.post().scopes)? {
        return Ok(None);
    }
    Ok(Some(known))
}

/// The symbols asked for are met by those that are made, as far as both go; false where they differ.
fn meet_made(known: &mut Known, pats: &[SymPat], outs: &[SymOut]) -> Result<bool, AllocError>
    ensures { IfOk result (λ met. meet_made known.old pats.now outs.now ≡ kept_if met known.new) }
{
    for (pat, out) in pats.iter().zip(outs) {
        if !known.meet_symbol(pat, out)? {
            return Ok(false);
        }
    }
    Ok(true)
}
