ghost use Rattle.std.specs.Prelude.{◌≡◌, ◌++◌, map, IfOk, OnOk};
ghost use Rattle.path_join.specs.{Joining.{put_symbol, grown_symbol, longer_symbols, joined_pre}, Tables.{bound_of, joined_symbols}};

use crate::filling::{grown_symbol, longer_scopes, longer_symbol, put_symbol};
use crate::joint::Joint;
use crate::known::{Known, rest};
use stacks_vars::{Listed, NodeAt, Pre, SymOut, SymPat};
use std::alloc::{AllocError, Global};

/// The joined precondition.
#[tactic(auto, using(crate::proofs::CodeWritten::written))]
pub(crate) fn joined_pre(alloc: Global, joint: &Joint) -> Result<Pre, AllocError>
    ensures { IfOk result
        (λ pre. pre ≡ joined_pre joint.now.first joint.now.second joint.now.known) }
{
    let own = joint.first.pre();
    let asked = rest(
        joint.second.pre().symbols.items(),
        joint.first.post().symbols.len(),
    );
    let mut symbols = Vec::with_capacity(alloc, own.symbols.len() + asked.len())?;
    add_longer(
        alloc,
        &mut symbols,
        own.symbols.items(),
        joint.known.items(),
    )?;
    add_longer(
        alloc,
        &mut symbols,
        asked,
        rest(joint.known.items(), own.symbols.len()),
    )?;
    Ok(Pre {
        symbols: Listed::of(symbols),
        scopes: longer_scopes(alloc, &own.scopes, joint.known.front())?,
    })
}

/// Puts the symbols asked for behind the others, each with the scopes at its place.
fn add_longer(
    alloc: Global,
    symbols: &mut Vec<SymPat>,
    pats: &[SymPat],
    lists: &[Listed<NodeAt>],
) -> Result<(), AllocError>
    ensures { OnOk result (symbols.new.items ≡ symbols.old.items
        ++ longer_symbols pats.now lists.now) }
{
    for (pat, more) in pats.iter().zip(lists) {
        symbols.push(longer_symbol(alloc, pat, more.items())?)?;
    }
    Ok(())
}

/// The joined postcondition's symbols.
#[tactic(auto, using(crate::proofs::CodeWritten::written))]
pub(crate) fn joined_symbols(alloc: Global, joint: &Joint) -> Result<Listed<SymOut>, AllocError>
    ensures { IfOk result (λ symbols. symbols ≡ joined_symbols joint.now) }
{
    let made = joint.second.post().symbols.items();
    let left = rest(
        joint.first.post().symbols.items(),
        joint.second.pre().symbols.len(),
    );
    let mut symbols = Vec::with_capacity(alloc, made.len() + left.len())?;
    add_put(alloc, &mut symbols, joint, made)?;
    add_grown(alloc, &mut symbols, joint.known, left)?;
    Ok(Listed::of(symbols))
}

/// Puts symbols of the second path's output behind the others, in the variables of the first.
fn add_put(
    alloc: Global,
    symbols: &mut Vec<SymOut>,
    joint: &Joint,
    outs: &[SymOut],
) -> Result<(), AllocError>
    ensures { OnOk result (symbols.new.items ≡ symbols.old.items
        ++ map (put_symbol (bound_of joint.now)) outs.now) }
{
    for out in outs {
        symbols.push(put_symbol(alloc, joint, out)?)?;
    }
    Ok(())
}

/// Puts symbols of the first path's output behind the others, with what is known of their variables.
fn add_grown(
    alloc: Global,
    symbols: &mut Vec<SymOut>,
    known: &Known,
    outs: &[SymOut],
) -> Result<(), AllocError>
    ensures { OnOk result (symbols.new.items ≡ symbols.old.items
        ++ map (grown_symbol known.now) outs.now) }
{
    for out in outs {
        symbols.push(grown_symbol(alloc, known, out)?)?;
    }
    Ok(())
}
