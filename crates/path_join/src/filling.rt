ghost use Rattle.std.specs.Prelude.{◌≡◌, IfOk};
ghost use Rattle.path_join.specs.{Joining.{grown_scopes, grown_symbol, put_scopes, put_symbol, longer_scopes, longer_symbol}, Tables.{bound_of}};

use crate::copying::{copied_fixed, copied_scopes};
use crate::joint::Joint;
use crate::known::{Known, add};
use stacks_vars::{Held, NodeAt, ScopeOut, ScopePat, SymOut, SymPat};
use std::alloc::{AllocError, Global};

/// A symbol of the first path's output with what is known of its variable.
pub(crate) fn grown_symbol(alloc: Global, known: &Known, out: &SymOut) -> Result<SymOut, AllocError>
    ensures { IfOk result (λ grown. grown ≡ grown_symbol known.now out.now) }
{
    let scopes = match &out.scopes {
        Some(scopes) => Some(Held::of(alloc, grown_scopes(alloc, known, scopes.get())?)?),
        None => None,
    };
    Ok(SymOut {
        symbol: out.symbol.copy()?,
        scopes,
    })
}

/// An output of the first path with what is known of its variable.
fn grown_scopes(alloc: Global, known: &Known, out: &ScopeOut) -> Result<ScopeOut, AllocError>
    ensures { IfOk result (λ grown. grown ≡ grown_scopes known.now out.now) }
{
    let mut grown = copied_scopes(alloc, out)?;
    add(&mut grown.scopes, known.of_tail(out.tail))?;
    Ok(grown)
}

/// An output of the second path, in the variables of the first.
pub(crate) fn put_scopes(
    alloc: Global,
    joint: &Joint,
    out: &ScopeOut,
) -> Result<ScopeOut, AllocError>
    ensures { IfOk result (λ put. put ≡ put_scopes (bound_of joint.now) out.now) }
{
    let meant = joint.of_tail(out.tail);
    let mut put = copied_scopes(alloc, out)?;
    add(&mut put.scopes, meant.first)?;
    add(&mut put.scopes, meant.then)?;
    put.tail = meant.tail;
    Ok(put)
}

/// A symbol of the second path's output, in the variables of the first.
pub(crate) fn put_symbol(alloc: Global, joint: &Joint, out: &SymOut) -> Result<SymOut, AllocError>
    ensures { IfOk result (λ put. put ≡ put_symbol (bound_of joint.now) out.now) }
{
    let scopes = match &out.scopes {
        Some(scopes) => Some(Held::of(alloc, put_scopes(alloc, joint, scopes.get())?)?),
        None => None,
    };
    Ok(SymOut {
        symbol: out.symbol.copy()?,
        scopes,
    })
}

/// A pattern that asks for more scopes.
pub(crate) fn longer_scopes(
    alloc: Global,
    pat: &ScopePat,
    more: &[NodeAt],
) -> Result<ScopePat, AllocError>
    ensures { IfOk result (λ longer. longer ≡ longer_scopes more.now pat.now) }
{
    let mut longer = copied_fixed(alloc, pat)?;
    add(&mut longer.fixed, more)?;
    Ok(longer)
}

/// A symbol asked for with more scopes.
pub(crate) fn longer_symbol(
    alloc: Global,
    pat: &SymPat,
    more: &[NodeAt],
) -> Result<SymPat, AllocError>
    ensures { IfOk result (λ longer. longer ≡ longer_symbol pat.now more.now) }
{
    let scopes = match &pat.scopes {
        Some(scopes) => Some(Held::of(alloc, longer_scopes(alloc, scopes.get(), more)?)?),
        None => None,
    };
    Ok(SymPat {
        symbol: pat.symbol.copy()?,
        scopes,
    })
}
