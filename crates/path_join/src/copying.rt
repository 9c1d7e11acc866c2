ghost use Rattle.std.specs.Prelude.{◌≡◌, ◌++◌, IfOk, OnOk};
ghost use Rattle.partial_path.specs.Rules.{IsRule};
ghost use Rattle.path_join.specs.Extended.{rule_apart};

use partial_path::{PartialPath, PathParts};
use stacks_vars::{Held, Listed, NodeAt, Post, Pre, ScopeOut, ScopePat, SymOut, SymPat};
use std::alloc::{AllocError, Global};

/// For how many edges besides its own a copy has room: a path is copied to be made longer.
const MORE_EDGES: usize = 3;

/// For how many symbols besides its own a copy has room that asks for some, or makes some.
const MORE_SYMBOLS: usize = 2;

/// The parts of the path once more. The one error is want of memory. It costs the size of the path; its symbols
/// are shared and not copied.
pub(crate) fn copied(alloc: Global, path: &PartialPath) -> Result<PathParts, AllocError>
    ensures value { IfOk result (λ parts. rule_apart parts ≡ path.now) }
    ensures rule { IfOk result (λ parts. IsRule (rule_apart parts)) }
{
    let pre = copied_pre(alloc, path.pre())?;
    let post = copied_post(alloc, path.post())?;
    let mut edges = Vec::with_capacity(alloc, path.edges().len() + MORE_EDGES)?;
    edges.extend_from_slice(path.edges())?;
    Ok(PathParts {
        start: path.start(),
        end: path.end(),
        pre,
        post,
        peak: path.peak(),
        edges,
    })
}

/// What a path asks for, once more.
fn copied_pre(alloc: Global, pre: &Pre) -> Result<Pre, AllocError>
    ensures { IfOk result (λ copy. copy ≡ pre.now) }
{
    Ok(Pre {
        symbols: copied_pats(alloc, pre.symbols.items())?,
        scopes: copied_fixed(alloc, &pre.scopes)?,
    })
}

/// What a path makes, once more.
fn copied_post(alloc: Global, post: &Post) -> Result<Post, AllocError>
    ensures { IfOk result (λ copy. copy ≡ post.now) }
{
    Ok(Post {
        symbols: copied_outs(alloc, post.symbols.items())?,
        scopes: copied_scopes(alloc, &post.scopes)?,
    })
}

/// The symbols asked for, once more.
fn copied_pats(alloc: Global, pats: &[SymPat]) -> Result<Listed<SymPat>, AllocError>
    ensures { IfOk result (λ copy. copy ≡ pats.now) }
{
    let mut symbols = Vec::with_capacity(alloc, room_for(pats.len()))?;
    add_pats(alloc, &mut symbols, pats)?;
    Ok(Listed::of(symbols))
}

/// Puts the symbols asked for behind the others, once more. The one error is want of memory.
pub(crate) fn add_pats(
    alloc: Global,
    symbols: &mut Vec<SymPat>,
    pats: &[SymPat],
) -> Result<(), AllocError>
    ensures { OnOk result (symbols.new.items ≡ symbols.old.items ++ pats.now) }
{
    for pat in pats {
        symbols.push(copied_pat(alloc, pat)?)?;
    }
    Ok(())
}

/// The symbols made, once more.
fn copied_outs(alloc: Global, outs: &[SymOut]) -> Result<Listed<SymOut>, AllocError>
    ensures { IfOk result (λ copy. copy ≡ outs.now) }
{
    let mut symbols = Vec::with_capacity(alloc, room_for(outs.len()))?;
    for out in outs {
        symbols.push(copied_out(alloc, out)?)?;
    }
    Ok(Listed::of(symbols))
}

/// For how many symbols a copy of so many has room; it takes no memory for none.
fn room_for(count: usize) -> usize {
    if count == 0 {
        0
    } else {
        count.saturating_add(MORE_SYMBOLS)
    }
}

/// A symbol asked for, once more: its text is shared.
fn copied_pat(alloc: Global, pat: &SymPat) -> Result<SymPat, AllocError>
    ensures { IfOk result (λ copy. copy ≡ pat.now) }
{
    let scopes = match &pat.scopes {
        Some(scopes) => Some(Held::of(alloc, copied_fixed(alloc, scopes.get())?)?),
        None => None,
    };
    Ok(SymPat {
        symbol: pat.symbol.copy()?,
        scopes,
    })
}

/// A symbol made, once more: its text is shared.
fn copied_out(alloc: Global, out: &SymOut) -> Result<SymOut, AllocError>
    ensures { IfOk result (λ copy. copy ≡ out.now) }
{
    let scopes = match &out.scopes {
        Some(scopes) => Some(Held::of(alloc, copied_scopes(alloc, scopes.get())?)?),
        None => None,
    };
    Ok(SymOut {
        symbol: out.symbol.copy()?,
        scopes,
    })
}

/// A pattern of scopes, once more.
pub(crate) fn copied_fixed(alloc: Global, pat: &ScopePat) -> Result<ScopePat, AllocError>
    ensures { IfOk result (λ copy. copy ≡ pat.now) }
{
    Ok(ScopePat {
        fixed: copied_nodes(alloc, pat.fixed.items())?,
    })
}

/// Scopes that are made, once more.
pub(crate) fn copied_scopes(alloc: Global, out: &ScopeOut) -> Result<ScopeOut, AllocError>
    ensures { IfOk result (λ copy. copy ≡ out.now) }
{
    Ok(ScopeOut {
        scopes: copied_nodes(alloc, out.scopes.items())?,
        tail: out.tail,
    })
}

/// These scopes, once more.
fn copied_nodes(alloc: Global, scopes: &[NodeAt]) -> Result<Listed<NodeAt>, AllocError>
    ensures { IfOk result (λ copy. copy ≡ scopes.now) }
{
    Ok(Listed::of(Vec::from_slice(alloc, scopes)?))
}
