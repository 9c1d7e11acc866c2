ghost use Rattle.std.specs.Prelude.{◌≡◌, [], ◌∷◌, None, IfOk};
ghost use Rattle.stacks_vars.specs.declared.action.Action.TheVariants.{Pass};
ghost use Rattle.partial_path.specs.{Step.{action_of}, Spots.{node_at}};
ghost use Rattle.path_join.specs.Units.{asked_by, made_by, peak_by, asks, makes, any_scopes, pat_of, out_of, entry_rule};

use graph_nodes::{Name, NodeKind};
use partial_path::{EdgeAt, End, PartialPath, Start, symbol_of};
use stacks_vars::{Held, Listed, NodeAt, Post, Pre, ScopeOut, ScopePat, SymOut, SymPat, Tail};
use std::alloc::{AllocError, Global};

/// For how many symbols a path has room that pushes one: half of such paths push two more.
const MADE_ROOM: usize = 3;

/// For how many one has room that pops one: some pop two more.
const ASKED_ROOM: usize = 3;

/// The path that leaves the stacks as they are. It takes no memory.
#[tactic(auto, using(crate::proofs::CodeUnits::ruled))]
pub(crate) fn passing(alloc: Global, start: Start, end: End, edges: Vec<EdgeAt>) -> PartialPath
    ensures { result ≡ entry_rule start end Pass edges.items }
{
    let pre = asks(alloc, Vec::new(alloc));
    let post = makes(alloc, Vec::new(alloc), Tail::Front);
    PartialPath::of(start, end, pre, post, 0, edges)
}

/// The path that enters a node of this kind of a file that stands alone.
#[tactic(auto, using(crate::proofs::CodeUnits::ruled))]
pub(crate) fn entering(
    alloc: Global,
    kind: &NodeKind,
    start: Start,
    end: End,
    edges: Vec<EdgeAt>,
) -> Result<PartialPath, AllocError>
    ensures { IfOk result (λ path. path ≡ entry_rule start end (action_of 0 kind.now) edges.items) }
{
    let pre = asked_by(alloc, kind)?;
    let post = made_by(alloc, kind)?;
    Ok(PartialPath::of(start, end, pre, post, peak_by(kind), edges))
}

/// What a node of this kind asks for.
fn asked_by(alloc: Global, kind: &NodeKind) -> Result<Pre, AllocError>
    ensures { IfOk result (λ pre. pre ≡ asked_by (action_of 0 kind.now)) }
{
    match kind {
        NodeKind::Pop { symbol, .. } => popped(alloc, symbol, None),
        NodeKind::PopScoped { symbol, .. } => popped(
            alloc,
            symbol,
            Some(Held::of(alloc, any_scopes(alloc))?),
        ),
        NodeKind::Scope { .. }
        | NodeKind::Push { .. }
        | NodeKind::PushScoped { .. }
        | NodeKind::Drops => Ok(asks(alloc, Vec::new(alloc))),
    }
}

/// The symbol with such scopes, and any scope stack.
fn popped(alloc: Global, symbol: &Name, scopes: Option<Held<ScopePat>>) -> Result<Pre, AllocError>
    ensures { IfOk result (λ pre. pre ≡ asks (pat_of symbol.now scopes ∷ [])) }
{
    let mut symbols = Vec::with_capacity(alloc, ASKED_ROOM)?;
    symbols.push(SymPat {
        symbol: symbol_of(symbol)?,
        scopes,
    })?;
    Ok(asks(alloc, symbols))
}

/// What a node of this kind makes.
fn made_by(alloc: Global, kind: &NodeKind) -> Result<Post, AllocError>
    ensures { IfOk result (λ post. post ≡ made_by (action_of 0 kind.now)) }
{
    match kind {
        NodeKind::Push { symbol, .. } => pushed(alloc, symbol, None),
        NodeKind::PushScoped { symbol, scope, .. } => {
            let scope = NodeAt {
                file: 0,
                node: *scope,
            };
            let scopes = ScopeOut {
                scopes: Listed::of(Vec::from_slice(alloc, &[scope])?),
                tail: Tail::Front,
            };
            pushed(alloc, symbol, Some(Held::of(alloc, scopes)?))
        }
        NodeKind::PopScoped { .. } => Ok(makes(alloc, Vec::new(alloc), Tail::Item(0))),
        NodeKind::Drops => Ok(makes(alloc, Vec::new(alloc), Tail::Nil)),
        NodeKind::Scope { .. } | NodeKind::Pop { .. } => Ok(makes(
            alloc,
            Vec::new(alloc),
            Tail::Front,
        )),
    }
}

/// The symbol with these scopes, and the scope stack as it is.
fn pushed(alloc: Global, symbol: &Name, scopes: Option<Held<ScopeOut>>) -> Result<Post, AllocError>
    ensures { IfOk result (λ post. post ≡ makes (out_of symbol.now scopes ∷ []) Tail.Front) }
{
    let mut symbols = Vec::with_capacity(alloc, MADE_ROOM)?;
    symbols.push(SymOut {
        symbol: symbol_of(symbol)?,
        scopes,
    })?;
    Ok(makes(alloc, symbols, Tail::Front))
}

/// How many symbols there are on the way, of those that a node of this kind asks for or makes.
fn peak_by(kind: &NodeKind) -> u32
    ensures { result ≡ peak_by (action_of 0 kind.now) }
{
    match kind {
        NodeKind::Scope { .. } | NodeKind::Drops => 0,
        NodeKind::Push { .. }
        | NodeKind::PushScoped { .. }
        | NodeKind::Pop { .. }
        | NodeKind::PopScoped { .. } => 1,
    }
}

/// Any scopes.
pub(crate) fn any_scopes(alloc: Global) -> ScopePat
    ensures { result ≡ any_scopes }
{
    ScopePat {
        fixed: Listed::new(alloc),
    }
}

/// A precondition of these symbols, with any scope stack.
fn asks(alloc: Global, symbols: Vec<SymPat>) -> Pre
    ensures { result ≡ asks symbols.items }
{
    Pre {
        symbols: Listed::of(symbols),
        scopes: any_scopes(alloc),
    }
}

/// A postcondition of these symbols and this scope stack.
pub(crate) fn makes(alloc: Global, symbols: Vec<SymOut>, tail: Tail) -> Post
    ensures { result ≡ makes symbols.items tail }
{
    Post {
        symbols: Listed::of(symbols),
        scopes: ScopeOut {
            scopes: Listed::new(alloc),
            tail,
        },
    }
}
