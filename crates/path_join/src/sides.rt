//! What a path asks for and what it makes, once it enters one place more.

ghost use Rattle.std.specs.{Prelude.{◌≡◌, ◌<◌, ◌^◌, [], ◌∷◌, ◌++◌, length, IfOk, OnOk, IsTrue, None}, Str.{bytes_eq}};
ghost use Rattle.graph_nodes.specs.Graph.{has_place};
ghost use Rattle.partial_path.specs.Step.{action_of};
ghost use Rattle.path_join.specs.{Units.{place_action, pat_of, out_of, scopes_out}, Extending.{with_scope, taken, taken_scoped, entered, sides_if, front_and_rest}};

use crate::entering::any_scopes;
use graph_nodes::{FileGraph, Name, NodeKind, Place};
use partial_path::symbol_of;
use stacks_vars::{
    Held, Listed, NodeAt, Post, Pre, ScopeOut, ScopePat, SymOut, SymPat, Symbol, Tail,
};
use std::alloc::{AllocError, Global};
use std::mem;

/// What the path asks for and makes becomes what it asks for and makes once it enters the place besides; false
/// where entry is refused.
pub fn place_entered(
    alloc: Global,
    graph: &FileGraph,
    place: Place,
    pre: &mut Pre,
    post: &mut Post,
) -> Result<bool, AllocError>
    requires there { IsTrue (has_place (length graph.now.nodes) place) }
    requires asked { length pre.old.symbols < 2 ^ 32 }
    ensures { IfOk result (λ goes. sides_if goes pre.new post.new
        ≡ entered (place_action graph.now place) pre.old post.old) }
{
    match place {
        Place::Root | Place::Jump => Ok(true),
        Place::At(node) => node_entered(alloc, graph.kind(node), pre, post),
    }
}

/// The same of a node of this kind.
fn node_entered(
    alloc: Global,
    kind: &NodeKind,
    pre: &mut Pre,
    post: &mut Post,
) -> Result<bool, AllocError>
    requires { length pre.old.symbols < 2 ^ 32 }
    ensures { IfOk result (λ goes. sides_if goes pre.new post.new
        ≡ entered (action_of 0 kind.now) pre.old post.old) }
{
    match kind {
        NodeKind::Scope { .. } => Ok(true),
        NodeKind::Push { symbol, .. } => {
            put_front(alloc, symbol, None, &mut post.symbols)?;
            Ok(true)
        }
        NodeKind::PushScoped { symbol, scope, .. } => {
            let scope = NodeAt {
                file: 0,
                node: *scope,
            };
            let scopes = Held::of(alloc, with_scope(alloc, scope, &post.scopes)?)?;
            put_front(alloc, symbol, Some(scopes), &mut post.symbols)?;
            Ok(true)
        }
        NodeKind::Pop { symbol, .. } => take(alloc, symbol, pre, post),
        NodeKind::PopScoped { symbol, .. } => take_scoped(alloc, symbol, pre, post),
        NodeKind::Drops => {
            post.scopes = scopes_of(alloc, Tail::Nil);
            Ok(true)
        }
    }
}

/// For how many symbols there is room once there is one: most paths ask for fewer and make fewer.
const FIRST_ROOM: usize = 3;

/// Room for the first items where there are none: so most vectors never grow.
fn room_for_first<T>(items: &mut Vec<T>) -> Result<(), AllocError>
    ensures { items.new.items ≡ items.old.items }
{
    if !items.is_empty() {
        return Ok(());
    }
    items.reserve_exact(FIRST_ROOM)
}

/// Puts this symbol in front of those that the path makes.
fn put_front(
    alloc: Global,
    symbol: &Name,
    scopes: Option<Held<ScopeOut>>,
    made: &mut Listed<SymOut>,
) -> Result<(), AllocError>
    ensures { OnOk result (made.new ≡ out_of symbol.now scopes ∷ made.old) }
{
    let mut symbols = mem::replace(made, Listed::new(alloc)).into_items();
    room_for_first(&mut symbols)?;
    symbols.insert(
        0,
        SymOut {
            symbol: symbol_of(symbol)?,
            scopes,
        },
    )?;
    *made = Listed::of(symbols);
    Ok(())
}

/// The scopes, copied, with this one in front.
fn with_scope(alloc: Global, scope: NodeAt, out: &ScopeOut) -> Result<ScopeOut, AllocError>
    ensures { IfOk result (λ scopes. scopes ≡ with_scope scope out.now) }
{
    let fixed = out.scopes.items();
    let mut scopes = Vec::with_capacity(alloc, fixed.len())?;
    scopes.push(scope)?;
    scopes.extend_from_slice(fixed)?;
    Ok(ScopeOut {
        scopes: Listed::of(scopes),
        tail: out.tail,
    })
}

/// A scope stack of this variable alone.
fn scopes_of(alloc: Global, tail: Tail) -> ScopeOut
    ensures { result ≡ scopes_out [] tail }
{
    ScopeOut {
        scopes: Listed::new(alloc),
        tail,
    }
}

/// Asks for one symbol more, behind the others.
fn ask_more(
    alloc: Global,
    symbol: &Name,
    scopes: Option<Held<ScopePat>>,
    asked: &mut Listed<SymPat>,
) -> Result<(), AllocError>
    ensures { OnOk result (asked.new ≡ asked.old ++ pat_of symbol.now scopes ∷ []) }
{
    let mut symbols = mem::replace(asked, Listed::new(alloc)).into_items();
    room_for_first(&mut symbols)?;
    symbols.push(SymPat {
        symbol: symbol_of(symbol)?,
        scopes,
    })?;
    *asked = Listed::of(symbols);
    Ok(())
}

/// Takes the front off the symbols that the path makes, where there are any.
fn take_front(alloc: Global, made: &mut Listed<SymOut>) -> Option<SymOut>
    ensures both { front_and_rest result made.new ≡ made.old }
    ensures none { result ≡ None → made.old ≡ [] }
{
    if made.is_empty() {
        return None;
    }
    let mut symbols = mem::replace(made, Listed::new(alloc)).into_items();
    let front = symbols.remove(0);
    *made = Listed::of(symbols);
    Some(front)
}

/// A plain symbol is popped: the front of those that the path makes, or one more that it asks for.
fn take(alloc: Global, symbol: &Name, pre: &mut Pre, post: &mut Post) -> Result<bool, AllocError>
    ensures { IfOk result (λ goes. sides_if goes pre.new post.new
        ≡ taken symbol.now pre.old post.old.symbols post.old.scopes) }
{
    let Some(front) = take_front(alloc, &mut post.symbols) else {
        ask_more(alloc, symbol, None, &mut pre.symbols)?;
        return Ok(true);
    };
    Ok(is_of(&front.symbol, symbol) && front.scopes.is_none())
}

/// A symbol with attached scopes is popped: the front of those that the path makes, whose scopes become the
/// scope stack, or one more that it asks for.
fn take_scoped(
    alloc: Global,
    symbol: &Name,
    pre: &mut Pre,
    post: &mut Post,
) -> Result<bool, AllocError>
    requires { length pre.old.symbols < 2 ^ 32 }
    ensures { IfOk result (λ goes. sides_if goes pre.new post.new
        ≡ taken_scoped symbol.now pre.old post.old.symbols) }
{
    let Some(front) = take_front(alloc, &mut post.symbols) else {
        post.scopes = scopes_of(alloc, Tail::Item(pre.symbols.len() as u32));
        let scopes = Held::of(alloc, any_scopes(alloc))?;
        ask_more(alloc, symbol, Some(scopes), &mut pre.symbols)?;
        return Ok(true);
    };
    let SymOut {
        symbol: front,
        scopes,
    } = front;
    if !is_of(&front, symbol) {
        return Ok(false);
    }
    let Some(scopes) = scopes else {
        return Ok(false);
    };
    post.scopes = scopes.into_value();
    Ok(true)
}

/// Whether the made symbol is this one.
fn is_of(made: &Symbol, symbol: &Name) -> bool
    ensures { result ≡ bytes_eq symbol.now made.now }
{
    symbol.as_bytes() == made.as_bytes()
}
