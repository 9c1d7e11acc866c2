ghost use Rattle.std.specs.Prelude.{◌≡◌, [], ◌∷◌, List, IfOk};
ghost use Rattle.stacks_vars.specs.{declared.scopes.NodeAt.{NodeAt}, Enter.{enter, stacks_of}};

use crate::action::Action;
use crate::items::SymbolItem;
use crate::scopes::NodeAt;
use crate::stacks::Stacks;
use crate::symbol::Symbol;
use std::alloc::{AllocError, Global};

/// What the stacks are once a node with this action is entered; None where entry is refused, and the
/// one error is want of memory. Nothing is copied but a scope stack that is attached to a symbol.
pub fn enter(alloc: Global, action: &Action, stacks: Stacks) -> Result<Option<Stacks>, AllocError>
    ensures { IfOk result (λ entered. entered ≡ enter action.now stacks) }
{
    match action {
        Action::Pass => Ok(Some(stacks)),
        Action::Push(symbol) => Ok(Some(push(stacks, symbol.copy()?)?)),
        Action::PushScoped(symbol, scope) => {
            Ok(Some(push_scoped(alloc, stacks, symbol.copy()?, *scope)?))
        }
        Action::Pop(symbol) => Ok(pop(stacks, symbol.as_bytes())),
        Action::PopScoped(symbol) => Ok(pop_scoped(stacks, symbol.as_bytes())),
        Action::Drops => Ok(Some(drop_scopes(stacks))),
    }
}

/// A push node is entered: the plain symbol goes to the front. The one error is want of memory.
pub fn push(stacks: Stacks, symbol: Symbol) -> Result<Stacks, AllocError>
    ensures { IfOk result (λ pushed. enter (Action.Push symbol) stacks ≡ Some pushed) }
{
    let mut stacks = stacks;
    stacks.symbols.push(SymbolItem {
        symbol,
        scopes: None,
    })?;
    Ok(stacks)
}

/// A push_scoped node is entered: the symbol goes to the front, with the scope and a copy of the current
/// scope stack attached. The one error is want of memory.
pub fn push_scoped(
    alloc: Global,
    stacks: Stacks,
    symbol: Symbol,
    scope: NodeAt,
) -> Result<Stacks, AllocError>
    ensures { IfOk result (λ pushed. enter (Action.PushScoped symbol scope) stacks ≡ Some pushed) }
{
    let mut stacks = stacks;
    // The scope stack stays the current one, so what is attached is a copy of it.
    let mut attached = stacks.scopes.copy(alloc)?;
    attached.push(scope)?;
    stacks.symbols.push(SymbolItem {
        symbol,
        scopes: Some(attached),
    })?;
    Ok(stacks)
}

/// A pop node is entered: the front, which has to be this symbol and plain, is taken off. None where
/// there is no symbol, or the front is another one or has attached scopes.
pub fn pop(stacks: Stacks, symbol: &[u8]) -> Option<Stacks>
    ensures { result ≡ enter (Action.Pop symbol.now) stacks }
{
    // The front comes off before it is looked at: where entry is refused nobody needs the stacks.
    let mut stacks = stacks;
    let Some(front) = stacks.symbols.pop() else {
        return None;
    };
    if front.scopes.is_some() || !front.symbol.is(symbol) {
        return None;
    }
    Some(stacks)
}

/// A pop_scoped node is entered: the front, which has to be this symbol with attached scopes, is taken
/// off, and they become the scope stack. None where there is no symbol, or the front is another one or
/// plain.
pub fn pop_scoped(stacks: Stacks, symbol: &[u8]) -> Option<Stacks>
    ensures { result ≡ enter (Action.PopScoped symbol.now) stacks }
{
    let mut stacks = stacks;
    let Some(front) = stacks.symbols.pop() else {
        return None;
    };
    let SymbolItem {
        symbol: popped,
        scopes: attached,
    } = front;
    if !popped.is(symbol) {
        return None;
    }
    let Some(scopes) = attached else {
        return None;
    };
    stacks.scopes = scopes;
    Some(stacks)
}

/// A drop node is entered: the scope stack becomes empty.
pub fn drop_scopes(stacks: Stacks) -> Stacks
    ensures { enter Action.Drops stacks ≡ Some result }
{
    let mut stacks = stacks;
    stacks.scopes.clear();
    stacks
}

/// The jump is entered: the scope in front of the scope stack, where the path goes on, and the stacks
/// without it. None where the scope stack is empty.
pub fn jump(stacks: Stacks) -> Option<(NodeAt, Stacks)>
    ensures none { stacks.scopes ≡ [] → result ≡ None }
    ensures some { (scope : NodeAt) (rest : List NodeAt) → stacks.scopes ≡ scope ∷ rest
        → result ≡ Some (scope, stacks_of stacks.symbols rest) }
{
    let mut stacks = stacks;
    match stacks.scopes.pop() {
        Some(scope) => Some((scope, stacks)),
        None => None,
    }
}
