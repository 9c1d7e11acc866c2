use crate::scopes::NodeAt;
use crate::symbol::Symbol;

/// What entering a node does to the stacks.
#[derive(Debug, Drop)]
pub enum Action {
    /// Nothing: the root or a scope.
    Pass,
    /// The plain symbol goes to the front.
    Push(Symbol),
    /// The symbol goes to the front, with the scope followed by the current scope stack attached.
    PushScoped(Symbol, NodeAt),
    /// The front has to be this symbol, plain; it is removed.
    Pop(Symbol),
    /// The front has to be this symbol with attached scopes; it is removed, and they become the
    /// current scope stack.
    PopScoped(Symbol),
    /// The scope stack becomes empty.
    Drops,
}
