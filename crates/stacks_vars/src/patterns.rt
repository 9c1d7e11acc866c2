use crate::held::Held;
use crate::scopes::NodeAt;
use crate::symbol::Symbol;
use item_list::Listed;

/// What a rule asks of a stack of scopes: that it begins with these, the front first. What follows them
/// is a variable of the rule, named by its place.
#[derive(Debug, Drop)]
pub struct ScopePat {
    pub fixed: Listed<NodeAt>,
}

/// What a rule asks of one symbol: its text, and that it is plain or has attached scopes like these. Few
/// symbols have any, so they stand behind a pointer.
#[derive(Debug, Drop)]
pub struct SymPat {
    pub symbol: Symbol,
    pub scopes: Option<Held<ScopePat>>,
}

/// A rule's precondition: what it asks of the first symbols, the front first, and of the scope stack.
/// What follows these symbols is left as it is.
#[derive(Debug, Drop)]
pub struct Pre {
    pub symbols: Listed<SymPat>,
    pub scopes: ScopePat,
}

/// What stands behind the fixed scopes of an output.
#[derive(Clone, Copy, Debug, PartialEq, Eq)]
pub enum Tail {
    /// Nothing.
    Nil,
    /// What followed the fixed scopes of the scope stack.
    Front,
    /// What followed the fixed scopes attached to the precondition's symbol at this place, from 0.
    Item(u32),
}

/// A stack of scopes that a rule makes: fixed ones, the front first, and a variable behind them.
#[derive(Debug, Drop)]
pub struct ScopeOut {
    pub scopes: Listed<NodeAt>,
    pub tail: Tail,
}

/// A symbol that a rule makes: plain, or with these scopes attached, behind a pointer.
#[derive(Debug, Drop)]
pub struct SymOut {
    pub symbol: Symbol,
    pub scopes: Option<Held<ScopeOut>>,
}

/// A rule's postcondition: the symbols that it puts before those left, the front first, and the scope
/// stack that it makes.
#[derive(Debug, Drop)]
pub struct Post {
    pub symbols: Listed<SymOut>,
    pub scopes: ScopeOut,
}
