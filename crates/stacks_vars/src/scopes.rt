use crate::stack::Stack;
use std::alloc::{AllocError, Global};

/// A node of the whole graph: its file's place in the list of files, and its position in that file.
#[derive(Clone, Copy, Debug, PartialEq, Eq, PartialOrd, Ord)]
pub struct NodeAt {
    pub file: u32,
    pub node: u32,
}

/// A stack of scopes. A contract sees it as a list, its front first.
pub type ScopeStack = Stack<NodeAt>;

impl Stack<NodeAt> {
    ghost use Rattle.std.specs.Prelude.{◌≡◌, ◌↔◌, drop, IfOk, IsTrue};
    ghost use Rattle.stacks_vars.specs.Same.{scopes_eq};

    /// The same stack once more, at the cost of its length; the one error is want of memory.
    pub fn copy(&self, alloc: Global) -> Result<ScopeStack, AllocError>
        ensures { IfOk result (λ copy. copy ≡ self.now) }
    {
        Ok(Stack {
            items: Vec::from_slice(alloc, self.items.as_slice())?,
        })
    }

    /// The stack without its first scopes, so many, once more, at the cost of what is left; the one error is want of memory.
    pub fn rest(&self, alloc: Global, but: usize) -> Result<ScopeStack, AllocError>
        ensures { IfOk result (λ rest. rest ≡ drop but self.now) }
    {
        let left = self.items.len().saturating_sub(but);
        // Mostly there are none.
        if left == 0 {
            return Ok(ScopeStack::new(alloc));
        }
        Ok(Stack {
            items: Vec::from_slice(alloc, &self.items[..left])?,
        })
    }

    /// Whether both have the same scopes in the same order.
    pub fn same(&self, other: &ScopeStack) -> bool
        ensures eq { result ≡ scopes_eq self.now other.now }
        ensures exact { IsTrue result ↔ (self.now ≡ other.now) }
    {
        self.reversed() == other.reversed()
    }
}
