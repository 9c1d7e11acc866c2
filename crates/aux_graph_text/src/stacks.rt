use crate::fault::TextFault;
use stacks_vars::{NodeAt, ScopeStack, Stacks, Symbol, SymbolItem};
use std::alloc::Global;

/// The stacks that a text such as `p[45]x|6` stands for, each with its front first: the symbols `p`, with
/// the scopes 4 and 5 of file 0 attached, and plain `x`; and behind the bar the scope stack. A symbol is one
/// letter, a scope one digit. `Word` is told of a scope that stands in no stack.
pub fn stacks_of(alloc: Global, text: &str) -> Result<Stacks, TextFault> {
    let mut stacks = Stacks::new(alloc);
    let mut scopes = Some(ScopeStack::new(alloc));
    for byte in text.as_bytes().iter().rev() {
        match *byte {
            b'0'..=b'9' => push_scope(&mut scopes, *byte)?,
            b'|' => match scopes.take() {
                Some(read) => stacks.scopes = read,
                None => return Err(TextFault::Word),
            },
            b']' => scopes = Some(ScopeStack::new(alloc)),
            b'[' => {}
            letter => stacks.symbols.push(SymbolItem {
                symbol: Symbol::of(alloc, &[letter])?,
                scopes: scopes.take(),
            })?,
        }
    }
    Ok(stacks)
}

fn push_scope(scopes: &mut Option<ScopeStack>, digit: u8) -> Result<(), TextFault> {
    let Some(scopes) = scopes else {
        return Err(TextFault::Word);
    };
    scopes.push(NodeAt {
        file: 0,
        node: digit.saturating_sub(b'0') as u32,
    })?;
    Ok(())
}
