ghost use Rattle.std.specs.{Prelude.{◌≡◌, ◌+◌, ◌++◌, [], map, drop, length, All, IfOk, IsTrue, OnOk, slice_get}, Option.{option_map_or}};
ghost use Rattle.partial_path.specs.{Apply.{tail_scopes, fill_scopes, fill_item}, Left.{left_attached, left_items, left_by}, Moved.{moved_node, moved_scopes_out, moved_symbol_out, FitsNode, FitsSymbol}};

use crate::lent_config::LentConfig;
use stacks_vars::{LentItem, LentStack, NodeAt, ScopeOut, ScopeStack, SymOut, SymPat, Tail};
use std::alloc::{AllocError, Global};

/// What a rule asks for, and stacks that meet it: what the rule's variables stand for is there, and is copied where the
/// postcondition names it.
#[derive(Clone, Copy)]
pub struct Met<'r, 'a> {
    /// The symbols, and the scopes with which the scope stack begins.
    pub asked: &'r [SymPat],
    pub fixed: &'r [NodeAt],
    pub at: &'r LentConfig<'a>,
}

/// Writes the symbols that a rule makes, moved by `base`, and those that it leaves, of which alone there are copies, over
/// a stack. The one error is want of memory.
pub fn fill_symbols<'a>(
    alloc: Global,
    base: u32,
    met: &Met<'_, 'a>,
    outs: &'a [SymOut],
    symbols: &mut LentStack<'a>,
) -> Result<(), AllocError>
    requires { All (FitsSymbol base) outs.now }
    ensures { OnOk result (symbols.new
        ≡ map (fill_item (left_by met.now.asked.now met.now.fixed.now met.now.at.now.stacks))
        (map (moved_symbol_out base) outs.now) ++ drop
        (length met.now.asked.now) met.now.at.now.stacks.symbols) }
{
    symbols.fill_rest(alloc, met.at.symbols(), met.asked.len(), outs.len())?;
    put_made(alloc, base, met, outs, symbols)
}

/// Puts the symbols that a rule makes, moved by `base`, before those of the stack. The one error is want of memory.
fn put_made<'a>(
    alloc: Global,
    base: u32,
    met: &Met<'_, 'a>,
    outs: &'a [SymOut],
    symbols: &mut LentStack<'a>,
) -> Result<(), AllocError>
    requires { All (FitsSymbol base) outs.now }
    ensures { OnOk result (symbols.new
        ≡ map (fill_item (left_by met.now.asked.now met.now.fixed.now met.now.at.now.stacks))
        (map (moved_symbol_out base) outs.now) ++ symbols.old) }
{
    let mut left = outs.len();
    while left > 0 {
        left -= 1;
        symbols.push(filled_item(alloc, base, met, &outs[left])?)?;
    }
    Ok(())
}

/// A symbol that a rule makes.
fn filled_item<'a>(
    alloc: Global,
    base: u32,
    met: &Met<'_, 'a>,
    out: &'a SymOut,
) -> Result<LentItem<'a>, AllocError>
    requires { FitsSymbol base out.now }
    ensures { IfOk result
        (λ item. item
        ≡ fill_item (left_by met.now.asked.now met.now.fixed.now met.now.at.now.stacks)
        (moved_symbol_out base out.now)) }
{
    let scopes = match &out.scopes {
        Some(scopes) => Some(filled_held(alloc, base, met, scopes.get())?),
        None => None,
    };
    Ok(LentItem::of(&out.symbol, scopes))
}

/// The scopes that are attached to a symbol that a rule makes.
fn filled_held(
    alloc: Global,
    base: u32,
    met: &Met<'_, '_>,
    out: &ScopeOut,
) -> Result<ScopeStack, AllocError>
    requires { All (FitsNode base) out.now.scopes }
    ensures { IfOk result
        (λ scopes. scopes
        ≡ fill_scopes (left_by met.now.asked.now met.now.fixed.now met.now.at.now.stacks)
        (moved_scopes_out base out.now)) }
{
    filled_scopes(alloc, base, met, out.scopes.items(), out.tail)
}

/// Writes the scopes that a rule makes, with a copy of what its variable stands for, over a stack. The one error is want
/// of memory.
pub fn fill_scopes(
    alloc: Global,
    base: u32,
    met: &Met<'_, '_>,
    made: &[NodeAt],
    tail: Tail,
    scopes: &mut ScopeStack,
) -> Result<(), AllocError>
    requires { All (FitsNode base) made.now }
    ensures { OnOk result (scopes.new ≡ map (moved_node base) made.now
        ++ tail_scopes (left_by met.now.asked.now met.now.fixed.now met.now.at.now.stacks) tail) }
{
    // Mostly there are none.
    if made.is_empty() && stands_for_none(met, tail) {
        scopes.clear();
        return Ok(());
    }
    *scopes = filled_scopes(alloc, base, met, made, tail)?;
    Ok(())
}

/// The scopes that a rule makes, with a copy of what its variable stands for.
fn filled_scopes(
    alloc: Global,
    base: u32,
    met: &Met<'_, '_>,
    made: &[NodeAt],
    tail: Tail,
) -> Result<ScopeStack, AllocError>
    requires { All (FitsNode base) made.now }
    ensures { IfOk result (λ scopes. scopes ≡ map (moved_node base) made.now
        ++ tail_scopes (left_by met.now.asked.now met.now.fixed.now met.now.at.now.stacks) tail) }
{
    let mut scopes = tail_copy(alloc, met, tail)?;
    put_fixed(base, made, &mut scopes)?;
    Ok(scopes)
}

/// Whether the variable is seen at once to stand for no scopes.
fn stands_for_none(met: &Met<'_, '_>, tail: Tail) -> bool
    ensures { IsTrue result
        → tail_scopes (left_by met.now.asked.now met.now.fixed.now met.now.at.now.stacks) tail ≡ [] }
{
    match tail {
        Tail::Nil => true,
        Tail::Front => met.at.scopes().is_empty(),
        Tail::Item(_) => false,
    }
}

/// A copy of what the variable stands for.
fn tail_copy(alloc: Global, met: &Met<'_, '_>, tail: Tail) -> Result<ScopeStack, AllocError>
    ensures { IfOk result
        (λ scopes. scopes
        ≡ tail_scopes (left_by met.now.asked.now met.now.fixed.now met.now.at.now.stacks) tail) }
{
    match tail {
        Tail::Nil => Ok(ScopeStack::new(alloc)),
        Tail::Front => met.at.scopes().rest(alloc, met.fixed.len()),
        Tail::Item(place) => { item_left(alloc, met.asked, met.at.symbols(), place as usize) }
    }
}

/// A copy of what the variable behind the scopes of the symbol at that place stands for; none where there are none.
fn item_left(
    alloc: Global,
    asked: &[SymPat],
    symbols: &LentStack<'_>,
    place: usize,
) -> Result<ScopeStack, AllocError>
    ensures { IfOk result (λ left. left ≡ option_map_or
        (λ scopes. scopes) (slice_get (left_items asked.now symbols.now) place) []) }
{
    let stored = symbols.reversed();
    if place >= asked.len() || place >= stored.len() {
        return Ok(ScopeStack::new(alloc));
    }
    let item = &stored[stored.len() - 1 - place];
    attached_left(alloc, &asked[place], item)
}

/// The same of the scopes that are attached to a symbol.
fn attached_left(alloc: Global, pat: &SymPat, item: &LentItem<'_>) -> Result<ScopeStack, AllocError>
    ensures { IfOk result (λ left. left ≡ left_attached pat.now.scopes item.now.scopes) }
{
    match (&pat.scopes, item.scopes()) {
        (Some(scopes), Some(attached)) => attached.rest(alloc, scopes.get().fixed.len()),
        _ => Ok(ScopeStack::new(alloc)),
    }
}

/// Puts the fixed scopes, moved by `base`, before those of the stack. The one error is want of memory.
fn put_fixed(base: u32, fixed: &[NodeAt], scopes: &mut ScopeStack) -> Result<(), AllocError>
    requires { All (FitsNode base) fixed.now }
    ensures { OnOk result (scopes.new ≡ map (moved_node base) fixed.now ++ scopes.old) }
{
    let mut left = fixed.len();
    while left > 0 {
        left -= 1;
        scopes.push(moved_node(base, fixed[left]))?;
    }
    Ok(())
}

/// The node with `base` added to its file's number.
pub fn moved_node(base: u32, node: NodeAt) -> NodeAt
    requires { FitsNode base node }
    ensures { result ≡ moved_node base node }
{
    NodeAt {
        file: base + node.file,
        node: node.node,
    }
}
