//! Where a run of a search stands, with stacks whose symbols are lent by the files whose paths made them.
use crate::config::Spot;
use crate::filling::{Met, fill_scopes, fill_symbols, moved_node};
use crate::rule::End;
use stacks_vars::{LentStack, NodeAt, ScopeStack, SymOut, Tail};
use std::alloc::{AllocError, Global};
use std::marker::Model;

/// Where a run of a search stands, and with which stacks, whose symbols are lent. It stands behind a pointer, so that
/// whoever holds it moves no more than that. A contract sees a `Config`.
#[derive(Drop)]
pub struct LentConfig<'a> {
    inner: Box<Standing<'a>>,
}

/// The parts of such a configuration.
#[derive(Drop)]
struct Standing<'a> {
    spot: Spot,
    symbols: LentStack<'a>,
    scopes: ScopeStack,
}

impl<'a> Model for LentConfig<'a> {
    ghost use Rattle.partial_path.specs.{declared.config.Config.{Config}, Spots.{standing_at}};
    ghost use Rattle.stacks_vars.specs.Enter.{stacks_of};

    ghost Value = { Config };

    ghost view = { λ c. standing_at c.inner.value.spot
        (stacks_of c.inner.value.symbols c.inner.value.scopes) };
}

impl<'a> LentConfig<'a> {
    ghost use Rattle.std.specs.Prelude.{◌≡◌, ◌++◌, ◌↔◌, [], map, drop, length, All, IfOk, OnOk, IsTrue};
    ghost use Rattle.partial_path.specs.{Spots.{standing_at}, Same.{config_eq}, Apply.{end_at, fill_item, tail_scopes}, Left.{left_by}, Moved.{moved_end, moved_node, moved_symbol_out, FitsEnd, FitsNode, FitsSymbol}};
    ghost use Rattle.stacks_vars.specs.Enter.{no_stacks, stacks_of};

    /// At that spot with no stacks; the one error is want of memory.
    pub fn new(alloc: Global, spot: Spot) -> Result<LentConfig<'a>, AllocError>
        ensures { IfOk result (λ new. new ≡ standing_at spot no_stacks) }
    {
        Ok(LentConfig {
            inner: Box::new(
                alloc,
                Standing {
                    spot,
                    symbols: LentStack::new(alloc),
                    scopes: ScopeStack::new(alloc),
                },
            )?,
        })
    }

    /// At that spot with no stacks, in place of where it was. It takes no memory.
    pub fn put(&mut self, spot: Spot)
        ensures { self.new ≡ standing_at spot no_stacks }
    {
        self.inner.spot = spot;
        self.inner.symbols.clear();
        self.inner.scopes.clear();
    }

    /// Gets the stacks that a rule makes, moved by `base`, of those that meet it, and stands where it stood. The one error
    /// is want of memory.
    pub(crate) fn fill(
        &mut self,
        alloc: Global,
        base: u32,
        met: &Met<'_, 'a>,
        made: &'a [SymOut],
        scopes: &[NodeAt],
        tail: Tail,
    ) -> Result<(), AllocError>
        requires symbols { All (FitsSymbol base) made.now }
        requires scopes { All (FitsNode base) scopes.now }
        ensures symbols { OnOk result (self.new.stacks.symbols
            ≡ map (fill_item (left_by met.now.asked.now met.now.fixed.now met.now.at.now.stacks))
            (map (moved_symbol_out base) made.now) ++ drop
            (length met.now.asked.now) met.now.at.now.stacks.symbols) }
        ensures scopes { OnOk result (self.new.stacks.scopes ≡ map (moved_node base) scopes.now
            ++ tail_scopes
            (left_by met.now.asked.now met.now.fixed.now met.now.at.now.stacks) tail) }
    {
        fill_symbols(alloc, base, met, made, &mut self.inner.symbols)?;
        fill_scopes(alloc, base, met, scopes, tail, &mut self.inner.scopes)?;
        Ok(())
    }

    /// Where a path with this end, moved by `base`, stands with these stacks; None where it ends by the stack and there is
    /// no scope. It takes no memory.
    pub(crate) fn ended(self, base: u32, end: End) -> Option<LentConfig<'a>>
        requires { FitsEnd base end }
        ensures { result ≡ end_at (moved_end base end) self.entry.stacks }
    {
        let mut next = self;
        match end {
            End::At(spot) => {
                next.inner.spot = moved_spot(base, spot);
                Some(next)
            }
            End::ByStack => {
                let scope = next.inner.scopes.pop()?;
                next.inner.spot = Spot::At(scope);
                Some(next)
            }
        }
    }

    /// Where it stands.
    pub fn spot(&self) -> Spot
        ensures { result ≡ self.now.spot }
    {
        self.inner.spot
    }

    /// The stack of symbols.
    pub fn symbols(&self) -> &LentStack<'a>
        ensures { result.now ≡ self.now.stacks.symbols }
    {
        &self.inner.symbols
    }

    /// The stack of scopes.
    pub fn scopes(&self) -> &ScopeStack
        ensures { result.now ≡ self.now.stacks.scopes }
    {
        &self.inner.scopes
    }

    /// Whether both have the same spot and the same stacks.
    pub fn same(&self, other: &LentConfig<'_>) -> bool
        ensures eq { result ≡ config_eq self.now other.now }
        ensures exact { IsTrue result ↔ (self.now ≡ other.now) }
    {
        self.inner.spot.same(other.inner.spot)
            && self.inner.symbols.same(&other.inner.symbols)
            && self.inner.scopes.same(&other.inner.scopes)
    }
}

ghost use Rattle.std.specs.Prelude.{◌≡◌};
ghost use Rattle.partial_path.specs.Moved.{moved_spot, FitsSpot};

/// The spot with `base` added to its file's number.
pub fn moved_spot(base: u32, spot: Spot) -> Spot
    requires { FitsSpot base spot }
    ensures { result ≡ moved_spot base spot }
{
    match spot {
        Spot::Root => Spot::Root,
        Spot::At(node) => Spot::At(moved_node(base, node)),
    }
}
