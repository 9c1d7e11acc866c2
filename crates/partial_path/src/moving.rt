ghost use Rattle.std.specs.Prelude.{◌≡◌, ℕ, map, option_map, All, IfOk, IfSome};
ghost use Rattle.partial_path.specs.{Moved.{moved, moved_node, moved_edge, moved_start, moved_end, moved_scopes, moved_symbol, moved_pre, moved_scopes_out, moved_symbol_out, moved_post, Fits, FitsNode, FitsEnd}, Pooled.{pre_of, post_of}, FileNumbers.{FitsFile, own_edge, StartIn, AskedIn, MadeIn, CanMove, FileZeroMoves}};

use crate::config::EdgeAt;
use crate::filling::moved_node;
use crate::lent_config::moved_spot;
use crate::path::PartialPath;
use crate::rule::{End, Start};
use crate::stored::StoredPath;
use stacks_vars::{Held, Listed, NodeAt, Post, Pre, ScopeOut, ScopePat, SymOut, SymPat, Tail};
use std::alloc::{AllocError, Global};

/// A law: a path of file 0 alone can be moved by every number of 32 bits, and applied there.
pub fn file_zero_moves()
    ensures { FileZeroMoves }
{}

impl<'a> StoredPath<'a> {
    ghost use Rattle.partial_path.specs.Rules.{IsRule};

    /// The path with `base` added to each file number, to be applied as it is. The one error is want of memory; the cost follows
    /// the path's size, and no symbol is copied.
    pub fn moved(&self, alloc: Global, base: u32) -> Result<PartialPath, AllocError>
        requires { CanMove base self.now }
        ensures moved { IfOk result (λ path. path ≡ moved base self.now) }
        ensures fits { IfOk result (Fits 0) }
    {
        let (start, end) = self.moved_ends(base);
        let pre = moved_pre(alloc, base, self.asked(), self.fixed())?;
        let post = moved_post(alloc, base, self.made(), self.scopes(), self.tail())?;
        let edges = self.moved_edges(alloc, base, 0)?;
        Ok(PartialPath::of(start, end, pre, post, self.peak(), edges))
    }

    /// The start and the end of the moved path.
    pub fn moved_ends(&self, base: u32) -> (Start, End)
        requires { CanMove base self.now }
        ensures start { result.0 ≡ moved_start base self.now.start }
        ensures end { result.1 ≡ moved_end base self.now.end }
        ensures rule { IsRule (moved base self.now) }
    {
        (moved_start(base, self.start()), moved_end(base, self.end()))
    }

    /// The edges of the moved path, with room for so many more. The one error is want of memory.
    pub fn moved_edges(
        &self,
        alloc: Global,
        base: u32,
        more: usize,
    ) -> Result<Vec<EdgeAt>, AllocError>
        ensures { IfOk result (λ edges. edges.items ≡ map (moved_edge base) self.now.edges) }
    {
        let numbers = self.edge_numbers();
        let mut edges = Vec::with_capacity(alloc, numbers.len().saturating_add(more))?;
        for edge in numbers {
            edges.push(EdgeAt {
                file: base,
                edge: *edge,
            })?;
        }
        Ok(edges)
    }
}

/// What a moved path asks of the stacks. The one error is want of memory.
fn moved_pre(
    alloc: Global,
    base: u32,
    asked: &[SymPat],
    fixed: &[NodeAt],
) -> Result<Pre, AllocError>
    requires symbols { All (AskedIn (FitsFile base)) asked.now }
    requires scopes { All (FitsNode base) fixed.now }
    ensures { IfOk result (λ pre. pre ≡ moved_pre base (pre_of asked.now fixed.now)) }
{
    Ok(Pre {
        symbols: moved_list(alloc, base, asked)?,
        scopes: ScopePat {
            fixed: moved_list(alloc, base, fixed)?,
        },
    })
}

/// What a moved path makes of the stacks. The one error is want of memory.
fn moved_post(
    alloc: Global,
    base: u32,
    made: &[SymOut],
    scopes: &[NodeAt],
    tail: Tail,
) -> Result<Post, AllocError>
    requires symbols { All (MadeIn (FitsFile base)) made.now }
    requires scopes { All (FitsNode base) scopes.now }
    ensures { IfOk result (λ post. post ≡ moved_post base (post_of made.now scopes.now tail)) }
{
    Ok(Post {
        symbols: moved_list(alloc, base, made)?,
        scopes: ScopeOut {
            scopes: moved_list(alloc, base, scopes)?,
            tail,
        },
    })
}

/// The start with `base` added to its file's number.
fn moved_start(base: u32, start: Start) -> Start
    requires { StartIn (FitsFile base) start }
    ensures { result ≡ moved_start base start }
{
    match start {
        Start::Before(node) => Start::Before(moved_node(base, node)),
        Start::After(spot) => Start::After(moved_spot(base, spot)),
    }
}

/// The end with `base` added to its file's number.
fn moved_end(base: u32, end: End) -> End
    requires { FitsEnd base end }
    ensures { result ≡ moved_end base end }
{
    match end {
        End::At(spot) => End::At(moved_spot(base, spot)),
        End::ByStack => End::ByStack,
    }
}

/// What names files, and can be moved to another place in a list of them.
trait Moves: Drop {
    ghost moved_by: { ℕ → Self → Self };

    ghost fits: { ℕ → Self → Type 0 };

    /// The same with `base` added to each file number. The one error is want of memory.
    fn moved(&self, alloc: Global, base: u32) -> Result<Self, AllocError>
        requires { fits base self.now }
        ensures { IfOk result (λ moved. moved ≡ moved_by base self.now) };
}

/// Each of the items moved, in their order.
fn moved_list<T: Moves>(alloc: Global, base: u32, items: &[T]) -> Result<Listed<T>, AllocError>
    requires { All (T.fits base) items.now }
    ensures { IfOk result (λ moved. moved ≡ map (T.moved_by base) items.now) }
{
    let mut moved = Vec::with_capacity(alloc, items.len())?;
    for item in items {
        moved.push(item.moved(alloc, base)?)?;
    }
    Ok(Listed::of(moved))
}

/// The item moved, where there is one.
fn moved_some<T: Moves>(
    alloc: Global,
    base: u32,
    item: &Option<Held<T>>,
) -> Result<Option<Held<T>>, AllocError>
    requires { IfSome item.now (T.fits base) }
    ensures { IfOk result (λ moved. moved ≡ option_map (T.moved_by base) item.now) }
{
    match item {
        Some(item) => Ok(Some(Held::of(alloc, item.get().moved(alloc, base)?)?)),
        None => Ok(None),
    }
}

impl Moves for NodeAt {
    ghost moved_by = { moved_node };

    ghost fits = { FitsNode };

    fn moved(&self, _alloc: Global, base: u32) -> Result<NodeAt, AllocError> {
        Ok(moved_node(base, *self))
    }
}

/// A symbol that a moved path asks for.
impl Moves for SymPat {
    ghost moved_by = { moved_symbol };

    ghost fits = { λ base. AskedIn (FitsFile base) };

    fn moved(&self, alloc: Global, base: u32) -> Result<SymPat, AllocError> {
        Ok(SymPat {
            symbol: self.symbol.copy()?,
            scopes: moved_some(alloc, base, &self.scopes)?,
        })
    }
}

/// Scopes that a moved path asks for.
impl Moves for ScopePat {
    ghost moved_by = { moved_scopes };

    ghost fits = { λ base pat. All (FitsNode base) pat.fixed };

    fn moved(&self, alloc: Global, base: u32) -> Result<ScopePat, AllocError> {
        Ok(ScopePat {
            fixed: moved_list(alloc, base, self.fixed.items())?,
        })
    }
}

/// A symbol that a moved path makes.
impl Moves for SymOut {
    ghost moved_by = { moved_symbol_out };

    ghost fits = { λ base. MadeIn (FitsFile base) };

    fn moved(&self, alloc: Global, base: u32) -> Result<SymOut, AllocError> {
        Ok(SymOut {
            symbol: self.symbol.copy()?,
            scopes: moved_some(alloc, base, &self.scopes)?,
        })
    }
}

/// Scopes that a moved path makes.
impl Moves for ScopeOut {
    ghost moved_by = { moved_scopes_out };

    ghost fits = { λ base out. All (FitsNode base) out.scopes };

    fn moved(&self, alloc: Global, base: u32) -> Result<ScopeOut, AllocError> {
        Ok(ScopeOut {
            scopes: moved_list(alloc, base, self.scopes.items())?,
            tail: self.tail,
        })
    }
}
