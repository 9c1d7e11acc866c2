//! The parts of a file's paths, each kind of them in one vector.
ghost use Rattle.std.specs.Prelude.{◌≡◌, ◌+◌, ◌++◌, ℕ, length, map, All, IfOk, OnOk};
ghost use Rattle.partial_path.specs.{FileNumbers.{IsOfFileZero, EdgeIn, edge_number, own_edge}, Rules.{IsRule}, Pooled.{AreAddedTo, Begins, IsKept, IsPartOf, IsPut, part_of}};

use crate::config::EdgeAt;
use crate::path::{PartialPath, PathParts};
use crate::path_row::{PathRow, row_end, row_start, row_tail, short};
use stacks_vars::{NodeAt, ScopeOut, SymOut, SymPat};
use std::alloc::{AllocError, Global};

/// The parts of a file's paths.
#[derive(Debug, Drop)]
pub struct Pools {
    /// The symbols that paths ask for, and those that they make.
    pub asked: Vec<SymPat>,
    pub made: Vec<SymOut>,
    /// The scopes that each path asks for, and behind them those that it makes.
    pub nodes: Vec<NodeAt>,
    /// The numbers of their edges in the file.
    pub edges: Vec<u32>,
}

/// How many parts of each kind paths have together.
#[derive(Clone, Copy)]
struct Sizes {
    asked: usize,
    made: usize,
    nodes: usize,
    edges: usize,
}

/// Empty pools with room for the parts of these paths and no more. The one error is want of memory.
pub fn pools_for(alloc: Global, paths: &[PartialPath]) -> Result<Pools, AllocError> {
    let sizes = sizes_of(paths);
    Ok(Pools {
        asked: Vec::with_capacity(alloc, sizes.asked)?,
        made: Vec::with_capacity(alloc, sizes.made)?,
        nodes: Vec::with_capacity(alloc, sizes.nodes)?,
        edges: Vec::with_capacity(alloc, sizes.edges)?,
    })
}

/// How many parts the paths have; the greatest number where they have more.
fn sizes_of(paths: &[PartialPath]) -> Sizes {
    let mut sizes = Sizes {
        asked: 0,
        made: 0,
        nodes: 0,
        edges: 0,
    };
    for path in paths {
        sizes = with_path(sizes, path);
    }
    sizes
}

/// These numbers with those of the path.
fn with_path(sizes: Sizes, path: &PartialPath) -> Sizes {
    let (pre, post) = (path.pre(), path.post());
    let fixed = pre.scopes.fixed.len();
    let scopes = post.scopes.scopes.len();
    Sizes {
        asked: sizes.asked.saturating_add(pre.symbols.len()),
        made: sizes.made.saturating_add(post.symbols.len()),
        nodes: sizes.nodes.saturating_add(fixed).saturating_add(scopes),
        edges: sizes.edges.saturating_add(path.edges().len()),
    }
}

/// Moves the parts of a path of file 0 into the pools, and gives its row. The one error is want of memory, or
/// of numbers: for so many parts, or of 16 bits for this path's nodes, parts and peak.
pub fn put_path(pools: &mut Pools, path: PartialPath) -> Result<PathRow, AllocError>
    requires { IsOfFileZero path }
    ensures added { OnOk result (AreAddedTo pools.old pools.new) }
    ensures kept { IfOk result (λ row. IsKept pools.new row path) }
{
    let PathParts {
        start,
        end,
        pre,
        post,
        peak,
        edges,
    } = path.into_parts();
    let ScopeOut { scopes, tail } = post.scopes;
    let edges = put_edges(&mut pools.edges, edges.as_slice())?;
    let asked = put(&mut pools.asked, pre.symbols.into_items())?;
    let made = put(&mut pools.made, post.symbols.into_items())?;
    let fixed = pre.scopes.fixed.into_items();
    let nodes = put_nodes(&mut pools.nodes, fixed, scopes.into_items())?;
    let start = row_start(start)?;
    let end = row_end(end)?;
    let tail = row_tail(tail)?;
    let peak = short(peak)?;
    Ok(PathRow {
        asked_from: asked.from,
        made_from: made.from,
        nodes_from: nodes.from,
        edges_from: edges.from,
        start,
        end,
        tail,
        peak,
        asked: asked.len,
        made: made.len,
        fixed: nodes.fixed,
        scopes: nodes.scopes,
        edges: edges.len,
    })
}

/// Where a part of a path stands in its pool.
#[derive(Clone, Copy)]
struct Part {
    from: u32,
    len: u16,
}

/// Where a path's scopes stand: those that it asks for, and behind them those that it makes.
#[derive(Clone, Copy)]
struct NodeParts {
    from: u32,
    fixed: u16,
    scopes: u16,
}

/// Moves a path's scopes behind those of the pool: those that it asks for, and behind them those that it makes;
/// and tells where they stand. The one error is want of memory, or of numbers.
fn put_nodes(
    pool: &mut Vec<NodeAt>,
    fixed: Vec<NodeAt>,
    scopes: Vec<NodeAt>,
) -> Result<NodeParts, AllocError>
    ensures added { OnOk result (Begins pool.old.items pool.new.items) }
    ensures fixed { IfOk result
        (λ parts. IsPut parts.from parts.fixed pool.new.items fixed.items) }
    ensures scopes { IfOk result
        (λ parts. IsPut (parts.from + parts.fixed) parts.scopes pool.new.items scopes.items) }
{
    let asked = put(pool, fixed)?;
    let made = put(pool, scopes)?;
    Ok(NodeParts {
        from: asked.from,
        fixed: asked.len,
        scopes: made.len,
    })
}

/// Moves the items behind those of the pool, and tells where they stand. The one error is want of memory, or of
/// numbers.
fn put<T: Drop>(pool: &mut Vec<T>, items: Vec<T>) -> Result<Part, AllocError>
    ensures items { OnOk result (pool.new.items ≡ pool.old.items ++ items.items) }
    ensures place { IfOk result (λ part. part.from ≡ length pool.old.items) }
    ensures len { IfOk result (λ part. part.len ≡ length items.items) }
    ensures within { IfOk result (λ part. IsPartOf part.from part.len pool.new.items) }
    ensures value { IfOk result (λ part. part_of part.from part.len pool.new.items ≡ items.items) }
{
    let part = part_at(pool.len(), items.len())?;
    let mut items = items;
    pool.append(&mut items)?;
    Ok(part)
}

/// Puts the numbers of the edges, all of file 0, behind those of the pool, and tells where they stand. The one
/// error is want of memory, or of numbers.
fn put_edges(pool: &mut Vec<u32>, edges: &[EdgeAt]) -> Result<Part, AllocError>
    requires { All (EdgeIn (λ file. file ≡ 0)) edges.now }
    ensures items { OnOk result (pool.new.items ≡ pool.old.items ++ map edge_number edges.now) }
    ensures within { IfOk result (λ part. IsPartOf part.from part.len pool.new.items) }
    ensures value { IfOk result (λ part. map own_edge
        (part_of part.from part.len pool.new.items) ≡ edges.now) }
{
    let part = part_at(pool.len(), edges.len())?;
    for edge in edges {
        pool.push(edge.edge)?;
    }
    Ok(part)
}

/// The part of so many items from that place on. The error comes where the place has no number of 32 bits, or the
/// count none of 16.
fn part_at(from: usize, len: usize) -> Result<Part, AllocError>
    ensures { IfOk result (λ part. (part.from ≡ from) × (part.len ≡ len)) }
{
    if from > u32::MAX as usize || len > u16::MAX as usize {
        return Err(AllocError);
    }
    Ok(Part {
        from: from as u32,
        len: len as u16,
    })
}
