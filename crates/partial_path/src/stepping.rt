ghost use Rattle.std.specs.{Prelude.{◌≡◌, IfOk}, Option.{option_map}};
ghost use Rattle.stacks_vars.specs.Enter.{enter};
ghost use Rattle.partial_path.specs.{Spots.{at_node}, Step.{action_of, enter_jump, enter_place, stands_at, follow, step, is_cut_edge, start}};

use crate::config::{Config, EdgeAt, Spot};
use crate::places::{edge_at, kind_at};
use graph_nodes::{Edge, FileGraph, Name, NodeKind, Place};
use stacks_vars::{NodeAt, Stacks, Symbol, drop_scopes, jump, pop, pop_scoped, push, push_scoped};
use std::alloc::{AllocError, Global};

/// The configuration after the edge; None where there is no such edge, or it doesn't leave where the
/// path stands, or its sink refuses entry. The one error is want of memory. The stacks are taken over,
/// not copied, and a symbol that is pushed is shared with the graph.
pub fn step(
    alloc: Global,
    files: &[FileGraph],
    at: Config,
    edge: EdgeAt,
) -> Result<Option<Config>, AllocError>
    ensures { IfOk result (λ next. next ≡ step files.now at edge) }
{
    match edge_at(files, edge) {
        Some(found) => follow(alloc, files, edge.file, found, at),
        None => Ok(None),
    }
}

/// Where the paths from a reference start: the node, entered with empty stacks; None where the node is no
/// reference of the files. The one error is want of memory.
pub fn start(alloc: Global, files: &[FileGraph], at: NodeAt) -> Result<Option<Config>, AllocError>
    ensures { IfOk result (λ c. c ≡ start files.now at) }
{
    let Some(kind) = kind_at(files, at) else {
        return Ok(None);
    };
    if !kind.is_reference() {
        return Ok(None);
    }
    let entered = enter_node(alloc, at.file, kind, Stacks::new(alloc))?;
    Ok(stand_at(at, entered))
}

/// Whether a path is cut after the edge: its sink is the root, the jump, an exported scope or a turning
/// node. False where there is no such edge. It takes constant time.
pub fn is_cut_edge(files: &[FileGraph], edge: EdgeAt) -> bool
    ensures { result ≡ is_cut_edge files.now edge }
{
    let Some(graph) = files.get(edge.file as usize) else {
        return false;
    };
    if edge.edge >= graph.edge_count() {
        return false;
    }
    graph.is_cut(graph.edge(edge.edge).sink)
}

/// The edge of that file is followed: it has to leave where the path stands, and its sink is entered.
fn follow(
    alloc: Global,
    files: &[FileGraph],
    file: u32,
    edge: Edge,
    at: Config,
) -> Result<Option<Config>, AllocError>
    ensures { IfOk result (λ next. next ≡ follow files.now file edge at) }
{
    if !stands_at(file, edge.source, at.spot) {
        return Ok(None);
    }
    enter_place(alloc, files, file, edge.sink, at.stacks)
}

/// Whether the spot is that place of the file; no path stands at the jump.
fn stands_at(file: u32, place: Place, spot: Spot) -> bool
    ensures { result ≡ stands_at file place spot }
{
    match (place, spot) {
        (Place::Root, Spot::Root) => true,
        (Place::At(node), Spot::At(at)) => at.file == file && at.node == node,
        _ => false,
    }
}

/// The place of that file is entered with these stacks.
fn enter_place(
    alloc: Global,
    files: &[FileGraph],
    file: u32,
    place: Place,
    stacks: Stacks,
) -> Result<Option<Config>, AllocError>
    ensures { IfOk result (λ next. next ≡ enter_place files.now file place stacks) }
{
    match place {
        Place::Root => Ok(Some(Config {
            spot: Spot::Root,
            stacks,
        })),
        Place::Jump => Ok(enter_jump(stacks)),
        Place::At(node) => enter_at(alloc, files, NodeAt { file, node }, stacks),
    }
}

/// The jump goes on at the scope in front of the scope stack, which is taken off; with none it is refused.
fn enter_jump(stacks: Stacks) -> Option<Config>
    ensures { result ≡ enter_jump stacks.symbols stacks.scopes }
{
    match jump(stacks) {
        Some((scope, stacks)) => Some(Config {
            spot: Spot::At(scope),
            stacks,
        }),
        None => None,
    }
}

/// The node of the files is entered with these stacks.
fn enter_at(
    alloc: Global,
    files: &[FileGraph],
    at: NodeAt,
    stacks: Stacks,
) -> Result<Option<Config>, AllocError>
    ensures { IfOk result (λ next. next ≡ enter_place files.now at.file (Place.At at.node) stacks) }
{
    match kind_at(files, at) {
        Some(kind) => Ok(stand_at(at, enter_node(alloc, at.file, kind, stacks)?)),
        None => Ok(None),
    }
}

/// At the node, with the stacks, where entry wasn't refused.
fn stand_at(at: NodeAt, entered: Option<Stacks>) -> Option<Config>
    ensures { result ≡ option_map (at_node at) entered }
{
    match entered {
        Some(stacks) => Some(Config {
            spot: Spot::At(at),
            stacks,
        }),
        None => None,
    }
}

/// What the stacks are once a node of that file and of this kind is entered.
fn enter_node(
    alloc: Global,
    file: u32,
    kind: &NodeKind,
    stacks: Stacks,
) -> Result<Option<Stacks>, AllocError>
    ensures { IfOk result (λ entered. entered ≡ enter (action_of file kind.now) stacks) }
{
    match kind {
        NodeKind::Scope { .. } => Ok(Some(stacks)),
        NodeKind::Push { symbol, .. } => Ok(Some(push(stacks, symbol_of(symbol)?)?)),
        NodeKind::PushScoped { symbol, scope, .. } => {
            let scope = NodeAt { file, node: *scope };
            Ok(Some(push_scoped(alloc, stacks, symbol_of(symbol)?, scope)?))
        }
        NodeKind::Pop { symbol, .. } => Ok(pop(stacks, symbol.as_bytes())),
        NodeKind::PopScoped { symbol, .. } => Ok(pop_scoped(stacks, symbol.as_bytes())),
        NodeKind::Drops => Ok(Some(drop_scopes(stacks))),
    }
}

/// The symbol of that name, whose bytes both share. The one error is want of room to count one holder
/// more.
pub fn symbol_of(name: &Name) -> Result<Symbol, AllocError>
    ensures { IfOk result (λ symbol. symbol ≡ name.now) }
{
    Ok(Symbol::sharing(name.shared()?))
}
