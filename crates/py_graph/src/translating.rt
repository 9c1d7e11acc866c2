//! The whole: a module's graph, or its fault.

ghost use Rattle.std.specs.Prelude.{[], map};
ghost use Rattle.py_graph.specs.{Modules.{Translates, graph_of, limited, table, told, graph_of_named}, Gives.{Does}};
ghost use Rattle.py_graph.specs.Names as names;

use crate::draft::{Draft, Made, Stop};
use crate::fault::TransFault;
use crate::frame::Frame;
use crate::head::name_nodes;
use crate::names::{are_names, pieces, without_init};
use crate::nodes::scope;
use crate::statements::block;
use graph_nodes::FileGraph;
use py_subset::{Module, Stmt};
use std::alloc::Global;

/// Carries out the whole table.
#[tactic(auto, using(crate::proofs::Sound::standing))]
fn whole(draft: &mut Draft, parts: &[&str], body: &[Stmt]) -> Made<()>
    ensures { Does result draft.old draft.new (table (map (λ x. x.now) parts.now) body.now) }
{
    let s = scope(draft)?;
    name_nodes(draft, parts, s)?;
    block(draft, &Frame::in_module(s), body)
}

/// The graph of a module whose name has these parts.
fn named(alloc: Global, parts: &[&str], body: &[Stmt]) -> Result<FileGraph, TransFault>
    ensures { Translates result
        (told (table (map (λ x. x.now) parts.now) body.now (record { nodes = []; edges = [] }))) }
{
    let mut draft = Draft::new(alloc)?;
    match whole(&mut draft, parts, body) {
        Ok(()) => draft.finish(),
        Err(Stop::Full) => Err(TransFault::TooManyNodes(16_385)),
        Err(Stop::NoMemory) => Err(TransFault::NoMemory),
    }
}

/// The graph of a module whose path is this one and `.py`.
fn at_stem(alloc: Global, stem: &str, tree: &Module) -> Result<FileGraph, TransFault>
    ensures { Translates result
        (graph_of_named (names.named (names.parts_of stem.now)) tree.now.body) }
{
    let all = pieces(alloc, stem)?;
    let parts = without_init(all.as_slice());
    if !are_names(parts) {
        return Err(TransFault::BadName);
    }
    named(alloc, parts, tree.body.items())
}

/// The stack graph of a module at a path, by the table of `docs/PYTHON.md`. `BadName` comes exactly
/// where the path doesn't end with `.py` or gives no name of a module; then `TooManyNodes` exactly
/// where the table makes more than 16,384 nodes; then `TooManyEdges` exactly where it makes more than
/// 65,536 edges. `NoMemory` comes where memory runs out, and may come on any module.
/// It takes time and memory that follow the size of the module.
pub fn translate(alloc: Global, path: &str, tree: &Module) -> Result<FileGraph, TransFault>
    ensures { Translates result (graph_of path.now tree.now) }
{
    match path.strip_suffix(".py") {
        Some(stem) => at_stem(alloc, stem, tree),
        None => Err(TransFault::BadName),
    }
}
