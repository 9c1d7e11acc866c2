//! Joining backward from a definition.
ghost use Rattle.std.specs.Prelude.{◌≡◌, ◌↔◌, All, Err, IfOk, OnOk, IsTrue, Contains};
ghost use Rattle.graph_nodes.specs.Whole.{is_definition_of};
ghost use Rattle.stacks_vars.specs.declared.scopes.NodeAt.{NodeAt};
ghost use Rattle.list_facts.specs.Apart.{Pairs};
ghost use Rattle.partial_path.specs.{Spots.{node_at}, Rules.{start_spot}, Sources.{IsSourceFile, graphs_of}};
ghost use Rattle.back_stitch.specs.Lists.{HasMany, BeginsList, ComesBefore, AreThoseThatReach};

use crate::extend::extend;
use crate::fault::BackFault;
use crate::laws::rounds_can_be_cut;
use crate::source::BackSource;
use crate::tally::Tally;
use partial_path::{PartialPath, Spot, Start};
use stacks_vars::NodeAt;
use std::alloc::Global;

/// The references of the source's files from which a bounded complete run leads to the definition, each once in file
/// order. It is `Many` exactly where more than 8,192 back lists lead to the definition, and else `NoMemory` where memory
/// is refused. A back list is a list of at most 128 edges that leads to the definition from a reference or from a place
/// where paths are cut, on some stacks that hold no scopes but exported ones, with nowhere more than 48 symbols and none
/// in the end.
///
/// No edge is followed: stored paths are joined, each in front of the path that is known so far. The memory follows the
/// back lists that are still to be gone on from, of which none begins before a reference; no call calls itself.
pub fn back<P: BackSource>(
    alloc: Global,
    source: &P,
    file: u32,
    node: u32,
) -> Result<Vec<NodeAt>, BackFault>
    requires definition { IsTrue (is_definition_of (graphs_of (P.files source.now)) file node) }
    ensures references { IfOk result
        (λ rows. AreThoseThatReach (graphs_of (P.files source.now))
        (node_at file node) rows.items) }
    ensures many { result ≡ Err BackFault.Many
        → HasMany (graphs_of (P.files source.now)) (node_at file node) }
    ensures few { OnOk result (¬ HasMany (graphs_of (P.files source.now)) (node_at file node)) }
{
    rounds_can_be_cut();
    let tally = search(alloc, source, NodeAt { file, node })?;
    Ok(in_order(tally.rows))
}

/// These nodes in file order, each once.
fn in_order(rows: Vec<NodeAt>) -> Vec<NodeAt>
    ensures rising { Pairs ComesBefore result.items }
    ensures exact { (r : NodeAt) → Contains result.items r ↔ Contains rows.items r }
{
    let mut rows = rows;
    rows.sort_unstable();
    rows.dedup();
    rows
}

/// Joins paths in front of those that lead to the definition until none is left to be gone on from.
fn search<P: BackSource>(alloc: Global, source: &P, definition: NodeAt) -> Result<Tally, BackFault>
    requires definition { IsTrue (is_definition_of
        (graphs_of (P.files source.now)) definition.file definition.node) }
    ensures begin { IfOk result (λ tally. (r : NodeAt) → Contains tally.rows.items r
        ↔ BeginsList (graphs_of (P.files source.now)) definition r) }
    ensures many { result ≡ Err BackFault.Many
        → HasMany (graphs_of (P.files source.now)) definition }
    ensures few { OnOk result (¬ HasMany (graphs_of (P.files source.now)) definition) }
{
    are_sources(source, Spot::At(definition));
    let mut tally = Tally::new(alloc);
    let mut work = Vec::new(alloc);
    extend(
        alloc,
        source,
        Spot::At(definition),
        None,
        &mut work,
        &mut tally,
    )?;
    while let Some(path) = work.pop() {
        let spot = begin_of(&path);
        extend(alloc, source, spot, Some(&path), &mut work, &mut tally)?;
    }
    Ok(tally)
}

/// Tells that the source has checked graphs with their path sets, which each look-up says.
fn are_sources<P: BackSource>(source: &P, at: Spot)
    ensures { All IsSourceFile (P.files source.now) }
{
    source.ends(&at, &[]);
}

/// The spot at which the path begins.
fn begin_of(path: &PartialPath) -> Spot
    ensures { result ≡ start_spot path.now.start }
{
    match path.start() {
        Start::Before(node) => Spot::At(node),
        Start::After(spot) => spot,
    }
}
