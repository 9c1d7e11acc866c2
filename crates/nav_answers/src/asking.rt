ghost use Rattle.std.specs.Prelude.{◌≡◌, Err, IfOk, IsSomeAnd, IsTrue};
ghost use Rattle.graph_nodes.specs.Whole.{is_reference_of};
ghost use Rattle.partial_path.specs.{Step.{start}, Counted.{IsCrowded}};
ghost use Rattle.nav_answers.specs.{Asking.{IsFound}, Sources.{graphs_seen}};

use crate::defining::definitions_by;
use crate::source::ViewSource;
use nav_io::Gate;
use partial_path::Bounds;
use stacks_vars::NodeAt;
use stitcher::{Room, StitchFault};
use version_tree::View;
use whole_search::{Found, Hit};

/// What is asked of each reference of the files that are seen, by their stored paths: its definitions within these bounds.
/// Those that are asked about are told in any case, and all where there are at most so many links.
#[derive(Drop)]
pub struct Query<'a> {
    pub view: &'a View,
    pub source: &'a ViewSource<'a>,
    pub definitions: &'a [Hit],
    pub bounds: Bounds,
    pub most: usize,
}

/// What is found of the reference, as the job of that number.
pub fn ask<'a, G: Gate>(
    room: &mut Room<'a>,
    query: &Query<'a>,
    gate: &G,
    job: usize,
    reference: NodeAt,
) -> Result<Found, StitchFault>
    requires source { query.now.source.now.rows ≡ query.now.view.now }
    requires reference { IsTrue
        (is_reference_of (graphs_seen query.now.view.now) reference.file reference.node) }
    ensures found { IfOk result
        (λ found. IsFound query.now.bounds
        (graphs_seen query.now.view.now) reference found.rows found.limit) }
    ensures crowded { result ≡ Err StitchFault.Crowded
        → IsSomeAnd (start (graphs_seen query.now.view.now) reference)
        (IsCrowded query.now.bounds (graphs_seen query.now.view.now)) }
{
    gate.enter(job);
    let found = definitions_by(room, query.source, reference, query.bounds);
    gate.leave(job);
    found
}
