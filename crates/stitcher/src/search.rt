use partial_path::{Bounds, PathSource};
use stacks_vars::NodeAt;
use std::marker::Model;

/// What one search goes over: a source of stored paths, the reference whose runs are looked for, and their bounds. A
/// contract sees what is asked of the source's files.
#[derive(Drop)]
pub struct Search<'a, P: PathSource> {
    pub source: &'a P,
    pub node: NodeAt,
    pub bounds: Bounds,
}

impl<'a, P: PathSource> Model for Search<'a, P> {
    ghost use Rattle.stitcher.specs.Joins.{Asked, asked};

    ghost Value = { Asked };

    ghost view = { λ s. asked (P.files s.source.now) s.node s.bounds };
}
