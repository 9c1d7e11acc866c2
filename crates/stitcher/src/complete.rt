//! Complete runs, kept as the stored paths that they are joined of.
use crate::trail::{Level, push_edges};
use partial_path::{EdgeAt, StoredPath};
use stacks_vars::NodeAt;
use std::alloc::{AllocError, Global};
use std::marker::Model;

/// A stored path that a run is joined of, and the number of its file. A contract sees both.
#[derive(Drop)]
pub struct RunPath<'a> {
    file: u32,
    path: StoredPath<'a>,
}

impl<'a> Model for RunPath<'a> {
    ghost use Rattle.std.specs.Prelude.{ℕ};
    ghost use Rattle.partial_path.specs.Rules.{Rule};
    ghost use Rattle.stitcher.specs.Trail.{Moves};

    ghost Value = { ℕ × Rule };

    ghost view = { λ p. (p.file, p.path) };

    ghost invariant = { λ p. Moves p.file p.path };
}

impl<'a> RunPath<'a> {
    ghost use Rattle.std.specs.Prelude.{◌≡◌, ◌++◌, IfOk};
    ghost use Rattle.partial_path.specs.Cutting.{edges_in};
    ghost use Rattle.stitcher.specs.Trail.{Moves, path_of};

    /// The path that was joined. It costs nothing.
    pub fn of(level: &Level<'a>) -> RunPath<'a>
        requires { Moves level.now.file level.now.path }
        ensures { result ≡ path_of level.now }
    {
        RunPath {
            file: level.file,
            path: level.path.again(),
        }
    }

    /// Adds its edges; the one error is want of memory.
    fn push_to(&self, edges: &mut Vec<EdgeAt>) -> Result<(), AllocError>
        ensures { IfOk result (λ _. edges.new.items ≡ edges.old.items ++ edges_in self.now) }
    {
        push_edges(edges, self.file, &self.path)
    }
}

/// A complete run. It is kept as the stored paths that it is joined of, and its edges are made of these where they are
/// asked for. A contract sees its edges, and the definition at which it ends.
#[derive(Drop)]
pub struct CompleteRun<'a> {
    paths: Vec<RunPath<'a>>,
    /// For so many edges room is made.
    count: usize,
    end: NodeAt,
}

impl<'a> Model for CompleteRun<'a> {
    ghost use Rattle.stitcher.specs.Found.{EdgePath, edge_path};

    ghost Value = { EdgePath };

    ghost view = { λ r. edge_path r.paths.items r.end };
}

impl<'a> CompleteRun<'a> {
    ghost use Rattle.std.specs.Prelude.{◌≡◌, IfOk};
    ghost use Rattle.stitcher.specs.Found.{edge_path};

    /// The run of these paths, which have so many edges together.
    pub(crate) fn of(paths: Vec<RunPath<'a>>, count: usize, end: NodeAt) -> CompleteRun<'a>
        ensures { result ≡ edge_path paths.entry.items end }
    {
        CompleteRun { paths, count, end }
    }

    /// The definition at which it ends.
    pub fn end(&self) -> NodeAt
        ensures { result ≡ self.now.end }
    {
        self.end
    }

    /// Its edges, the first first, made of its paths; the one error is want of memory.
    pub fn edges(&self, alloc: Global) -> Result<Vec<EdgeAt>, AllocError>
        ensures { IfOk result (λ edges. edges.items ≡ self.now.edges) }
    {
        // For all of them at once, so that the vector never grows.
        let mut edges = Vec::with_capacity(alloc, self.count)?;
        for path in &self.paths {
            path.push_to(&mut edges)?;
        }
        Ok(edges)
    }

    /// Its list of paths, to be written over.
    pub(crate) fn into_paths(self) -> Vec<RunPath<'a>> {
        self.paths
    }
}
