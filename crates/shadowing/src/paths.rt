use stacks_vars::Listed;

/// An edge of the whole graph: its file's place in the list of files, and its position in that file.
#[derive(Clone, Copy, Debug, PartialEq, Eq, PartialOrd, Ord)]
pub struct EdgeNo {
    pub file: u32,
    pub edge: u32,
}

/// One step of a path: its edge, with the edge's precedence. Steps are ordered by precedence first.
#[derive(Clone, Copy, Debug, PartialEq, Eq, PartialOrd, Ord)]
pub struct EdgeStep {
    pub precedence: u16,
    pub edge: EdgeNo,
}

/// A path as its list of steps.
pub type EdgeList = Listed<EdgeStep>;
