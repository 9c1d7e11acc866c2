use crate::leads::Leads;
use graph_nodes::FileGraph;
use partial_path::{Bounds, Config};

/// What one search goes over.
#[derive(Drop)]
pub struct Query<'a> {
    pub files: &'a [FileGraph],
    /// Where its runs start.
    pub start: &'a Config,
    pub bounds: Bounds,
    /// From which spots a run can still land.
    pub leads: &'a Leads,
}
