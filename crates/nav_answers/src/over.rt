//! What a query is asked over.
use root_index::RootIndex;
use std::alloc::Global;

/// What queries are asked over, as it is handed on unchanged: the handle by which threads are started, the allocator, the
/// index of the version of which files are seen, and the gate between whose calls each reference is asked.
#[derive(Drop)]
pub struct Over<'a, R, G> {
    pub rt: &'a R,
    pub alloc: Global,
    pub index: &'a RootIndex,
    pub gate: &'a G,
}
