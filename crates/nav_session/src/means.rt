use std::alloc::Global;

/// What lines are answered with, as it is handed on unchanged: the handle by which threads are started, the allocator, and
/// the gate between whose calls each job of a thread is done.
#[derive(Drop)]
pub struct Means<'a, R, G> {
    pub rt: &'a R,
    pub alloc: Global,
    pub gate: &'a G,
}
