//! What the serving of a port began with.
use std::alloc::Global;
use std::snapshot::Snapshot;

/// The port and the seats as they were, and the most links that are served. The two copies exist in the proofs alone.
#[derive(Drop)]
pub struct Call<P, B> {
    pub(crate) port: Snapshot<P>,
    pub(crate) seats: Snapshot<Vec<B>>,
    pub(crate) most: u32,
}

/// What the rounds work with: the handle by which a query starts threads, the allocator, and what the serving began with.
#[derive(Drop)]
pub struct Means<'a, R, P, B> {
    pub(crate) rt: &'a R,
    pub(crate) alloc: Global,
    pub(crate) call: &'a Call<P, B>,
}
