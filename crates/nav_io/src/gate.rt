//! What stands at the beginning and the end of a job.

/// Told of each job before it begins and after it ends, as by a test that holds workers back. It may wait.
pub trait Gate {
    /// Called before the job with this number begins.
    fn enter(&self, job: usize);

    /// Called after the job with this number has ended.
    fn leave(&self, job: usize);
}

/// A gate that does nothing.
#[derive(Clone, Copy, Debug, PartialEq, Eq)]
pub struct Unguarded;

impl Gate for Unguarded {
    fn enter(&self, _job: usize) {}

    fn leave(&self, _job: usize) {}
}
