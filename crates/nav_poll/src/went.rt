/// Whether a part of a poll did its work.
#[derive(Clone, Copy, Debug, PartialEq, Eq)]
pub(crate) enum Went {
    /// It did, and the poll goes on.
    On,
    /// The link has to wait.
    Waits,
}
