//! How far a session is.
ghost use Rattle.std.specs.Prelude.{◌≡◌};
ghost use Rattle.nav_lsp.specs.Editing.{is_shut};

/// How far a session is.
#[derive(Clone, Copy, Debug, PartialEq, Eq)]
pub enum Phase {
    /// `initialize` wasn't answered yet.
    Before,
    /// It was, and `shutdown` wasn't.
    Open,
    /// `shutdown` was answered.
    Shut,
}

impl Phase {
    /// Whether `shutdown` was answered.
    pub(crate) fn is_shut(self) -> bool
        ensures { result ≡ is_shut self }
    {
        match self {
            Phase::Before | Phase::Open => false,
            Phase::Shut => true,
        }
    }
}
