ghost use Rattle.std.specs.Prelude.{List};
ghost use Rattle.version_tree.specs.Graphs.{GraphRow};
ghost use Rattle.version_board.specs.Core.{CoreLaw};

/// A question about the files that a user sees, with the reply to it: what a session asks a seat, which knows nothing of
/// it. Only contracts speak of it.
pub trait Exchange {
    /// Which are due over the files that the user sees.
    ghost is_due: { List GraphRow → Self → Type 0 };
}

/// A law of all sessions at once: whatever their steps on one log and in whatever order they come, what a seat has
/// seen and what it pins never falls; its entries in the log are its accepted commits, in order and numbered from 0;
/// it has seen all of them; and each question has the reply that is due over the version that its seat pinned then.
pub fn seats_keep_their_entries<E: Exchange>()
    ensures { CoreLaw E.is_due }
{}
