ghost use Rattle.version_board.specs.Core.{CoreLaw};
ghost use Rattle.nav_session.specs.{Exchanges.{IsDue, QueriesAreAskedAtPin}, Laws.{FirstLinesHaveOneScript, LinesHaveOneScript}};

use crate::exchange::Replied;
use nav_answers::{callers_have_one_reply, queries_have_one_reply};
use version_board::seats_keep_their_entries;

/// A law of transcripts: where a log has only the entries of the session, as on a board of one seat, the lines have one
/// text of replies. So what is written to an input is a function of the input.
pub fn lines_have_one_script()
    ensures { LinesHaveOneScript }
{
    queries_have_one_reply();
    callers_have_one_reply();
}

/// A law of transcripts: of two sessions as above the one whose lines begin those of the other has the first replies of
/// the other. So where fewer lines are answered than are to be, what is written begins what is written of all.
pub fn first_lines_have_one_script()
    ensures { FirstLinesHaveOneScript }
{
    queries_have_one_reply();
    callers_have_one_reply();
}

/// A law of all sessions at once: each query that a seat is asked, among any steps of any seats, has the reply that is due
/// over what its user sees of the version that the seat pinned then; and so has each query of a session.
pub fn queries_are_answered_at_the_pin()
    ensures all_seats { CoreLaw IsDue }
    ensures session { QueriesAreAskedAtPin }
{
    seats_keep_their_entries::<Replied>();
}
