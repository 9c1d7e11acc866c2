ghost use Rattle.nav_poll.specs.Scripts.{PolledSessionsKeepToScript};

use nav_session::first_lines_have_one_script;

/// A law of polled sessions: where the log was empty at a start and has only entries of the session's seat, as that of a
/// `PlainBoard` has, what the link took since begins the text that a session over a source and a sink writes to the bytes
/// that were to come. So it is the same for every order of polls and every cut of the link.
pub fn polled_sessions_keep_to_script()
    ensures { PolledSessionsKeepToScript }
{
    first_lines_have_one_script();
}
