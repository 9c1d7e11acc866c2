ghost use Rattle.nav_answers.specs.{Laws.{CallersHaveOneReply, QueriesHaveOneReply}, Twins.{TwinsAreFoundAlike}};

/// A law: two replies to one query over equal lists of files are equal. So the reply is told by what the user sees,
/// the query and nothing else.
pub fn queries_have_one_reply()
    ensures { QueriesHaveOneReply }
{}

/// A law: so it is of `callers`.
pub fn callers_have_one_reply()
    ensures { CallersHaveOneReply }
{}

/// A law: two references of one file that have the same plain symbol, where no path is cut, and that are each left by one
/// edge alone, to the same place, have the same definitions, and a run of both or of neither is left out for its length
/// or depth.
pub fn twins_are_found_alike()
    ensures { TwinsAreFoundAlike }
{}
