ghost use Rattle.nav_lsp.specs.Laws.{MessagesHaveOneScript};

/// A law of an editor's transcripts: where a log has only the entries of the session, as on a board of one seat, the
/// messages determine the replies and whether `shutdown` was answered; and of two such sessions the one whose messages
/// begin those of the other has the first replies of the other. So what is written to an editor is a function of its
/// input, and so is the status.
pub fn messages_have_one_script()
    ensures { MessagesHaveOneScript }
{}
