ghost use Rattle.nav_demo.specs.Laws.{TreesHaveOneSummary};

/// A law of summaries: where a log has only the entries of the session, as on a board of one seat, a made tree has one
/// summary. So what is written is a function of the number of files and the start.
pub fn trees_have_one_summary()
    ensures { TreesHaveOneSummary }
{}
