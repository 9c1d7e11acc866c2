ghost use Rattle.version_tree.specs.Graphs.{LogsMakeGraphs, UsersSeeGraphs};

/// A law: the graphs of the version that a log makes are told by the log's graphs alone, whatever paths are
/// kept of them.
pub fn logs_make_graphs()
    ensures { LogsMakeGraphs }
{}

/// A law: the graphs of the files that a user is granted are those that a version's graphs and rules tell.
pub fn users_see_graphs()
    ensures { UsersSeeGraphs }
{}
