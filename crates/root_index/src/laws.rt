ghost use Rattle.root_index.specs.Roots.{OneIndex};

/// A law: rows in the order of their paths have one index. So an amended index is the one made afresh.
pub fn rows_have_one_index()
    ensures { OneIndex }
{}
