//! The number of a path's file in a view.

ghost use Rattle.std.specs.Prelude.{◌≡◌, ◌<◌, Some, IfSome, IsTrue};
ghost use Rattle.version_tree.specs.{Limits.{max_files}, Views.{path_at}};
ghost use Rattle.root_index.specs.Offers.{number_in};

use version_tree::View;

/// The number of the file at the path in the view: the one told where the file stands there, as in a view of all
/// files, else found by halving; None where it isn't seen.
pub(crate) fn number_in(view: &View, path: &str, near: u32) -> Option<u32>
    ensures value { result ≡ number_in view.now path.now }
    ensures few { IfSome result (λ n. n < max_files) }
{
    let _count = view.row_count();
    if is_row(view, path, near) {
        return Some(near);
    }
    view.find(path)
}

/// Whether the view's file of that number has the path.
fn is_row(view: &View, path: &str, number: u32) -> bool
    ensures { IsTrue result → path_at view.now number ≡ Some path.now }
{
    number < view.row_count() && are_same(view.path(number).as_bytes(), path.as_bytes())
}

/// Whether both are the same bytes. They are compared one by one: paths of files are so short that comparing words of them
/// takes longer.
fn are_same(one: &[u8], other: &[u8]) -> bool
    ensures { IsTrue result → one.now ≡ other.now }
{
    let count = one.len();
    if other.len() != count {
        return false;
    }
    for i in 0..count {
        if one[i] != other[i] {
            return false;
        }
    }
    true
}
