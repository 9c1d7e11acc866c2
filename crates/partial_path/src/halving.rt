//! Places that are found by halving.
ghost use Rattle.std.specs.{Prelude.{◌≡◌, ◌≤◌, ◌<◌, Bool, length}, List.{prefix_len}, List.Sorted.{IsPartitionedBy}, Borrow.{Bor}};
ghost use Rattle.partial_path.specs.Rules.{Rule};

use crate::stored::StoredPath;
use crate::stored_paths::StoredPaths;

/// A place in the middle of those from `low` on and before `high`.
pub fn middle_of(low: usize, high: usize) -> usize
    requires { low < high }
    ensures low { low ≤ result }
    ensures high { result < high }
{
    low + (high - low) / 2
}

/// How many of the first paths pass the test, of paths of which none passes it after one that doesn't: by halving.
pub fn count_first<F: Fn(&StoredPath<'_>) -> bool>(paths: &StoredPaths<'_>, passes: F) -> usize
    requires { F.IsAlwaysCallable passes }
    ensures value { (p : Rule → Bool)
        → ((path : Bor Rule) (passed : Bool) → F.post passes path passed → passed ≡ p path.now)
        → IsPartitionedBy p paths.now → result ≡ prefix_len p paths.now }
    ensures bound { result ≤ length paths.now }
{
    let mut low = 0;
    let mut high = paths.len();
    while low < high {
        let middle = middle_of(low, high);
        if passes(&paths.at(middle)) {
            low = middle + 1;
            continue;
        }
        high = middle;
    }
    low
}
