//! Whether two marks are one.

ghost use Rattle.std.specs.Prelude.{◌≡◌};
ghost use Rattle.py_subset.specs.Marks as spec;

use crate::token::Mark;

/// Whether two marks are one.
pub fn same(a: Mark, b: Mark) -> bool
    ensures { result ≡ spec.same a b }
{
    a == b
}
