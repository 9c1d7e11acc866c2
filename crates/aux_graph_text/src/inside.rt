ghost use Rattle.std.specs.Prelude.{◌≡◌, IfOk};
ghost use Rattle.partial_path.specs.{Apply.{apply}, FileNumbers.{IsOfFileZero}, Moved.{moved}};

use partial_path::{LentConfig, StoredPath, file_zero_moves};
use std::alloc::{AllocError, Global};

/// What a path of file 0 alone gives applied to the configuration; None where it gives nothing. The one
/// error is want of memory.
pub fn apply_inside<'a>(
    alloc: Global,
    path: &StoredPath<'a>,
    at: &LentConfig<'a>,
) -> Result<Option<LentConfig<'a>>, AllocError>
    requires { IsOfFileZero path.now }
    ensures { IfOk result (λ next. next ≡ apply (moved 0 path.now) at.now) }
{
    file_zero_moves();
    path.apply(alloc, 0, at)
}
