//! What shows the newest value to readers.
ghost use Rattle.std.specs.Prelude.{◌≡◌, OnOk, OnErr};
ghost use Rattle.left_right.specs.Handles.{published};

use left_right::{Absorb, WriteHandle};
use std::alloc::AllocError;
use std::sync::Wait;

/// What shows values to readers, of which each finds the last one when it looks.
pub trait Shows<O> {
    /// This value was shown last: what readers find is what it makes of something.
    ghost shows: { Self → O → Type 0 };

    /// Shows the value. The one error is want of memory; then readers find what they found before, and it may be shown
    /// with the next one.
    fn show(&mut self, value: O) -> Result<(), AllocError>
        ensures ok { OnOk result (shows self.new value) }
        ensures stays { OnErr result ((before : O)
            → shows self.old before → shows self.new before) };
}

impl<T: Absorb<O> + Drop, O: Drop, R: Wait + Drop> Shows<O> for WriteHandle<T, O, R> {
    ghost use Rattle.std.specs.Prelude.{◌≡◌};
    ghost use Rattle.left_right.specs.Handles.{published};

    ghost shows = { λ w value. (before : T.State)
        × (T.state (published w) ≡ T.applied before value) };

    fn show(&mut self, value: O) -> Result<(), AllocError>
        ensures ok { OnOk result ((before : T.State)
            × (T.state (published self.new) ≡ T.applied before value)) }
        ensures stays { OnErr result (published self.new ≡ published self.old) }
    {
        if self.append(value).is_err() {
            return Err(AllocError);
        }
        self.publish()
    }
}
