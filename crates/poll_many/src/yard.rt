//! Where ports come from.
ghost use Rattle.std.specs.Prelude.{◌≡◌, ◌≤◌, ℕ, List, [], ◌∷◌, Option, Err, IfOk, OnOk, OnErr};
ghost use Rattle.nav_io.specs.{Faults.{HasRisen}, Told.{append_told, HasOut}};

use crate::port::Port;
use nav_io::HouseFault;

/// Gives out ports and takes them back.
pub trait Yard {
    ghost use Rattle.std.specs.Prelude.{◌≡◌, ◌≤◌, ℕ, List, [], ◌∷◌, Option, Err, IfOk, OnOk, OnErr};
    ghost use Rattle.nav_io.specs.{Faults.{HasRisen}, Told.{append_told, HasOut}};
    ghost use Rattle.nav_io.specs.declared.house.HouseFault.TheVariants as fault;

    type P: Port;

    /// The ports that it gave out, in their order, where it tells them.
    ghost gave: { Self → Option (List Self.P) };

    /// The ports that it got back, in the order in which they came back, where it tells them.
    ghost got_back: { Self → Option (List Self.P) };

    /// How many faults it has had. The count stands still at 2^64 - 1.
    ghost faults: { Self → ℕ };

    /// Gives out a port where connections to this number arrive.
    ///
    /// `Failed` comes only where the count of faults rose in this call.
    fn port(&mut self, port: u16) -> Result<Self::P, HouseFault>
        ensures ok { IfOk result (λ given. gave self.new
            ≡ append_told (gave self.old) (given ∷ [])) }
        ensures out { OnOk result (HasOut (gave self.new) (got_back self.new) 1) }
        ensures err { OnErr result (gave self.new ≡ gave self.old) }
        ensures back { got_back self.new ≡ got_back self.old }
        ensures no_more_back { HasOut (gave self.new) (got_back self.new) 0 }

        ensures count { faults self.old ≤ faults self.new }
        ensures cause { result ≡ Err fault.Failed → HasRisen (faults self.old) (faults self.new) };

    /// Takes a port back, which will be used no more.
    fn close(&mut self, port: Self::P)
        requires { HasOut (gave self.old) (got_back self.old) 1 }
        ensures back { got_back self.new ≡ append_told (got_back self.old) (port ∷ []) }
        ensures given { gave self.new ≡ gave self.old }
        ensures no_more_back { HasOut (gave self.new) (got_back self.new) 0 }
        ensures count { faults self.old ≤ faults self.new };
}
