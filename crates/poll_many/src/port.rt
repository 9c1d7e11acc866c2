//! Where links come from: a port gives them out, and takes them back.
ghost use Rattle.std.specs.Prelude.{◌≡◌, ◌≤◌, ℕ, List, [], ◌∷◌, length, Option, Ok, OnErr};
ghost use Rattle.nav_io.specs.{Faults.{HasRisen, counted}, Told.{append_told, HasOut}};
ghost use Rattle.poll_many.specs.Arrivals.{links_in};

use nav_io::Failed;
use nav_poll::Link;

/// What came of asking for a link.
#[derive(Clone, Copy, Debug, PartialEq, Eq)]
pub enum Arrived<K> {
    /// A link.
    Link(K),
    /// None is there yet.
    NotYet,
}

/// Gives out links, one for each connection, and takes them back. Of its calls `settle` alone waits.
pub trait Port {
    ghost use Rattle.std.specs.Prelude.{◌≡◌, ◌≤◌, ℕ, List, [], ◌∷◌, length, Option, Ok, OnErr};
    ghost use Rattle.nav_io.specs.{Faults.{HasRisen, counted}, Told.{append_told, HasOut}};
    ghost use Rattle.poll_many.specs.Arrivals.{links_in};
    ghost use Rattle.poll_many.specs.declared.port.Arrived.TheVariants as arrived;

    type K: Link;

    /// The links that it gave out, in their order, where it tells them.
    ghost gave: { Self → Option (List Self.K) };

    /// The links that it got back, in the order in which they came back, where it tells them.
    ghost got_back: { Self → Option (List Self.K) };

    /// How many faults it has had. The count stands still at 2^64 - 1.
    ghost faults: { Self → ℕ };

    /// How often no link was there yet. The count stands still at 2^64 - 1.
    ghost waits: { Self → ℕ };

    /// How often it has settled. The count stands still at 2^64 - 1.
    ghost settles: { Self → ℕ };

    /// Gives out the link of the next connection, if one is there.
    ///
    /// `NotYet` comes only where the count of waits rose in this call, `Failed` only where that of faults did.
    fn accept(&mut self) -> Result<Arrived<Self::K>, Failed>
        ensures given { gave self.new ≡ append_told (gave self.old) (links_in result) }
        ensures back { got_back self.new ≡ got_back self.old }
        ensures out { HasOut (gave self.new) (got_back self.new) (length (links_in result)) }

        ensures count { faults self.old ≤ faults self.new }
        ensures wait_count { waits self.old ≤ waits self.new }
        ensures unsettled { settles self.new ≡ settles self.old }
        ensures cause { OnErr result (HasRisen (faults self.old) (faults self.new)) }
        ensures not_yet { result ≡ Ok arrived.NotYet → HasRisen (waits self.old) (waits self.new) };

    /// Takes a link back, whose connection has ended.
    fn done(&mut self, link: Self::K)
        requires { HasOut (gave self.old) (got_back self.old) 1 }
        ensures back { got_back self.new ≡ append_told (got_back self.old) (link ∷ []) }
        ensures given { gave self.new ≡ gave self.old }
        ensures no_more_back { HasOut (gave self.new) (got_back self.new) 0 }
        ensures count { faults self.old ≤ faults self.new }
        ensures wait_count { waits self.old ≤ waits self.new }
        ensures unsettled { settles self.new ≡ settles self.old };

    /// Waits until a connection may be there, or a byte may move on a link that was given out.
    ///
    /// `Failed` comes only where the count of faults rose in this call.
    fn settle(&mut self) -> Result<(), Failed>
        ensures given { gave self.new ≡ gave self.old }
        ensures back { got_back self.new ≡ got_back self.old }
        ensures no_more_back { HasOut (gave self.new) (got_back self.new) 0 }
        ensures count { faults self.old ≤ faults self.new }
        ensures wait_count { waits self.old ≤ waits self.new }
        ensures settled { settles self.new ≡ counted (settles self.old) }
        ensures cause { OnErr result (HasRisen (faults self.old) (faults self.new)) };
}
