//! A port in memory, which waits and fails as it is told to.
ghost use Rattle.std.specs.Prelude.{◌≡◌, ◌<◌, ◌≤◌, ◌+◌, [], ◌∷◌, ◌++◌, ◌||◌, length, true, false, None, Some, Ok, Err, IfOk, OnOk, OnErr, is_err};
ghost use Rattle.nav_io.specs.{Faults.{HasRisen, counted}, Told.{append_told, HasOut}, Lending.{lend, take_back}};
ghost use Rattle.poll_many.specs.{Arrivals.{links_in}, MemPorts.{PortState, is_to_fail, is_to_wait, is_to_fail_settling, after_fault, after_wait, after_link, after_settling, after_settle_fault}};

use crate::port::{Arrived, Port};
use nav_io::{Failed, Lent};
use nav_poll::{MemLink, is_listed};
use std::alloc::Global;
use std::marker::Model;

/// A port that gives out prepared links in their order, and fails past the last. It waits and fails at the calls that it
/// is told to.
#[derive(Drop)]
pub struct MemPort {
    links: Lent<MemLink>,
    accepts_not_yet: Vec<u32>,
    accepts_failing: Vec<u32>,
    settles_failing: Vec<u32>,
    accepts: u64,
    settles: u64,
    faults: u64,
    waits: u64,
}

impl Model for MemPort {
    ghost use Rattle.std.specs.Prelude.{◌≤◌, length};
    ghost use Rattle.poll_many.specs.MemPorts.{PortState};

    ghost Value = { PortState };

    ghost view = { λ port. record {
      links = port.links;
      accepts_not_yet = port.accepts_not_yet.items;
      accepts_failing = port.accepts_failing.items;
      settles_failing = port.settles_failing.items;
      accepts = port.accepts;
      settles = port.settles;
      faults = port.faults;
      waits = port.waits;
    } };

    ghost invariant = { λ port. length port.links.back ≤ length port.links.gave };
}

impl MemPort {
    /// A port with these links to give out. The calls of `accept` with these numbers, from 0, wait and fail; one in both
    /// lists fails. So do the calls of `settle` whose numbers stand in the last list.
    pub fn new(
        links: Vec<MemLink>,
        accepts_not_yet: Vec<u32>,
        accepts_failing: Vec<u32>,
        settles_failing: Vec<u32>,
    ) -> MemPort
        ensures { result ≡ record {
          links = record { waiting = links.items; gave = []; back = [] };
          accepts_not_yet = accepts_not_yet.items;
          accepts_failing = accepts_failing.items;
          settles_failing = settles_failing.items;
          accepts = 0;
          settles = 0;
          faults = 0;
          waits = 0;
        } }
    {
        MemPort {
            links: Lent::new(links),
            accepts_not_yet,
            accepts_failing,
            settles_failing,
            accepts: 0,
            settles: 0,
            faults: 0,
            waits: 0,
        }
    }

    /// The links that it got back, in the order in which they came back.
    pub fn into_links(self) -> Vec<MemLink>
        ensures { result.items ≡ self.links.back }
    {
        let MemPort { links, .. } = self;
        links.into_back()
    }
}

impl Port for MemPort {
    type K = MemLink;

    ghost gave = { λ port. Some port.links.gave };

    ghost got_back = { λ port. Some port.links.back };

    ghost faults = { λ port. port.faults };

    ghost waits = { λ port. port.waits };

    ghost settles = { λ port. port.settles };

    fn accept(&mut self) -> Result<Arrived<MemLink>, Failed>
        ensures given { Some self.new.links.gave
            ≡ append_told (Some self.old.links.gave) (links_in result) }
        ensures back { Some self.new.links.back ≡ Some self.old.links.back }
        ensures out { HasOut (Some self.new.links.gave) (Some self.new.links.back)
            (length (links_in result)) }
        ensures count { self.old.faults ≤ self.new.faults }
        ensures wait_count { self.old.waits ≤ self.new.waits }
        ensures unsettled { self.new.settles ≡ self.old.settles }
        ensures cause { OnErr result (HasRisen self.old.faults self.new.faults) }
        ensures not_yet { result ≡ Ok Arrived.NotYet → HasRisen self.old.waits self.new.waits }

        // It fails as it was told to, then waits as it was told to, and else gives its next link, or fails past the last.
        ensures told_to_fail { is_to_fail self.old ≡ true → (is_err result ≡ true) }
        ensures told_to_wait { is_to_wait self.old ≡ true → (result ≡ Ok Arrived.NotYet) }
        ensures next { is_to_fail self.old ≡ false → is_to_wait self.old ≡ false
            → self.old.links.waiting ≡ links_in result ++ self.new.links.waiting }
        ensures failed { OnErr result (self.new ≡ after_fault self.old) }
        ensures waited { result ≡ Ok Arrived.NotYet → self.new ≡ after_wait self.old }
        ensures gave { IfOk result (λ arrived. (arrived ≡ Arrived.NotYet → ⊥)
            → self.new ≡ after_link self.old) }
    {
        let call = self.accepts;
        self.accepts = call.saturating_add(1);
        if is_listed(&self.accepts_failing, call) {
            self.faults = self.faults.saturating_add(1);
            return Err(Failed);
        }
        if is_listed(&self.accepts_not_yet, call) {
            self.waits = self.waits.saturating_add(1);
            return Ok(Arrived::NotYet);
        }
        match self.links.next() {
            Some(link) => Ok(Arrived::Link(link)),
            None => {
                self.faults = self.faults.saturating_add(1);
                Err(Failed)
            }
        }
    }

    fn done(&mut self, link: MemLink)
        requires { HasOut (Some self.old.links.gave) (Some self.old.links.back) 1 }
        ensures back { Some self.new.links.back
            ≡ append_told (Some self.old.links.back) (link ∷ []) }
        ensures given { Some self.new.links.gave ≡ Some self.old.links.gave }
        ensures no_more_back { HasOut (Some self.new.links.gave) (Some self.new.links.back) 0 }
        ensures count { self.old.faults ≤ self.new.faults }
        ensures wait_count { self.old.waits ≤ self.new.waits }
        ensures unsettled { self.new.settles ≡ self.old.settles }

        // Nothing else changes.
        ensures after { self.new
            ≡ record self.old { links = take_back self.old.links (link ∷ []) } }
    {
        self.links.put_back(link);
    }

    fn settle(&mut self) -> Result<(), Failed>
        ensures given { Some self.new.links.gave ≡ Some self.old.links.gave }
        ensures back { Some self.new.links.back ≡ Some self.old.links.back }
        ensures no_more_back { HasOut (Some self.new.links.gave) (Some self.new.links.back) 0 }
        ensures count { self.old.faults ≤ self.new.faults }
        ensures wait_count { self.old.waits ≤ self.new.waits }
        ensures settled { self.new.settles ≡ counted self.old.settles }
        ensures cause { OnErr result (HasRisen self.old.faults self.new.faults) }

        // It fails as it was told to, and waits for nobody.
        ensures failing { is_err result ≡ is_to_fail_settling self.old }
        ensures ok { OnOk result (self.new ≡ after_settling self.old) }
        ensures failed { OnErr result (self.new ≡ after_settle_fault self.old) }
    {
        let call = self.settles;
        self.settles = call.saturating_add(1);
        if is_listed(&self.settles_failing, call) {
            self.faults = self.faults.saturating_add(1);
            return Err(Failed);
        }
        Ok(())
    }
}
