//! Doors and houses in memory.
ghost use Rattle.std.specs.Prelude.{◌≡◌, ◌+◌, ◌<◌, ◌≤◌, ◌↔◌, [], ◌∷◌, ◌++◌, Some, length, take, vec_len, IfOk, OnOk, OnErr, IsTrue, false, ◌⊎◌};
ghost use Rattle.nav_io.specs.{Faults.{HasRisen, counted}, Told.{append_told, HasOut}, Lending.{lend, take_back}, Doors.{DoorState, HouseState}};

use super::lent::Lent;
use super::{MemSink, MemSource};
use crate::{Door, Failed, House, HouseFault};
use std::alloc::Global;
use std::marker::Model;

/// A door that gives out prepared pairs in their order, and fails past the last.
#[derive(Drop)]
pub struct MemDoor {
    pairs: Lent<(MemSource, MemSink)>,
    faults: u64,
}

impl Model for MemDoor {
    ghost Value = { DoorState };

    ghost view = { λ door. record { pairs = door.pairs; faults = door.faults } };
}

impl MemDoor {
    /// A door with these pairs to give out.
    pub fn new(pairs: Vec<(MemSource, MemSink)>) -> MemDoor
        ensures { result ≡ record {
          pairs = record { waiting = pairs.items; gave = []; back = [] };
          faults = 0;
        } }
    {
        MemDoor {
            pairs: Lent::new(pairs),
            faults: 0,
        }
    }

    /// The pairs that it got back, in the order in which they came back.
    pub fn into_pairs(self) -> Vec<(MemSource, MemSink)>
        ensures { result.items ≡ self.pairs.back }
    {
        let MemDoor { pairs, faults: _ } = self;
        pairs.into_back()
    }
}

impl Door for MemDoor {
    type S = MemSource;

    type K = MemSink;

    ghost gave = { λ door. Some door.pairs.gave };

    ghost got_back = { λ door. Some door.pairs.back };

    ghost faults = { λ door. door.faults };

    fn accept(&mut self) -> Result<(MemSource, MemSink), Failed>
        ensures ok { IfOk result (λ pair. Some self.new.pairs.gave
            ≡ append_told (Some self.old.pairs.gave) (pair ∷ [])) }
        ensures out { OnOk result (HasOut (Some self.new.pairs.gave) (Some self.new.pairs.back) 1) }
        ensures err { OnErr result (Some self.new.pairs.gave ≡ Some self.old.pairs.gave) }
        ensures back { Some self.new.pairs.back ≡ Some self.old.pairs.back }
        ensures no_more_back { HasOut (Some self.new.pairs.gave) (Some self.new.pairs.back) 0 }
        ensures count { self.old.faults ≤ self.new.faults }
        ensures cause { OnErr result (HasRisen self.old.faults self.new.faults) }

        // Beside the trait's, for tests: the first of those that wait, and a fault exactly where there is none.
        ensures first { IfOk result
            (λ pair. self.old.pairs.waiting ≡ pair ∷ self.new.pairs.waiting) }
        ensures none { OnErr result (self.old.pairs.waiting ≡ []) }
        ensures after { OnOk result (self.new ≡ record self.old { pairs = lend 1 self.old.pairs }) }
        ensures failed { OnErr result
            (self.new ≡ record self.old { faults = counted self.old.faults }) }
    {
        match self.pairs.next() {
            Some(pair) => Ok(pair),
            None => {
                self.faults = self.faults.saturating_add(1);
                Err(Failed)
            }
        }
    }

    fn done(&mut self, source: MemSource, sink: MemSink)
        requires { HasOut (Some self.old.pairs.gave) (Some self.old.pairs.back) 1 }
        ensures back { Some self.new.pairs.back
            ≡ append_told (Some self.old.pairs.back) ((source, sink) ∷ []) }
        ensures given { Some self.new.pairs.gave ≡ Some self.old.pairs.gave }
        ensures no_more_back { HasOut (Some self.new.pairs.gave) (Some self.new.pairs.back) 0 }
        ensures count { self.old.faults ≤ self.new.faults }

        // Beside the trait's, for tests: nothing else changes.
        ensures after { self.new
            ≡ record self.old { pairs = take_back self.old.pairs ((source, sink) ∷ []) } }
    {
        self.pairs.put_back((source, sink));
    }
}

/// A house that gives out prepared doors, the first ones first. It fails where it was told to, and where
/// it holds fewer than it is asked for.
#[derive(Drop)]
pub struct MemHouse {
    doors: Lent<MemDoor>,
    fails: bool,
    faults: u64,
}

impl Model for MemHouse {
    ghost Value = { HouseState };

    ghost view = { λ house. record {
      doors = house.doors;
      fails = house.fails;
      faults = house.faults;
    } };
}

impl MemHouse {
    /// A house with these doors to give out.
    pub fn new(doors: Vec<MemDoor>, fails: bool) -> MemHouse
        ensures { result ≡ record {
          doors = record { waiting = doors.items; gave = []; back = [] };
          fails = fails;
          faults = 0;
        } }
    {
        MemHouse {
            doors: Lent::new(doors),
            fails,
            faults: 0,
        }
    }

    /// The doors that it got back, in the order in which they came back.
    pub fn into_doors(self) -> Vec<MemDoor>
        ensures { result.items ≡ self.doors.back }
    {
        let MemHouse {
            doors,
            fails: _,
            faults: _,
        } = self;
        doors.into_back()
    }
}

impl House for MemHouse {
    type D = MemDoor;

    ghost gave = { λ house. Some house.doors.gave };

    ghost got_back = { λ house. Some house.doors.back };

    ghost faults = { λ house. house.faults };

    fn doors(&mut self, alloc: Global, _port: u16, count: u32) -> Result<Vec<MemDoor>, HouseFault>
        ensures ok { IfOk result (λ doors. Some self.new.doors.gave
            ≡ append_told (Some self.old.doors.gave) doors.items) }
        ensures all { IfOk result (λ doors. vec_len doors ≡ count) }
        ensures out { OnOk result
            (HasOut (Some self.new.doors.gave) (Some self.new.doors.back) count) }
        ensures err { OnErr result (Some self.new.doors.gave ≡ Some self.old.doors.gave) }
        ensures back { Some self.new.doors.back ≡ Some self.old.doors.back }
        ensures no_more_back { HasOut (Some self.new.doors.gave) (Some self.new.doors.back) 0 }
        ensures count { self.old.faults ≤ self.new.faults }
        ensures cause { result ≡ Err HouseFault.Failed → HasRisen self.old.faults self.new.faults }

        // Beside the trait's, for tests: the first of those that wait, and a fault where it was told to, or where too
        // few wait.
        ensures first { IfOk result (λ doors. doors.items ≡ take count self.old.doors.waiting) }
        ensures failing { (result ≡ Err HouseFault.Failed)
            ↔ (IsTrue self.old.fails ⊎ (length self.old.doors.waiting < count)) }
        ensures after { OnOk result
            (self.new ≡ record self.old { doors = lend count self.old.doors }) }
        ensures failed { result ≡ Err HouseFault.Failed
            → self.new ≡ record self.old { faults = counted self.old.faults } }
        ensures memory { result ≡ Err HouseFault.NoMemory → self.new ≡ self.old }
    {
        let wanted = count as usize;
        let waiting = self.doors.waiting();
        if self.fails || waiting < wanted {
            self.faults = self.faults.saturating_add(1);
            return Err(HouseFault::Failed);
        }
        match self.doors.next_ones(alloc, wanted) {
            Ok(doors) => Ok(doors),
            Err(_) => Err(HouseFault::NoMemory),
        }
    }

    fn close(&mut self, doors: Vec<MemDoor>)
        requires { HasOut (Some self.old.doors.gave) (Some self.old.doors.back) (vec_len doors) }
        ensures back { Some self.new.doors.back
            ≡ append_told (Some self.old.doors.back) doors.items }
        ensures given { Some self.new.doors.gave ≡ Some self.old.doors.gave }
        ensures no_more_back { HasOut (Some self.new.doors.gave) (Some self.new.doors.back) 0 }
        ensures count { self.old.faults ≤ self.new.faults }

        // Beside the trait's, for tests: nothing else changes.
        ensures after { self.new
            ≡ record self.old { doors = take_back self.old.doors doors.items } }
    {
        self.doors.put_all_back(doors);
    }
}
