//! A yard in memory, which fails as it is told to.
ghost use Rattle.std.specs.Prelude.{◌≡◌, ◌≤◌, ◌↔◌, ◌⊎◌, [], ◌∷◌, None, Some, Err, IfOk, OnOk, OnErr, IsTrue};
ghost use Rattle.nav_io.specs.{Faults.{HasRisen, counted}, Told.{append_told, HasOut}};
ghost use Rattle.poll_many.specs.MemPorts.{YardState, held_list};

use crate::mem_port::MemPort;
use crate::yard::Yard;
use nav_io::HouseFault;
use std::marker::Model;
use std::snapshot::Snapshot;

/// A yard that gives its one port out once. It fails where it was told to, and where it is asked again.
#[derive(Drop)]
pub struct MemYard {
    port: Option<MemPort>,
    /// The port as it was handed in.
    first: Snapshot<MemPort>,
    /// Whether it was given out.
    is_given: bool,
    fails: bool,
    faults: u64,
}

impl Model for MemYard {
    ghost use Rattle.std.specs.Prelude.{◌≡◌, [], ◌∷◌, Some, false, if◌then◌else◌};
    ghost use Rattle.poll_many.specs.MemPorts.{YardState, held_list};

    ghost Value = { YardState };

    ghost view = { λ yard. record {
      held = yard.port;
      gave = if yard.is_given then yard.first.value ∷ [] else [];
      back = if yard.is_given then held_list yard.port else [];
      fails = yard.fails;
      faults = yard.faults;
    } };

    ghost invariant = { λ yard. yard.is_given ≡ false → yard.port ≡ Some yard.first.value };
}

impl MemYard {
    /// A yard with this port to give out.
    pub fn new(port: MemPort, fails: bool) -> MemYard
        ensures { result ≡ record {
          held = Some port;
          gave = [];
          back = [];
          fails = fails;
          faults = 0;
        } }
    {
        MemYard {
            first: Snapshot::of(&port),
            port: Some(port),
            is_given: false,
            fails,
            faults: 0,
        }
    }

    /// The port that it holds.
    pub fn into_port(self) -> Option<MemPort>
        ensures { result ≡ self.held }
    {
        let MemYard { port, .. } = self;
        port
    }
}

impl Yard for MemYard {
    type P = MemPort;

    ghost gave = { λ yard. Some yard.gave };

    ghost got_back = { λ yard. Some yard.back };

    ghost faults = { λ yard. yard.faults };

    fn port(&mut self, _port: u16) -> Result<MemPort, HouseFault>
        ensures ok { IfOk result (λ given. Some self.new.gave
            ≡ append_told (Some self.old.gave) (given ∷ [])) }
        ensures out { OnOk result (HasOut (Some self.new.gave) (Some self.new.back) 1) }
        ensures err { OnErr result (Some self.new.gave ≡ Some self.old.gave) }
        ensures back { Some self.new.back ≡ Some self.old.back }
        ensures no_more_back { HasOut (Some self.new.gave) (Some self.new.back) 0 }
        ensures count { self.old.faults ≤ self.new.faults }
        ensures cause { result ≡ Err HouseFault.Failed
            → HasRisen self.old.faults self.new.faults }

        // It gives the port that it was made with, once, and fails as it was told to, or where it gave it before.
        ensures first { IfOk result (λ given. self.old.held ≡ Some given) }
        ensures failing { (result ≡ Err HouseFault.Failed)
            ↔ (IsTrue self.old.fails ⊎ (self.old.gave ≡ [] → ⊥)) }
        ensures memory { result ≡ Err HouseFault.NoMemory → ⊥ }
        ensures none_held { OnOk result (self.new.held ≡ None) }
        ensures failed { OnErr result (self.new
            ≡ record self.old { faults = counted self.old.faults }) }
    {
        if !self.fails && !self.is_given {
            if let Some(port) = self.port.take() {
                self.is_given = true;
                return Ok(port);
            }
        }
        self.faults = self.faults.saturating_add(1);
        Err(HouseFault::Failed)
    }

    fn close(&mut self, port: MemPort)
        requires { HasOut (Some self.old.gave) (Some self.old.back) 1 }
        ensures back { Some self.new.back ≡ append_told (Some self.old.back) (port ∷ []) }
        ensures given { Some self.new.gave ≡ Some self.old.gave }
        ensures no_more_back { HasOut (Some self.new.gave) (Some self.new.back) 0 }
        ensures count { self.old.faults ≤ self.new.faults }

        // It holds the port.
        ensures held { self.new.held ≡ Some port }
        ensures faults { self.new.faults ≡ self.old.faults }
    {
        self.port = Some(port);
    }
}
