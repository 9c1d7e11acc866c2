//! A yard over the machine's sockets. It tells nothing of its ports.
ghost use Rattle.std.specs.Prelude.{◌≡◌, ◌≤◌, ℕ, None};

use crate::port::MioPort;
use crate::told::Told;
use nav_io::HouseFault;
use poll_many::Yard;
use std::alloc::Global;
use std::cell::Cell;
use std::net::Net;

/// A yard whose ports listen on 127.0.0.1, and tell there where, and what the system refused.
#[derive(Drop)]
pub struct MioYard<'r, R> {
    net: &'r R,
    alloc: Global,
    told: &'r Told<'r>,
    /// What the links of a port tell it.
    again: &'r Cell<bool>,
    faults: u64,
}

impl<'r, R> MioYard<'r, R> {
    /// A yard with no fault yet.
    pub fn new(
        net: &'r R,
        alloc: Global,
        told: &'r Told<'r>,
        again: &'r Cell<bool>,
    ) -> MioYard<'r, R> {
        MioYard {
            net,
            alloc,
            told,
            again,
            faults: 0,
        }
    }
}

impl<'r, R: Net> Yard for MioYard<'r, R> {
    type P = MioPort<'r>;

    ghost gave = { λ _. None };

    ghost got_back = { λ _. None };

    ghost faults = { λ yard. yard.faults };

    fn port(&mut self, port: u16) -> Result<MioPort<'r>, HouseFault> {
        match MioPort::open(self.net, self.alloc, self.told, self.again, port) {
            Ok(opened) => {
                self.told.listens(port);
                Ok(opened)
            }
            Err(error) => {
                self.told.refused_port(port, &error);
                self.faults = self.faults.saturating_add(1);
                Err(HouseFault::Failed)
            }
        }
    }

    /// Lets go of the port, which is free then.
    fn close(&mut self, port: MioPort<'r>) {
        drop(port);
    }
}
