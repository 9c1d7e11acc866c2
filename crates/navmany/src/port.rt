//! A port over the machine's sockets, by readiness. It tells nothing of its links.
ghost use Rattle.std.specs.Prelude.{◌≡◌, ◌≤◌, ℕ, None, OnErr};
ghost use Rattle.nav_io.specs.Faults.{HasRisen};

use crate::link::MioLink;
use crate::told::Told;
use mio::net::{TcpListener, TcpStream};
use mio::{Events, Interest, Poll, Token};
use nav_io::Failed;
use poll_many::{Arrived, Port};
use std::alloc::Global;
use std::cell::Cell;
use std::io;
use std::io::ErrorKind;
use std::net::{Ipv4Addr, Net, SocketAddr};
use std::time::Duration;

/// Which of them is ready isn't asked: each round polls every open session until it has to wait, and takes links before.
const LISTENER: Token = Token(0);

const LINK: Token = Token(1);

/// How many events are taken at a time.
const EVENTS: usize = 64;

/// A listener at a port of 127.0.0.1, and what it and its links are registered with. Contracts see its faults, its waits and
/// how often it has settled.
#[derive(Drop)]
pub struct MioPort<'r> {
    poll: Poll,
    events: Events<Global>,
    listener: TcpListener,
    told: &'r Told<'r>,
    /// Whether a link waits for other sessions alone, so that nothing need change at its socket.
    again: &'r Cell<bool>,
    faults: u64,
    waits: u64,
    settles: u64,
}

impl<'r> MioPort<'r> {
    /// Listens at that port.
    pub fn open(
        net: &impl Net,
        alloc: Global,
        told: &'r Told<'r>,
        again: &'r Cell<bool>,
        port: u16,
    ) -> io::Result<MioPort<'r>> {
        let poll = Poll::new(net)?;
        let events = Events::with_capacity(alloc, EVENTS)?;
        let address = SocketAddr::from((Ipv4Addr::LOCALHOST, port));
        let mut listener = TcpListener::bind(net, address)?;
        poll.registry()
            .register(&mut listener, LISTENER, Interest::READABLE)?;
        Ok(MioPort {
            poll,
            events,
            listener,
            told,
            again,
            faults: 0,
            waits: 0,
            settles: 0,
        })
    }
}

/// The stream of the next connection. It is registered once, both ways, so that each change of it ends a wait. Replies are
/// small and sent as soon as they are there; a stream that can't be told so serves as well.
fn next_stream(poll: &Poll, listener: &TcpListener) -> io::Result<TcpStream> {
    let (mut stream, _) = listener.accept()?;
    let _ = stream.set_nodelay(true);
    poll.registry()
        .register(&mut stream, LINK, Interest::READABLE | Interest::WRITABLE)?;
    Ok(stream)
}

/// How long to wait: not at all where a link said that it waits for other sessions alone, else until something changes.
fn longest_wait(again: &Cell<bool>) -> Option<Duration> {
    if again.replace(false) {
        return Some(Duration::ZERO);
    }
    None
}

impl<'r> Port for MioPort<'r> {
    type K = MioLink<'r>;

    ghost gave = { λ _. None };

    ghost got_back = { λ _. None };

    ghost faults = { λ port. port.faults };

    ghost waits = { λ port. port.waits };

    ghost settles = { λ port. port.settles };

    fn accept(&mut self) -> Result<Arrived<MioLink<'r>>, Failed> {
        match next_stream(&self.poll, &self.listener) {
            Ok(stream) => Ok(Arrived::Link(MioLink::new(stream, self.again))),
            Err(error) if error.kind() == ErrorKind::WouldBlock => {
                self.waits = self.waits.saturating_add(1);
                Ok(Arrived::NotYet)
            }
            Err(error) => {
                self.told.refused_connection(&error);
                self.faults = self.faults.saturating_add(1);
                Err(Failed)
            }
        }
    }

    /// Ends the connection, and tells where its client was the cause.
    fn done(&mut self, link: MioLink<'r>) {
        if let Some(cut) = link.cut() {
            self.told.cut(cut);
        }
        link.end();
    }

    fn settle(&mut self) -> Result<(), Failed> {
        self.settles = self.settles.saturating_add(1);
        match self.poll.poll(&mut self.events, longest_wait(self.again)) {
            Ok(()) => Ok(()),
            Err(error) => {
                self.told.refused_waiting(&error);
                self.faults = self.faults.saturating_add(1);
                Err(Failed)
            }
        }
    }
}
