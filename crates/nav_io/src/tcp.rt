//! A house over the sockets of the machine itself. It tells nothing of bytes, pairs and doors.
ghost use Rattle.std.specs.Prelude.{◌≡◌, ◌≤◌, ℕ, None, vec_len, IfOk, OnOk, OnErr};
ghost use Rattle.nav_io.specs.Faults.{HasRisen, counted};

use crate::{Door, Failed, Guarded, House, HouseFault, Notices, StdSink, StdSource};
use std::alloc::Global;
use std::io;
use std::marker::Model;
use std::net::{Ipv4Addr, Net, OpenListener, OpenStream, SocketAddr};

/// A door that accepts connections on a listener, of which other doors may have handles too. A pair is a
/// stream and another handle of it; the connection ends once both are dropped. One whose first bytes begin a
/// request of the Hypertext Transfer Protocol has no line. Contracts see its faults.
#[derive(Drop)]
pub struct TcpDoor<'r, R: Net, N> {
    listener: R::Listener,
    /// Which of its house's doors it is, from 1.
    number: u32,
    notices: &'r N,
    faults: u64,
}

impl<'r, R: Net, N> Model for TcpDoor<'r, R, N> {
    ghost Value = { ℕ };

    ghost view = { λ door. door.faults };
}

impl<'r, R: Net, N: Notices> Door for TcpDoor<'r, R, N> {
    type S = StdSource<Guarded<R::Stream>>;

    type K = StdSink<R::Stream>;

    ghost gave = { λ _. None };

    ghost got_back = { λ _. None };

    ghost faults = { λ door. door };

    /// Waits for the next connection. `Failed` where none can be accepted, or no handle is left.
    fn accept(&mut self) -> Result<(StdSource<Guarded<R::Stream>>, StdSink<R::Stream>), Failed>
        ensures count { self.old ≤ self.new }
        ensures cause { OnErr result (HasRisen self.old self.new) }

        // Whoever serves them tells a fault of theirs by a count that rose, so both begin with none.
        ensures fresh { IfOk result (λ pair. (pair.0.faults ≡ 0) × (pair.1.faults ≡ 0)) }
        ensures ok { OnOk result (self.new ≡ self.old) }
        ensures err { OnErr result (self.new ≡ counted self.old) }
    {
        match accepted::<R>(&self.listener) {
            Ok((reader, writer)) => Ok((
                StdSource::new(Guarded::new(reader)),
                StdSink::new(writer),
            )),
            Err(error) => {
                self.notices.refused_connection(self.number, &error);
                self.faults = self.faults.saturating_add(1);
                Err(Failed)
            }
        }
    }

    /// Ends the connection, and tells where its client was the cause.
    fn done(&mut self, source: StdSource<Guarded<R::Stream>>, sink: StdSink<R::Stream>)
        ensures same { self.new ≡ self.old }
        ensures count { self.old ≤ self.new }
    {
        if let Some(cut) = source.inner().cut() {
            self.notices.cut(self.number, cut);
        }
        drop(source);
        drop(sink);
    }
}

/// The stream of the next connection, and another handle of it. Replies are small and written as soon as they
/// are there, so the stream sends each at once and doesn't hold it back until the last one is acknowledged.
/// That is a matter of speed alone: a stream that can't be told so serves as well.
fn accepted<R: Net>(listener: &R::Listener) -> io::Result<(R::Stream, R::Stream)> {
    let (stream, _) = listener.accept()?;
    let _ = stream.set_nodelay(true);
    let other = stream.try_clone()?;
    Ok((stream, other))
}

/// A house whose doors wait for connections from the machine itself, on 127.0.0.1. Contracts see its faults.
#[derive(Drop)]
pub struct TcpHouse<'r, R: Net, N> {
    net: &'r R,
    notices: &'r N,
    faults: u64,
}

impl<'r, R: Net, N> Model for TcpHouse<'r, R, N> {
    ghost Value = { ℕ };

    ghost view = { λ house. house.faults };
}

impl<'r, R: Net, N> TcpHouse<'r, R, N> {
    /// A house with no fault yet, which tells there where it listens, what it was refused and which connections
    /// ended early.
    pub fn new(net: &'r R, notices: &'r N) -> TcpHouse<'r, R, N>
        ensures { result ≡ 0 }
    {
        TcpHouse {
            net,
            notices,
            faults: 0,
        }
    }
}

impl<'r, R: Net, N: Notices> House for TcpHouse<'r, R, N> {
    type D = TcpDoor<'r, R, N>;

    ghost gave = { λ _. None };

    ghost got_back = { λ _. None };

    ghost faults = { λ house. house };

    /// Listens at the port, and gives each door a handle of that one listener.
    fn doors(
        &mut self,
        alloc: Global,
        port: u16,
        count: u32,
    ) -> Result<Vec<TcpDoor<'r, R, N>>, HouseFault>
        ensures all { IfOk result (λ doors. vec_len doors ≡ count) }
        ensures count { self.old ≤ self.new }
        ensures cause { result ≡ Err HouseFault.Failed → HasRisen self.old self.new }

        // The count is all that is seen of a house over sockets: a fault raises it by one, and want of memory doesn't.
        ensures ok { OnOk result (self.new ≡ self.old) }
        ensures failed { result ≡ Err HouseFault.Failed → self.new ≡ counted self.old }
        ensures memory { result ≡ Err HouseFault.NoMemory → self.new ≡ self.old }
    {
        match open(self.net, self.notices, alloc, port, count) {
            Ok(doors) => {
                self.notices.listens(port, count);
                Ok(doors)
            }
            Err(HouseFault::NoMemory) => Err(HouseFault::NoMemory),
            Err(HouseFault::Failed) => {
                self.faults = self.faults.saturating_add(1);
                Err(HouseFault::Failed)
            }
        }
    }

    /// Lets go of the doors. The port is free once no door of it is left.
    fn close(&mut self, doors: Vec<TcpDoor<'r, R, N>>)
        ensures same { self.new ≡ self.old }
        ensures count { self.old ≤ self.new }
    {
        drop(doors);
    }
}

/// So many doors with handles of one listener at the port, on 127.0.0.1 alone: nobody on another machine is to reach it.
fn open<'r, R: Net, N: Notices>(
    net: &R,
    notices: &'r N,
    alloc: Global,
    port: u16,
    count: u32,
) -> Result<Vec<TcpDoor<'r, R, N>>, HouseFault>
    ensures { IfOk result (λ doors. vec_len doors ≡ count) }
{
    // The room comes before the port, so that no listener is opened for nothing.
    let Ok(mut doors) = Vec::with_capacity(alloc, count as usize) else {
        return Err(HouseFault::NoMemory);
    };
    let listener = match net.bind(SocketAddr::from((Ipv4Addr::LOCALHOST, port))) {
        Ok(listener) => listener,
        Err(error) => return Err(refused(notices, port, &error)),
    };
    for number in 0..count {
        match listener.try_clone() {
            Ok(listener) => doors
                .push(TcpDoor {
                    listener,
                    number: number + 1,
                    notices,
                    faults: 0,
                })
                .unwrap(),
            Err(error) => return Err(refused(notices, port, &error)),
        }
    }
    Ok(doors)
}

/// Tells the operator why the port can't be had, since the fault itself carries no text.
fn refused<N: Notices>(notices: &N, port: u16, error: &io::Error) -> HouseFault
    ensures { result ≡ HouseFault.Failed }
{
    notices.refused_port(port, error);
    HouseFault::Failed
}
