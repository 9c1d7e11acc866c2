//! What no clause says: that clients are served over sockets, and find what others have committed.
use nav_doors::serve_house;
use nav_io::{MemDoor, MemHouse, NoNotices, TcpHouse};
use std::alloc::Global;
use std::io::{Read, Write};
use std::net::{Ipv4Addr, Net, OpenStream, Shutdown, TcpListener, TcpStream};
use std::test::*;
use std::thread;
use std::thread::{Threads, yield_now};

#[test]
fn a_door_is_asked_for_no_connection(rt: HostRuntime) -> Result<(), Fail> {
    let alloc = rt.alloc();
    let doors = vec![in alloc; MemDoor::new(Vec::new(alloc))]?;
    let mut house = MemHouse::new(doors, false);
    assert_eq!(rt; serve_house(&rt, alloc, &mut house, 4000, 1, 0), 0);
    assert_eq!(rt; house.into_doors().len(), 1);
    Ok(())
}

/// What a client gets at the port that sends these lines and ends its input there.
fn asked<R: Net + Threads>(rt: &R, alloc: Global, port: u16, lines: &str) -> Result<Vec<u8>, Fail> {
    let mut told = Vec::new(alloc);
    for _ in 0..1_000_000 {
        // Nobody may listen yet.
        let Ok(mut stream) = TcpStream::connect(rt, (Ipv4Addr::LOCALHOST, port)) else {
            yield_now();
            continue;
        };
        stream.write_all(lines.as_bytes())?;
        stream.shutdown(Shutdown::Write)?;
        stream.read_to_end(&mut told)?;
        return Ok(told);
    }
    Ok(told)
}

/// What two clients get, of which the first commits and the second one comes later.
fn asked_by_two<R: Net + Threads>(rt: &R, alloc: Global, port: u16) -> Result<String, Fail> {
    let first = "{\"do\":\"hello\",\"user\":\"operator\"}\n{\"do\":\"commit\",\"edits\":[]}\n";
    let second = "{\"do\":\"hello\",\"user\":\"operator\"}\n{\"do\":\"quit\"}\n";
    let one = asked(rt, alloc, port, first)?;
    let two = asked(rt, alloc, port, second)?;
    let (one, two) = (
        str::from_utf8(one.as_slice())?,
        str::from_utf8(two.as_slice())?,
    );
    Ok(format!(in alloc; "{one}{two}")?)
}

#[test]
fn clients_are_served_over_sockets(rt: HostRuntime) -> Result<(), Fail> {
    let other = TcpListener::bind(&rt, (Ipv4Addr::LOCALHOST, 0))?;
    let port = other.local_addr()?.port();
    drop(other);
    let quiet = NoNotices;
    let (rt, alloc, notices) = (&rt, rt.alloc(), &quiet);
    let (status, told) = thread::join(
        rt,
        move || serve_house(rt, alloc, &mut TcpHouse::new(rt, notices), port, 2, 1),
        move || asked_by_two(rt, alloc, port),
    );
    let wanted = "{\"version\":0}\n{\"version\":1}\n{\"version\":1}\n{\"ok\":true}\n";
    assert_eq!(rt; (status, told?.as_str()), (0, wanted));
    Ok(())
}
