//! What no clause says: that doors over sockets serve, and at which address of the machine.

use crate::lines::{first_line, written};
use nav_io::{Door, House, NoNotices, Sink, Source, TcpHouse};
use std::alloc::Global;
use std::io::{Read, Write};
use std::net::{Ipv4Addr, Net, OpenListener, TcpListener, TcpStream};
use std::test::Fail;

// Sends the first line back.
fn reply<S: Source, K: Sink>(alloc: Global, source: &mut S, sink: &mut K) -> Result<bool, Fail> {
    let line = first_line(alloc, source)?;
    Ok(written(sink, line.as_slice()).is_ok())
}

// Sends the first line of the next connection back.
fn echo<D: Door>(alloc: Global, door: &mut D) -> Result<bool, Fail> {
    let Ok((mut source, mut sink)) = door.accept() else {
        return Err(Fail::new("the door has no connection"));
    };
    let sent = reply(alloc, &mut source, &mut sink);
    door.done(source, sink);
    sent
}

// Puts what a connection that sends the line gets back behind the text, with a bar.
fn exchange<R: Net, D: Door>(
    net: &R,
    alloc: Global,
    port: u16,
    door: &mut D,
    line: &[u8],
    told: &mut Vec<u8>,
) -> Result<(), Fail> {
    let mut stream = TcpStream::connect(net, (Ipv4Addr::LOCALHOST, port))?;
    stream.write_all(line)?;
    echo(alloc, door)?;
    stream.read_to_end(told)?;
    told.push(b'|')?;
    Ok(())
}

// What three connections get back that each send a line to the port, of which the last is a browser's; one mark where no
// doors are to be had, and a star in front where a door is reached by another address than 127.0.0.1, as it would be
// if the house listened at all addresses of the machine.
fn echoed<R: Net>(net: &R, alloc: Global, port: u16) -> Result<Vec<u8>, Fail> {
    let mut told = Vec::new(alloc);
    let notices = NoNotices;
    let mut house = TcpHouse::new(net, &notices);
    let Ok(mut doors) = house.doors(alloc, port, 3) else {
        told.push(b'!')?;
        return Ok(told);
    };
    if TcpStream::connect(net, (Ipv4Addr::new(127, 0, 0, 2), port)).is_ok() {
        told.push(b'*')?;
    }
    for line in [b"abcdef\n", b"cdefgh\n", b"POST /\n"] {
        if let Some(mut door) = doors.pop() {
            exchange(net, alloc, port, &mut door, line, &mut told)?;
        }
    }
    house.close(doors);
    Ok(told)
}

#[test]
fn a_house_over_sockets_serves_by_each_door_at_one_address(rt: HostRuntime) -> Result<(), Fail> {
    let alloc = rt.alloc();
    let other = TcpListener::bind(&rt, (Ipv4Addr::LOCALHOST, 0))?;
    let port = other.local_addr()?.port();
    // The port is in use, and then free.
    assert_eq!(rt; echoed(&rt, alloc, port)?.as_slice(), b"!".as_slice());
    drop(other);
    assert_eq!(rt;
        echoed(&rt, alloc, port)?.as_slice(),
        b"abcdef|cdefgh||".as_slice()
    );
    Ok(())
}
