//! A connection of the machine's sockets that never waits. It tells nothing of its bytes.
ghost use Rattle.std.specs.Prelude.{◌≡◌, ◌≤◌, None, IfOk, length};
ghost use Rattle.nav_poll.specs.declared.link.Counts.{Counts};

use crate::guard::{Lines, Opening, opening_of};
use mio::net::TcpStream;
use nav_io::Cut;
use nav_poll::{Counts, Link, LinkFault, Moved};
use std::cell::Cell;
use std::io;
use std::io::{ErrorKind, Read, Write};
use std::marker::Model;
use std::net::Shutdown;

/// How many bytes tell the input of a request from lines.
const FIRST: usize = 8;

/// How often the input of a connection that ends is read, and how many bytes at most at a time.
const LAST_READS: usize = 1024;

const LAST_BYTES: usize = 8192;

/// A connection. Of what a client sends nothing is handed on while its first bytes may begin a request of the Hypertext
/// Transfer Protocol; where they do, its input is at its end.
///
/// Behind each pull that gave bytes the next one waits, though more may be there: so a session whose client sends as fast as
/// it is answered lets each other one have its turn before it is given more.
#[derive(Drop)]
pub struct MioLink<'r> {
    stream: TcpStream,
    counts: Counts,
    /// Whether the last pull gave bytes.
    has_given: bool,
    /// Set where a pull waits for other sessions alone.
    again: &'r Cell<bool>,
    /// The first bytes, of which those before `given` were handed on.
    first: [u8; FIRST],
    held: usize,
    given: usize,
    opening: Opening,
    lines: Lines,
}

impl<'r> Model for MioLink<'r> {
    ghost use Rattle.std.specs.Prelude.{◌≤◌};
    ghost use Rattle.nav_poll.specs.declared.link.Counts.{Counts};

    ghost Value = { Counts };

    ghost view = { λ link. link.counts };

    ghost invariant = { λ link. (link.held ≤ 8) × (link.given ≤ link.held) };
}

impl<'r> MioLink<'r> {
    /// A connection over this stream, from which nothing was read. It sets `again` where it waits for other sessions alone.
    pub fn new(stream: TcpStream, again: &'r Cell<bool>) -> MioLink<'r> {
        MioLink {
            stream,
            counts: Counts::none(),
            has_given: false,
            again,
            first: [0; FIRST],
            held: 0,
            given: 0,
            opening: Opening::Unclear,
            lines: Lines::none(),
        }
    }

    /// Why the session ends early over what was read; None where that gives it no cause.
    pub fn cut(&self) -> Option<Cut> {
        if self.opening == Opening::Request {
            return Some(Cut::Request);
        }
        self.lines.cut()
    }

    /// Ends the connection so that the replies arrive: input that nobody read would have the system reset it, and drop the
    /// replies that are still on their way. So what is there is read first, up to 8 MiB.
    pub fn end(self) {
        let MioLink { mut stream, .. } = self;
        let _ = stream.shutdown(Shutdown::Write);
        let mut rest = [0; LAST_BYTES];
        for _ in 0..LAST_READS {
            match stream.read(&mut rest) {
                Ok(n) if n > 0 => {}
                _ => return,
            }
        }
    }
}

impl<'r> MioLink<'r> {
    /// Reads first bytes until they tell what the input is.
    fn tell(&mut self) -> io::Result<()>
        ensures { self.new ≡ self.old }
    {
        for _ in 0..FIRST {
            if self.opening != Opening::Unclear {
                return Ok(());
            }
            let n = self.stream.read(&mut self.first[self.held..])?;
            self.held += n;
            self.opening = if n == 0 {
                Opening::Lines
            } else {
                opening_of(&self.first[..self.held])
            };
        }
        Ok(())
    }

    /// Hands first bytes on, as many as there is room for.
    fn give(&mut self, buf: &mut [u8]) -> usize
        ensures same { self.new ≡ self.old }
        ensures bound { result ≤ length buf.new }
    {
        let rest = &self.first[self.given..self.held];
        let n = rest.len().min(buf.len());
        buf[..n].copy_from_slice(&rest[..n]);
        self.given += n;
        n
    }

    /// Reads bytes of lines.
    fn read(&mut self, buf: &mut [u8]) -> io::Result<usize>
        ensures same { self.new ≡ self.old }
        ensures bound { IfOk result (λ n. n ≤ length buf.new) }
    {
        self.tell()?;
        if self.opening == Opening::Request {
            return Ok(0);
        }
        let n = if self.given < self.held {
            self.give(buf)
        } else {
            self.stream.read(buf)?
        };
        self.lines.count(&buf[..n]);
        Ok(n)
    }
}

impl<'r> Link for MioLink<'r> {
    ghost left = { λ _. None };

    ghost held = { λ _. None };

    ghost counts = { λ link. link };

    fn pull(&mut self, buf: &mut [u8]) -> Result<Moved, LinkFault> {
        if self.has_given {
            self.has_given = false;
            self.again.set(true);
            self.counts.read_wait();
            return Ok(Moved::NotYet);
        }
        match self.read(buf) {
            Ok(n) => {
                self.has_given = n > 0;
                Ok(Moved::Bytes(n))
            }
            Err(error) if error.kind() == ErrorKind::WouldBlock => {
                self.counts.read_wait();
                Ok(Moved::NotYet)
            }
            Err(_) => {
                self.counts.read_fault();
                Err(LinkFault::Failed)
            }
        }
    }

    fn push(&mut self, bytes: &[u8]) -> Result<Moved, LinkFault> {
        match self.stream.write(bytes) {
            Ok(n) if n > 0 || bytes.is_empty() => Ok(Moved::Bytes(n)),
            Err(error) if error.kind() == ErrorKind::WouldBlock => {
                self.counts.write_wait();
                Ok(Moved::NotYet)
            }
            _ => {
                self.counts.write_fault();
                Err(LinkFault::Failed)
            }
        }
    }
}
