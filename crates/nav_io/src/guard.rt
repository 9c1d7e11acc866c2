//! A reader for sockets, which a browser can reach too: a page may post a text to a port of its own machine, and its
//! lines would be carried out. So what begins as a request of the Hypertext Transfer Protocol (RFC 9112, section 3) is
//! not handed on.
ghost use Rattle.std.specs.Prelude.{◌≡◌, ◌≤◌, ℕ, length, take, true, false, IfOk, IfSome, IfNone};
ghost use Rattle.nav_io.specs.Guard.{begins_request, may_begin_request};

use crate::LINE_MAX;
use crate::notices::Cut;
use std::io;
use std::io::Read;

/// How many lines a session answers.
const MOST_LINES: u32 = 1_000_000;

/// A reader that hands on what another one reads, but nothing from one whose first bytes begin a request of the
/// Hypertext Transfer Protocol: it is at its end then. A buffer of less than eight bytes may be too short to tell.
#[derive(Drop)]
pub struct Guarded<R> {
    reader: R,
    /// Whether the first bytes were read, and whether they begin a request.
    is_open: bool,
    is_shut: bool,
    /// How many lines have ended, how many bytes stand behind the last one, and how many the longest has.
    lines: u32,
    in_line: usize,
    longest: usize,
}

impl<R> Guarded<R> {
    /// A reader over this one, from which nothing was read.
    pub fn new(reader: R) -> Guarded<R> {
        Guarded {
            reader,
            is_open: false,
            is_shut: false,
            lines: 0,
            in_line: 0,
            longest: 0,
        }
    }

    /// Why a session ends early over what was read so far; None where that gives it no cause.
    pub fn cut(&self) -> Option<Cut> {
        if self.is_shut {
            return Some(Cut::Request);
        }
        if self.longest > LINE_MAX {
            return Some(Cut::LongLine);
        }
        if self.lines > MOST_LINES || self.lines == MOST_LINES && self.in_line > 0 {
            return Some(Cut::ManyLines);
        }
        None
    }

    /// Counts the bytes and the lines that they end.
    fn count(&mut self, bytes: &[u8]) {
        for byte in bytes {
            if *byte == b'\n' {
                self.lines = self.lines.saturating_add(1);
                self.in_line = 0;
            } else {
                self.in_line = self.in_line.saturating_add(1);
                self.longest = self.longest.max(self.in_line);
            }
        }
    }
}

impl<R: Read> Read for Guarded<R> {
    fn read(&mut self, buf: &mut [u8]) -> io::Result<usize> {
        if self.is_shut {
            return Ok(0);
        }
        let n = if self.is_open {
            self.reader.read(buf)?
        } else {
            self.is_open = true;
            match first_read(&mut self.reader, buf)? {
                Some(n) => n,
                None => {
                    self.is_shut = true;
                    return Ok(0);
                }
            }
        };
        // For `cut`, which a door asks once the connection has ended: it sees neither lines nor replies.
        self.count(&buf[..n]);
        Ok(n)
    }
}

/// The first bytes of a connection, read on until they are told from those of a request; None where they begin one.
fn first_read<R: Read>(reader: &mut R, buf: &mut [u8]) -> io::Result<Option<usize>>
    ensures bound { IfOk result (λ o. IfSome o (λ n. n ≤ length buf.new)) }
    ensures no_request { IfOk result
        (λ o. IfSome o (λ n. begins_request (take n buf.new) ≡ false)) }
    ensures request { IfOk result
        (λ o. IfNone o ((n : ℕ) × (begins_request (take n buf.new) ≡ true))) }
{
    let n = read_on(reader, buf)?;
    if begins_request(&buf[..n]) {
        return Ok(None);
    }
    Ok(Some(n))
}

/// Reads until the bytes can't become the beginning of a request, or have, or no more come. Each read brings a byte, and
/// the longest method that has to be told has seven. An error behind some bytes comes again with the next read.
fn read_on<R: Read>(reader: &mut R, buf: &mut [u8]) -> io::Result<usize>
    ensures { IfOk result (λ n. n ≤ length buf.new) }
{
    let mut got = reader.read(buf)?;
    for _ in 0..7 {
        if got == buf.len() || !may_begin_request(&buf[..got]) {
            return Ok(got);
        }
        match reader.read(&mut buf[got..]) {
            Ok(more) if more > 0 => got += more,
            _ => return Ok(got),
        }
    }
    Ok(got)
}

/// Whether the bytes begin a request.
fn begins_request(bytes: &[u8]) -> bool
    ensures { result ≡ begins_request bytes.now }
{
    bytes.starts_with(b"GET ")
        || bytes.starts_with(b"POST")
        || bytes.starts_with(b"PUT ")
        || bytes.starts_with(b"HEAD")
        || bytes.starts_with(b"OPTIONS")
        || bytes.starts_with(b"DELETE")
        || bytes.starts_with(b"PATCH")
        || bytes.starts_with(b"CONNECT")
        || bytes.starts_with(b"TRACE")
}

/// Whether more bytes behind these may make the beginning of a request, which they aren't yet.
fn may_begin_request(bytes: &[u8]) -> bool
    ensures { result ≡ may_begin_request bytes.now }
{
    b"GET ".starts_with(bytes)
        || b"POST".starts_with(bytes)
        || b"PUT ".starts_with(bytes)
        || b"HEAD".starts_with(bytes)
        || b"OPTIONS".starts_with(bytes)
        || b"DELETE".starts_with(bytes)
        || b"PATCH".starts_with(bytes)
        || b"CONNECT".starts_with(bytes)
        || b"TRACE".starts_with(bytes)
}
