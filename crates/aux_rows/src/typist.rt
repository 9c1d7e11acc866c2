//! A user at a terminal, who waits for each reply.
ghost use Rattle.std.specs.Prelude.{◌≤◌, length};

use std::cell::Cell;
use std::io;
use std::io::{ErrorKind, Read, Write};

/// With which a frame of an editor begins.
const HEADER: &[u8] = b"Content-Length: ";

/// A user, or an editor, who types the next line or frame only once all before it are answered, and else fails.
#[derive(Drop)]
pub struct Typist<'a> {
    pub left: &'a [u8],
    pub typed: u32,
    pub answered: &'a Cell<u32>,
}

impl<'a> Read for Typist<'a> {
    fn read(&mut self, buf: &mut [u8]) -> io::Result<usize> {
        if self.answered.get() != self.typed {
            return Err(io::Error::from(ErrorKind::Other));
        }
        let n = message_len(self.left).min(buf.len());
        buf[..n].copy_from_slice(&self.left[..n]);
        self.left = &self.left[n..];
        self.typed = self.typed.saturating_add(1);
        Ok(n)
    }
}

/// How many bytes the first message of the text has: a frame ends before the header of the next one, and a line with its
/// newline.
fn message_len(text: &[u8]) -> usize
    ensures { result ≤ length text.now }
{
    let last = if text.starts_with(HEADER) {
        before_next_header(text)
    } else {
        text.iter().position(|b| *b == b'\n')
    };
    match last {
        Some(last) => last.saturating_add(1).min(text.len()),
        None => text.len(),
    }
}

/// Where the last byte before the next header stands; nothing where no other follows.
fn before_next_header(text: &[u8]) -> Option<usize> {
    text.windows(HEADER.len())
        .skip(1)
        .position(|front| front == HEADER)
}

/// The user's screen, which counts the replies: a line is written at once and ends with its newline, a frame with its body.
#[derive(Drop)]
pub struct Screen<'a> {
    pub shown: Vec<u8>,
    pub answered: &'a Cell<u32>,
}

impl<'a> Write for Screen<'a> {
    fn write(&mut self, buf: &[u8]) -> io::Result<usize> {
        self.shown.extend_from_slice(buf)?;
        if buf.ends_with(b"\n") || buf.ends_with(b"}") {
            self.answered.set(self.answered.get().saturating_add(1));
        }
        Ok(buf.len())
    }

    fn flush(&mut self) -> io::Result<()> {
        Ok(())
    }
}
