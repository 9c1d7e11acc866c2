//! A reader that remembers how its input begins.
use std::cell::Cell;
use std::io;
use std::io::Read;

/// A reader that hands on what another one reads, and notes the first byte that isn't a blank; 0 while there is none.
#[derive(Drop)]
pub struct Opened<'a, R> {
    pub reader: R,
    pub first: &'a Cell<u8>,
}

impl<'a, R: Read> Read for Opened<'a, R> {
    /// What it will give is what the other will, so each read gives those bytes and no others.
    ghost remaining = { λ opened. R.remaining opened.reader };

    fn read(&mut self, buf: &mut [u8]) -> io::Result<usize> {
        let n = self.reader.read(buf)?;
        if self.first.get() == 0 {
            let first = buf[..n].iter().find(|byte| !byte.is_ascii_whitespace());
            self.first.set(first.copied().unwrap_or(0));
        }
        Ok(n)
    }
}
