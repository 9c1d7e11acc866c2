//! The writer that counts.
use std::cell::Cell;
use std::io;
use std::io::Write;

/// A writer that hands all on to another, and counts the newlines that this took.
#[derive(Drop)]
pub struct Counted<'a, W> {
    pub writer: W,
    pub lines: &'a Cell<usize>,
}

impl<'a, W: Write> Write for Counted<'a, W> {
    /// What it holds is what the other holds, so each write takes those bytes there and no others.
    ghost contents = { λ counted. W.contents counted.writer };

    fn write(&mut self, buf: &[u8]) -> io::Result<usize> {
        let took = self.writer.write(buf)?;
        let lines = buf[..took].iter().filter(|byte| **byte == b'\n').count();
        self.lines.set(self.lines.get().saturating_add(lines));
        Ok(took)
    }

    fn flush(&mut self) -> io::Result<()> {
        self.writer.flush()
    }
}
