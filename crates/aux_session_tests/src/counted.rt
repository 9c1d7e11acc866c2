//! That lines are counted as far as a writer takes them.
use line_counter::Counted;
use std::cell::Cell;
use std::io;
use std::io::{ErrorKind, Write};
use std::test::Fail;

/// A writer that fails once its room is full.
#[derive(Drop)]
struct Filled {
    room: usize,
}

impl Write for Filled {
    fn write(&mut self, buf: &[u8]) -> io::Result<usize> {
        if self.room == 0 {
            return Err(io::Error::from(ErrorKind::Other));
        }
        let n = buf.len().min(self.room);
        self.room -= n;
        Ok(n)
    }

    fn flush(&mut self) -> io::Result<()> {
        Ok(())
    }
}

#[test]
fn lines_are_counted_as_far_as_they_are_taken(rt: HostRuntime) -> Result<(), Fail> {
    let lines = Cell::new(0);
    let mut writer = Counted {
        writer: Filled { room: 5 },
        lines: &lines,
    };
    assert_eq!(rt; writer.write(b"a\n\nb\nc\n")?, 5);
    assert_eq!(rt; lines.get(), 3);
    assert!(rt; writer.write(b"\n").is_err());
    assert_eq!(rt; lines.get(), 3);
    Ok(())
}
