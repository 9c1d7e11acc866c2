//! What no clause says: that bytes are pushed and cut with memory at hand, what is offered at each read and write, and that
//! long texts pass through std's readers and writers.
ghost use Rattle.std.specs.Prelude.{None};

use nav_io::{
    Failed, LINE_MAX, LineReader, Sink, SinkError, Source, StdSink, StdSource, TooLong, WriteError,
    write_all,
};
use std::alloc::{AllocError, Global};
use std::io;
use std::io::{ErrorKind, Read, Write};
use std::test::Fail;

fn reader_of(alloc: Global) -> Result<LineReader, Fail> {
    match LineReader::new(alloc) {
        Ok(reader) => Ok(reader),
        Err(_) => Err(Fail::new("there is no reader")),
    }
}

// Pieces that are pushed, between slashes, where `¶` stands for a newline, `$` says that the input has ended, `most`
// stands for as many letters as a line may have, and `more` for one more; and the lines that are whole after each,
// or `>` where the first one is too long.
const PUSHED: &str = "ab/c¶d¶e/f/$ => //abc|d|//ef|
¶¶/¶ => /||/|
ab¶/$ => /ab|/
ab¶¶/$ => /ab||/
$ => /
ab/$/cd => //ab|/cd|
¶a/¶/b¶c/$ => /|/a|/b|/c|
most => /
more => />";

// The bytes that a piece stands for.
fn bytes_of(alloc: Global, piece: &str) -> Result<Vec<u8>, Fail> {
    match piece {
        "most" => Ok(vec![in alloc; b'a'; LINE_MAX]?),
        "more" => Ok(vec![in alloc; b'a'; LINE_MAX + 1]?),
        _ => Ok(piece.replace(alloc, '¶', "\n")?.into_bytes()),
    }
}

// Pushes the piece, or ends the input.
fn push_piece(alloc: Global, reader: &mut LineReader, piece: &str) -> Result<(), Fail> {
    if piece == "$" {
        reader.end();
        return Ok(());
    }
    match reader.push(bytes_of(alloc, piece)?.as_slice()) {
        Ok(()) => Ok(()),
        Err(_) => Err(Fail::new("nothing can be pushed")),
    }
}

// What the lines are that are whole after each piece: each with a bar, behind a slash for the piece.
fn pushed(alloc: Global, pieces: &str) -> Result<Vec<u8>, Fail> {
    let mut reader = reader_of(alloc)?;
    let mut told = Vec::new(alloc);
    for piece in pieces.split('/') {
        told.push(b'/')?;
        push_piece(alloc, &mut reader, piece)?;
        whole_lines(&mut reader, &mut told)?;
    }
    Ok(told)
}

// Takes the lines that are whole, each with a bar.
fn whole_lines(reader: &mut LineReader, told: &mut Vec<u8>) -> Result<(), AllocError> {
    for _ in 0..100 {
        match reader.whole_line() {
            Ok(Some(line)) => told.extend_from_slice(line)?,
            Ok(None) => return Ok(()),
            Err(TooLong) => return told.push(b'>').map_err(AllocError::from),
        }
        told.push(b'|')?;
    }
    Ok(())
}

#[test]
fn pushed_bytes_are_cut_into_lines(rt: HostRuntime) -> Result<(), Fail> {
    for row in PUSHED.split('\n') {
        let (pieces, wanted) = row.split_once(" => ").unwrap_or((row, "no arrow"));
        assert_eq!(rt;
            pushed(rt.alloc(), pieces)?.as_slice(),
            wanted.as_bytes(),
            "{row}"
        );
    }
    Ok(())
}

// The first line of a source; no byte where there is none, or it can't be read.
pub fn first_line<S: Source>(alloc: Global, source: &mut S) -> Result<Vec<u8>, Fail> {
    let mut reader = reader_of(alloc)?;
    match reader.next_line(source) {
        Ok(Some(line)) => Ok(line.to_vec(alloc)?),
        _ => Ok(Vec::new(alloc)),
    }
}

// A source at its end, which keeps the least room that it was offered.
#[derive(Drop)]
struct Offered {
    least: usize,
}

impl Source for Offered {
    ghost left = { λ _. None };

    ghost faults = { λ _. 0 };

    fn read(&mut self, buf: &mut [u8]) -> Result<usize, Failed> {
        self.least = self.least.min(buf.len());
        Ok(0)
    }
}

#[test]
fn each_read_is_offered_a_chunk(rt: HostRuntime) -> Result<(), Fail> {
    let mut source = Offered { least: usize::MAX };
    assert!(rt; first_line(rt.alloc(), &mut source)?.is_empty());
    assert_eq!(rt; source.least, 65_536);
    Ok(())
}

// A sink that takes a byte at a write, and adds up what it was offered.
#[derive(Drop)]
struct Narrow {
    offered: usize,
}

impl Sink for Narrow {
    ghost held = { λ _. None };

    ghost faults = { λ _. 0 };

    fn write(&mut self, bytes: &[u8]) -> Result<usize, SinkError> {
        self.offered = self.offered.saturating_add(bytes.len());
        Ok(bytes.len().min(1))
    }
}

// Writes all bytes.
pub fn written<K: Sink>(sink: &mut K, bytes: &[u8]) -> Result<(), WriteError> {
    write_all(sink, bytes)
}

#[test]
fn each_write_is_offered_all_that_is_left(rt: HostRuntime) {
    let mut sink = Narrow { offered: 0 };
    assert_eq!(rt; written(&mut sink, b"abcd"), Ok(()));
    assert_eq!(rt; sink.offered, 4 + 3 + 2 + 1);
}

// A reader of bytes, which gives at most a thousand at a read and fails its call `failing`.
#[derive(Drop)]
struct Slow<'a> {
    left: &'a [u8],
    calls: u32,
    failing: u32,
}

impl<'a> Read for Slow<'a> {
    fn read(&mut self, buf: &mut [u8]) -> io::Result<usize> {
        let call = self.calls;
        self.calls = call.saturating_add(1);
        if call == self.failing {
            return Err(io::Error::from(ErrorKind::Other));
        }
        let n = buf.len().min(self.left.len()).min(1_000);
        buf[..n].copy_from_slice(&self.left[..n]);
        self.left = &self.left[n..];
        Ok(n)
    }
}

// A writer that takes at most a thousand bytes at a write, and no more than it has room for.
#[derive(Drop)]
struct Filled {
    took: Vec<u8>,
    room: usize,
}

impl Write for Filled {
    fn write(&mut self, buf: &[u8]) -> io::Result<usize> {
        let n = buf.len().min(self.room).min(1_000);
        self.took.extend_from_slice(&buf[..n])?;
        self.room -= n;
        Ok(n)
    }

    fn flush(&mut self) -> io::Result<()> {
        Ok(())
    }
}

// So many bytes of all values but a newline's, of which the last is 0.
fn all_values(alloc: Global, count: u32) -> Result<Vec<u8>, AllocError> {
    let mut bytes = Vec::new(alloc);
    for i in 0..count {
        let value = ((count - 1 - i) % 251) as u8;
        bytes.push(if value == b'\n' { 251 } else { value })?;
    }
    Ok(bytes)
}

// How many bytes of a line came through a source over a reader as they were; none where it failed.
fn read_well(alloc: Global, count: u32, failing: u32) -> Result<usize, Fail> {
    let bytes = all_values(alloc, count)?;
    let mut source = StdSource::new(Slow {
        left: bytes.as_slice(),
        calls: 0,
        failing,
    });
    let line = first_line(alloc, &mut source)?;
    Ok(if line.as_slice() == bytes.as_slice() {
        line.len()
    } else {
        0
    })
}

// How many bytes from the front a sink over a writer took as they were, and how its work ended.
fn written_well(
    alloc: Global,
    count: u32,
    room: usize,
) -> Result<(usize, Result<(), WriteError>), Fail> {
    let bytes = all_values(alloc, count)?;
    let mut writer = Filled {
        took: Vec::new(alloc),
        room,
    };
    let ended = written(&mut StdSink::new(&mut writer), bytes.as_slice());
    if bytes.starts_with(writer.took.as_slice()) {
        Ok((writer.took.len(), ended))
    } else {
        Err(Fail::new("other bytes were written"))
    }
}

#[test]
fn long_texts_pass_through_short_reads_and_writes(rt: HostRuntime) -> Result<(), Fail> {
    let alloc = rt.alloc();
    assert_eq!(rt; read_well(alloc, 100_000, 9_999)?, 100_000);
    assert_eq!(rt; read_well(alloc, 100_000, 70)?, 0);
    assert_eq!(rt; written_well(alloc, 100_000, 200_000)?, (100_000, Ok(())));
    let cut = (70_001, Err(WriteError::WriteFault));
    assert_eq!(rt; written_well(alloc, 100_000, 70_001)?, cut);
    Ok(())
}
