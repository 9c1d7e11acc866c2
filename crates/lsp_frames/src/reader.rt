//! Reading a source frame by frame.
ghost use Rattle.std.specs.{Prelude.{◌≡◌, ◌≤◌, [], true, false, length, IfOk, IfSome, Ok, Err, MatchResult}, Option.{option_copied}};
ghost use Rattle.nav_io.specs.{Faults.{HasRisen}, Reading.{ahead}};
ghost use Rattle.lsp_frames.specs.{Frames.{body_max, cut, body_of}, Inside.{frame_error_of}};

use crate::front::{Front, Place, front_of};
use crate::held::{fill, place_of, take_body};
use nav_io::{CHUNK, NoMemory, Source, TakeError, let_go};
use std::alloc::Global;
use std::marker::Model;

/// The most bytes that a body may have.
pub const BODY_MAX: usize = 8_388_608;

/// Why there is no next frame.
#[derive(Clone, Copy, Debug, PartialEq, Eq)]
pub enum FrameError {
    /// The source failed; its count of faults rose, and no whole frame was taken before.
    ReadFault,
    /// The input is no frame, or ends within one.
    Broken,
    /// The block of header lines states more than `BODY_MAX` bytes.
    TooLong,
    /// Memory was wanting.
    NoMemory,
}

impl From<TakeError> for FrameError {
    ghost from_gives = { λ t e. e ≡ frame_error_of t };

    fn from(error: TakeError) -> Self {
        match error {
            TakeError::ReadFault => FrameError::ReadFault,
            TakeError::NoMemory => FrameError::NoMemory,
        }
    }
}

/// Reads frames from a source. Contracts see the bytes that it took and hasn't answered yet, and whether it met the
/// end of input.
#[derive(Drop)]
pub struct FrameReader {
    /// What was taken; the bytes before `start` are answered.
    held: Vec<u8>,
    start: usize,
    ended: bool,
    /// Where a read puts what it takes, `CHUNK` bytes that stay for all reads.
    chunk: Vec<u8>,
}

impl Model for FrameReader {
    ghost use Rattle.std.specs.Prelude.{◌≤◌, vec_len, drop};
    ghost use Rattle.nav_io.specs.{Reading.{Reading}, declared.taking.TheConstants.{CHUNK}};

    ghost Value = { Reading };

    ghost view = { λ reader. record {
      front = drop reader.start reader.held.items;
      ended = reader.ended;
    } };

    ghost invariant = { λ reader. (reader.start ≤ vec_len reader.held)
        × (CHUNK ≤ vec_len reader.chunk) };
}

impl FrameReader {
    ghost use Rattle.std.specs.{Borrow.{sem}, Io.BufRead.{Rests}};
    ghost use Rattle.lsp_frames.specs.{contracts.reader.FrameReader.{the_row}, Reading.{is_settled, AfterFrame, AfterFrameError}, Inside.{FindsFront, FindsFrame}};

    /// A reader that has taken nothing.
    pub fn new(alloc: Global) -> Result<FrameReader, NoMemory>
        ensures empty { IfOk result (λ reader. reader ≡ record { front = []; ended = false }) }
    {
        match vec![in alloc; 0; CHUNK] {
            Ok(chunk) => Ok(FrameReader {
                held: Vec::new(alloc),
                start: 0,
                ended: false,
                chunk,
            }),
            Err(_) => Err(NoMemory),
        }
    }

    /// Answers the body of the next frame, or `None` exactly at the end of input.
    ///
    /// The frames are those of the text ahead, which the bytes taken and not yet answered make with what the source
    /// has left. A frame is a block of header lines, of at most 4,096 bytes with the empty line that ends it, and a
    /// body of the length that its one line `Content-Length` states. Each read of the source is offered 65,536 bytes.
    /// Where a whole frame is among the bytes taken, or once a read answered that the input ends, the source isn't
    /// read. A frame costs time in its length.
    ///
    /// - `ReadFault`: the source's count of faults rose, what was taken and not yet answered is nothing or a beginning
    ///   of a frame, and the end of input wasn't met.
    /// - `Broken`: no frame is ahead, whatever follows, as soon as the bytes taken show it; or the input ends within a
    ///   frame.
    /// - `TooLong`: the block states more than `BODY_MAX` bytes. The body isn't waited for.
    /// - `NoMemory`: memory was wanting, and what was taken and not yet answered is nothing or a beginning of a frame,
    ///   and the end of input wasn't met.
    ///
    /// After an error no byte is lost, but the reader isn't meant to be used again.
    pub fn next_frame<S: Source>(&mut self, source: &mut S) -> Result<Option<&[u8]>, FrameError>
        ensures frame { IfOk result (λ next. IfSome (ahead self.old (S.left source.old))
            (λ text. body_of (cut text) ≡ Ok (option_copied next))) }
        ensures short { IfOk result
            (λ next. IfSome (option_copied next) (λ body. length body ≤ body_max)) }
        ensures broken { result ≡ Err FrameError.Broken
            → IfSome (ahead self.old (S.left source.old))
            (λ text. body_of (cut text) ≡ Err FrameError.Broken) }
        ensures too_long { result ≡ Err FrameError.TooLong
            → IfSome (ahead self.old (S.left source.old))
            (λ text. body_of (cut text) ≡ Err FrameError.TooLong) }
        ensures unread { is_settled self.old ≡ true → source.new ≡ source.old }

        // What is ahead of the reader then.
        ensures* rest { sem 𝓛 (Rests the_row self.entry (λ new. MatchResult result
            (λ next. AfterFrame self.old new
            (S.left source.old) (S.left source.new) (option_copied next))
            (λ e. AfterFrameError self.old new (S.left source.old) (S.left source.new) e))) }

        ensures count { S.faults source.old ≤ S.faults source.new }
        ensures cause { result ≡ Err FrameError.ReadFault
            → HasRisen (S.faults source.old) (S.faults source.new) }
    {
        let found = self.find_frame(source)?;
        Ok(take_body(&self.held, &mut self.start, found))
    }

    /// Takes what is wanting of the first frame, and answers where its body stands behind `start`, or nothing where the
    /// input ends there.
    fn find_frame<S: Source>(&mut self, source: &mut S) -> Result<Option<Place>, FrameError>
        ensures found { FindsFrame self.old self.new
            (S.left source.old) (S.left source.new) result }
        ensures unread { is_settled self.old ≡ true → source.new ≡ source.old }

        ensures count { S.faults source.old ≤ S.faults source.new }
        ensures cause { result ≡ Err FrameError.ReadFault
            → HasRisen (S.faults source.old) (S.faults source.new) }
    {
        let front = self.settle(source)?;
        place_of(front, self.held.len() == self.start)
    }

    /// Takes what is wanting of the first frame, and answers what stands at the front. Past the end of input the source
    /// isn't asked.
    fn settle<S: Source>(&mut self, source: &mut S) -> Result<Front, FrameError>
        ensures found { FindsFront self.old self.new
            (S.left source.old) (S.left source.new) result }
        ensures unread { is_settled self.old ≡ true → source.new ≡ source.old }

        ensures count { S.faults source.old ≤ S.faults source.new }
        ensures cause { result ≡ Err FrameError.ReadFault
            → HasRisen (S.faults source.old) (S.faults source.new) }
    {
        let front = front_of(&self.held[self.start..]);
        let Front::Short(_) = front else {
            return Ok(front);
        };
        if self.ended {
            return Ok(front);
        }
        // Only now, so that whole frames which came in one chunk are answered without a move.
        let_go(&mut self.held, &mut self.start);
        fill(&mut self.held, &mut self.ended, &mut self.chunk, source)
    }
}
