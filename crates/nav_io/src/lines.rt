//! Reading a source line by line, and bytes that are pushed in.
ghost use Rattle.std.specs.{Prelude.{◌≡◌, ◌≢◌, ◌<◌, ◌≤◌, [], ◌∷◌, ◌++◌, ◌⊎◌, true, false, length, IfOk, IfErr, IfSome, OnOk, OnErr, IsTrue, MatchResult}, Option.{option_copied, option_to_list}};
ghost use Rattle.nav_io.specs.{declared.lines.LineError.TheVariants.{ReadFault, NoMemory, TooLong}, Faults.{HasRisen}, Lines.{line_max, line_len, line_at_front, after_line, lines, HasNoNewline}, Taking.{line_error_of}};

mod held;
mod search;

use crate::Source;
use crate::settling::Ballast;
use crate::taking::{CHUNK, TakeError, is_large, let_go};
use held::{find_bytes, find_line, put_behind, take_bytes, take_line};
use search::find_whole;
use std::alloc::Global;
use std::marker::Model;

/// The most bytes that a line may have, its newline not counted.
pub const LINE_MAX: usize = 8_388_608;

/// Why there is no next line, or not as many bytes.
#[derive(Clone, Copy, Debug, PartialEq, Eq)]
pub enum LineError {
    /// The source failed; its count of faults rose, and what was asked for wasn't whole before.
    ReadFault,
    /// The line has more than `LINE_MAX` bytes.
    TooLong,
    /// Memory was wanting.
    NoMemory,
}

impl From<TakeError> for LineError {
    ghost from_gives = { λ t e. e ≡ line_error_of t };

    fn from(error: TakeError) -> Self {
        match error {
            TakeError::ReadFault => LineError::ReadFault,
            TakeError::NoMemory => LineError::NoMemory,
        }
    }
}

impl From<TooLong> for LineError {
    ghost from_gives = { λ _ e. e ≡ TooLong };

    fn from(_: TooLong) -> Self {
        LineError::TooLong
    }
}

/// Memory was wanting.
#[derive(Clone, Copy, Debug, PartialEq, Eq)]
pub struct NoMemory;

/// The line has more than `LINE_MAX` bytes.
#[derive(Clone, Copy, Debug, PartialEq, Eq)]
pub struct TooLong;

/// Reads lines, and bytes by their number, from a source or from bytes that are pushed in. Contracts see
/// the bytes that it took and hasn't answered yet, and whether it met the end of input.
#[derive(Drop)]
pub struct LineReader {
    /// What was taken; the bytes before `start` are answered.
    held: Vec<u8>,
    start: usize,
    /// How many bytes from `start` on are known to be no newline.
    searched: usize,
    ended: bool,
    /// Where a read puts what it takes, `CHUNK` bytes that stay for all reads.
    chunk: Vec<u8>,
    ballast: Ballast,
}

impl Model for LineReader {
    ghost use Rattle.std.specs.Prelude.{◌≤◌, vec_len, drop};
    ghost use Rattle.nav_io.specs.{declared.taking.TheConstants.{CHUNK}, Lines.{line_len}, Reading.{Reading}};

    ghost Value = { Reading };

    ghost view = { λ reader. record {
      front = drop reader.start reader.held.items;
      ended = reader.ended;
    } };

    ghost invariant = { λ reader. (reader.start ≤ vec_len reader.held)
        × (reader.searched ≤ line_len (drop reader.start reader.held.items))
        × (CHUNK ≤ vec_len reader.chunk) };
}

impl LineReader {
    ghost use Rattle.std.specs.{Borrow.{sem}, Io.BufRead.{Rests}};
    ghost use Rattle.nav_io.specs.{contracts.lines.LineReader.{the_row}, Reading.{ahead, AfterLine, AfterError, is_whole, whole_line, past_whole_line, bytes_at_front, has_bytes, AfterBytes, AfterBytesError}};

    /// A reader that has taken nothing.
    pub fn new(alloc: Global) -> Result<LineReader, NoMemory>
        ensures empty { IfOk result (λ reader. reader ≡ record { front = []; ended = false }) }
    {
        match vec![in alloc; 0; CHUNK] {
            Ok(chunk) => Ok(LineReader {
                held: Vec::new(alloc),
                start: 0,
                searched: 0,
                ended: false,
                chunk,
                ballast: Ballast::new(alloc),
            }),
            Err(_) => Err(NoMemory),
        }
    }

    /// Answers the next line, without its newline, or `None` exactly at the end of input.
    ///
    /// The lines are those of the text ahead, which the bytes taken and not yet answered make with what
    /// the source has left: its pieces between newlines, where a last piece without a newline is a line
    /// if it isn't empty. Each read of the source is offered 65,536 bytes. Where a whole line is among the
    /// bytes taken, or once a read answered that the input ends, the source isn't read. A line costs time
    /// in its length.
    ///
    /// - `ReadFault`: the source's count of faults rose, no newline is among the bytes taken and not yet
    ///   answered, and the end of input wasn't met.
    /// - `TooLong`: exactly where the line has more than `LINE_MAX` bytes.
    /// - `NoMemory`: memory was wanting for the next read: no newline is among the bytes taken and not yet
    ///   answered, they are no more than a line may have, and the end of input wasn't met.
    ///
    /// After an error no byte is lost, but the reader isn't meant to be used again.
    pub fn next_line<S: Source>(&mut self, source: &mut S) -> Result<Option<&[u8]>, LineError>
        ensures line { IfOk result (λ next. IfSome (ahead self.old (S.left source.old))
            (λ text. option_copied next ≡ line_at_front text)) }
        ensures cut { IfOk result (λ next. IfSome (ahead self.old (S.left source.old))
            (λ text. lines text ≡ option_to_list (option_copied next) ++ lines (after_line text))) }
        ensures short { IfOk result
            (λ next. IfSome (option_copied next) (λ line. length line ≤ line_max)) }
        ensures no_newline { IfOk result (λ next. IfSome (option_copied next) HasNoNewline) }
        ensures too_long { result ≡ Err LineError.TooLong
            → IfSome (ahead self.old (S.left source.old)) (λ text. line_max < line_len text) }
        ensures unread { is_whole self.old ≡ true → source.new ≡ source.old }

        // What is ahead of the reader then.
        ensures* rest { sem 𝓛 (Rests the_row self.entry (λ new. MatchResult result
            (λ next. AfterLine self.old new
            (S.left source.old) (S.left source.new) (option_copied next))
            (λ e. AfterError self.old new (S.left source.old) (S.left source.new) e))) }

        ensures count { S.faults source.old ≤ S.faults source.new }
        ensures cause { result ≡ Err LineError.ReadFault
            → HasRisen (S.faults source.old) (S.faults source.new) }
    {
        let len = find_line(
            &mut self.held,
            &mut self.start,
            &mut self.searched,
            &mut self.ended,
            &mut self.chunk,
            source,
            &mut self.ballast,
        )?;
        self.searched = 0;
        Ok(take_line(&self.held, &mut self.start, len))
    }

    /// Answers the next `n` bytes, or `None` exactly where fewer are ahead; those then stay.
    ///
    /// The source is read only where fewer are among the bytes taken and not yet answered and the end of
    /// input wasn't met. Costs time in `n`.
    ///
    /// - `ReadFault`: the source's count of faults rose, fewer bytes were taken and not yet answered, and
    ///   the end of input wasn't met.
    /// - `NoMemory`: memory was wanting for the next read, with fewer bytes taken and the end of input not
    ///   met.
    ///
    /// It never answers `TooLong`. After an error no byte is lost.
    pub fn next_bytes<S: Source>(
        &mut self,
        source: &mut S,
        n: usize,
    ) -> Result<Option<&[u8]>, LineError>
        ensures bytes { IfOk result (λ next. IfSome (ahead self.old (S.left source.old))
            (λ text. option_copied next ≡ bytes_at_front n text)) }
        ensures exact { IfOk result
            (λ next. IfSome (option_copied next) (λ bytes. length bytes ≡ n)) }
        ensures not_long { result ≢ Err LineError.TooLong }
        ensures unread { has_bytes n self.old ≡ true → source.new ≡ source.old }

        // What is ahead of the reader then.
        ensures* rest { sem 𝓛 (Rests the_row self.entry (λ new. MatchResult result
            (λ next. AfterBytes n self.old new
            (S.left source.old) (S.left source.new) (option_copied next))
            (λ e. AfterBytesError n self.old new (S.left source.old) (S.left source.new) e))) }

        ensures count { S.faults source.old ≤ S.faults source.new }
        ensures cause { result ≡ Err LineError.ReadFault
            → HasRisen (S.faults source.old) (S.faults source.new) }
    {
        // It counts from the front, which is about to move.
        self.searched = 0;
        find_bytes(
            &mut self.held,
            &mut self.start,
            &mut self.ended,
            &mut self.chunk,
            source,
            n,
        )?;
        Ok(take_bytes(&self.held, &mut self.start, n))
    }

    /// Puts bytes behind those that were taken, as a caller that reads by itself does. After a refusal the
    /// reader is as it was.
    ///
    /// Bytes that were answered are let go of once they are more than half of what is held, so that all
    /// calls together cost time in the bytes that are pushed.
    pub fn push(&mut self, bytes: &[u8]) -> Result<(), NoMemory>
        ensures ok { OnOk result
            (self.new ≡ record self.old { front = self.old.front ++ bytes.now }) }
        ensures err { OnErr result (self.new ≡ self.old) }
    {
        put_behind(&mut self.held, &mut self.start, bytes)
    }

    /// Says that the input has ended: what is taken and not yet answered is all that is ahead.
    pub fn end(&mut self)
        ensures { self.new ≡ record self.old { ended = true } }
    {
        self.ended = true;
    }

    /// Answers the first line among the bytes taken, without its newline, if it is whole: a newline ends
    /// it, or the input ended behind it. `None` where there is none, which after the end of input is
    /// exactly where no byte is left.
    ///
    /// `TooLong` comes exactly where the first line has more than `LINE_MAX` bytes, also before its end
    /// was pushed. The reader is then as it was. Bytes are searched once, however often it is asked.
    pub fn whole_line(&mut self) -> Result<Option<&[u8]>, TooLong>
        ensures line { IfOk result (λ next. option_copied next ≡ whole_line self.old) }
        ensures cut { IfOk result (λ next. lines self.old.front
            ≡ option_to_list (option_copied next) ++ lines (past_whole_line self.old).front) }
        ensures no_newline { IfOk result (λ next. IfSome (option_copied next) HasNoNewline) }
        ensures ended_by { IfOk result (λ next. IfSome (option_copied next)
            (λ line. (self.old.front ≡ line ++ 10 ∷ (past_whole_line self.old).front)
            ⊎ IsTrue self.old.ended)) }
        ensures short { OnOk result (line_len self.old.front ≤ line_max) }
        ensures too_long { OnErr result (line_max < line_len self.old.front) }
        ensures* rest { sem 𝓛 (Rests the_row self.entry (λ new. MatchResult result
            (λ _. new ≡ past_whole_line self.old) (λ _. new ≡ self.old))) }
    {
        let found = find_whole(&self.held, self.start, &mut self.searched, self.ended)?;
        match found {
            Some(len) => {
                self.searched = 0;
                Ok(take_line(&self.held, &mut self.start, len))
            }
            None => {
                // More is waited for now, and whoever sent a very long line may send nothing for long.
                if is_large(self.start) {
                    let_go(&mut self.held, &mut self.start);
                }
                Ok(None)
            }
        }
    }
}
