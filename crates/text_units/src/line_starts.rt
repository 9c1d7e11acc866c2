//! Where the lines of a text begin, kept so that a line is found without going over the text.
ghost use Rattle.std.specs.Prelude.{◌≡◌, ◌^◌, ◌<◌, ◌≤◌, length, IfOk, IfSome, Some, None};
ghost use Rattle.text_units.specs.Lines.{ends_line, first_line, line_at, line_starts};

use std::alloc::{AllocError, Global};
use std::marker::Model;

/// The places at which the lines of one text begin, in their order. A contract sees these.
#[derive(Drop)]
pub struct LineStarts {
    starts: Vec<u32>,
}

impl Model for LineStarts {
    ghost use Rattle.std.specs.Prelude.{ℕ, List};

    ghost Value = { List ℕ };

    ghost view = { λ t. t.starts.items };
}

impl LineStarts {
    /// Those of a text of fewer than 2^31 bytes. The one error is want of memory.
    pub fn of(alloc: Global, text: &str) -> Result<LineStarts, AllocError>
        requires short { length text.now < 2 ^ 31 }
        ensures { IfOk result (λ table. table ≡ line_starts text.now) }
    {
        let bytes = text.as_bytes();
        let mut starts = Vec::new(alloc);
        starts.push(0)?;
        for i in 0..bytes.len() {
            if ends_line(bytes, i) {
                starts.push(i as u32 + 1)?;
            }
        }
        Ok(LineStarts { starts })
    }

    /// The bytes of a line of the text whose table this is, without its end, if the text has such a line. It takes no
    /// memory, and time by the length of the line.
    pub fn line<'a>(&self, text: &'a str, line: u32) -> Option<&'a [u8]>
        requires table { self.now ≡ line_starts text.now }
        ensures some { IfSome result (λ found. line_at text.now line ≡ Some found.now) }
        ensures none { result ≡ None → line_at text.now line ≡ None }
        ensures len { IfSome result (λ found. length found.now ≤ length text.now) }
    {
        line_from(&self.starts, text.as_bytes(), line as usize)
    }
}

/// Whether a line end has its last byte at this place.
fn ends_line(text: &[u8], i: usize) -> bool
    requires inside { i < length text.now }
    ensures { result ≡ ends_line text.now i }
{
    text[i] == b'\n' || (text[i] == b'\r' && (i + 1 >= text.len() || text[i + 1] != b'\n'))
}

/// A line of the text whose lines begin at these places.
#[tactic(auto, using(crate::proofs::Starts::start_within, crate::proofs::Starts::line_of, crate::proofs::Starts::no_line))]
fn line_from<'a>(starts: &[u32], text: &'a [u8], line: usize) -> Option<&'a [u8]>
    requires table { starts.now ≡ line_starts text.now }
    ensures some { IfSome result (λ found. line_at text.now line ≡ Some found.now) }
    ensures none { result ≡ None → line_at text.now line ≡ None }
    ensures len { IfSome result (λ found. length found.now ≤ length text.now) }
{
    if line >= starts.len() {
        return None;
    }
    let start = starts[line] as usize;
    Some(first_line(&text[start..]))
}

/// The bytes up to the first line end.
fn first_line(text: &[u8]) -> &[u8]
    ensures value { result.now ≡ first_line text.now }
    ensures len { length result.now ≤ length text.now }
{
    for i in 0..text.len() {
        if text[i] == b'\n' || text[i] == b'\r' {
            return &text[..i];
        }
    }
    text
}
