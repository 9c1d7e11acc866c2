ghost use Rattle.std.specs.Prelude.{◌≡◌, IfOk};
ghost use Rattle.text_units.specs.{Lines.{line_at}, Units.{IsBytesAt}};
ghost use Rattle.lsp_texts.specs.Places.{position_in};

use lsp_wire::{Position, Text};
use std::alloc::{AllocError, Global};
use std::marker::Model;
use text_units::LineStarts;

/// A text has fewer bytes than this.
pub const MOST_BYTES: usize = 2_147_483_648;

/// The text of a document, with the places at which its lines begin, which are found once. A contract sees its bytes.
#[derive(Drop)]
pub struct OpenText {
    text: Text,
    starts: LineStarts,
}

impl Model for OpenText {
    ghost use Rattle.std.specs.Prelude.{◌≡◌, ◌<◌, ◌^◌, ℕ, List, length};
    ghost use Rattle.text_units.specs.Lines.{line_starts};

    ghost Value = { List ℕ };

    ghost view = { λ t. t.text };

    ghost invariant = { λ t. (t.starts ≡ line_starts t.text) × (length t.text < 2 ^ 31) };
}

impl OpenText {
    /// This text. The one error is want of memory, of which there is none for `MOST_BYTES` bytes and more. It goes over
    /// the text once.
    pub fn of(alloc: Global, text: Text) -> Result<OpenText, AllocError>
        ensures { IfOk result (λ made. made ≡ text) }
    {
        let bytes = text.as_str();
        if bytes.len() >= MOST_BYTES {
            return Err(AllocError);
        }
        let starts = LineStarts::of(alloc, bytes)?;
        Ok(OpenText { text, starts })
    }

    /// The column in bytes for one in UTF-16 code units, on a line of the text, as `LineStarts::to_bytes` tells it:
    /// nothing where there is no such line. It takes no memory, and time by the length of the line.
    pub fn column(&self, line: u32, units: u32) -> Option<u32>
        ensures { IsBytesAt (line_at self.now line) units result }
    {
        self.starts.to_bytes(self.text.as_str(), line, units)
    }

    /// The place at a column in bytes of a line, as editors count it. Where the text has no such line its character is
    /// 0. It takes no memory, and time by the length of the line.
    pub fn position(&self, line: u32, column: u32) -> Position
        ensures { result ≡ position_in self.now line column }
    {
        let character = match self.starts.to_units(self.text.as_str(), line, column) {
            Some(units) => units,
            None => 0,
        };
        Position { line, character }
    }
}
