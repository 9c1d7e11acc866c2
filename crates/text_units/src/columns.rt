//! Columns in bytes and in UTF-16 code units.
ghost use Rattle.std.specs.Prelude.{◌≡◌, ◌≤◌, ◌<◌, ◌^◌, length, take};
ghost use Rattle.text_units.specs.{Lines.{line_at, line_starts}, Units.{IsColumn, IsBytesAt, IsUnitsAt, units_in, units_of}};

use crate::line_starts::LineStarts;

impl LineStarts {
    /// The column in bytes for one in UTF-16 code units, on a line of the text whose table this is; nothing where the
    /// text has no such line. It is the length of the longest run of whole characters from the line's start that has at
    /// most so many units: behind the end of the line the line's length, and within a character its start. It takes no
    /// memory, and time by the length of the line.
    pub fn to_bytes(&self, text: &str, line: u32, units: u32) -> Option<u32>
        requires table { self.now ≡ line_starts text.now }
        requires short { length text.now < 2 ^ 31 }
        ensures { IsBytesAt (line_at text.now line) units result }
    {
        Some(to_bytes(self.line(text, line)?, units))
    }

    /// How many UTF-16 code units the characters have that begin before a column in bytes, on a line of the text whose
    /// table this is; nothing where the text has no such line. It takes no memory, and time by the length of the line.
    pub fn to_units(&self, text: &str, line: u32, column: u32) -> Option<u32>
        requires table { self.now ≡ line_starts text.now }
        requires short { length text.now < 2 ^ 31 }
        ensures { IsUnitsAt (line_at text.now line) column result }
    {
        Some(to_units(self.line(text, line)?, column))
    }
}

/// The units of the character that the byte begins, and none where it goes on with one.
fn units_of(b: u8) -> u32
    ensures value { result ≡ units_of b }
    ensures few { result ≤ 2 }
{
    if b >= 128 && b < 192 {
        0
    } else if b < 240 {
        1
    } else {
        2
    }
}

/// The column in bytes of this line for one in UTF-16 code units.
#[tactic(auto, using(crate::proofs::Counting::units_more, crate::proofs::Counting::stops_at))]
fn to_bytes(line: &[u8], units: u32) -> u32
    requires short { length line.now < 2 ^ 31 }
    ensures { IsColumn line.now units result }
{
    let mut left = units;
    for i in 0..line.len() {
        let taken = units_of(line[i]);
        if taken > left {
            return i as u32;
        }
        left -= taken;
    }
    line.len() as u32
}

/// How many UTF-16 code units the characters of the line have that begin before the column in bytes.
#[tactic(auto, using(crate::proofs::Counting::units_more))]
fn to_units(line: &[u8], column: u32) -> u32
    requires short { length line.now < 2 ^ 31 }
    ensures { result ≡ units_in (take column line.now) }
{
    let mut units = 0;
    for i in 0..line.len().min(column as usize) {
        units += units_of(line[i]);
    }
    units
}
