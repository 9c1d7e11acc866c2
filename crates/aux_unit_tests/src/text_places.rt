//! What no clause says: that the lines of a text are found with memory at hand, and places in worked texts, with each form
//! of line end and characters of one to four bytes.
use crate::tables::{Telling, others};
use std::alloc::Global;
use std::test::Fail;
use text_units::LineStarts;

/// Tells of a line and a column in units, behind `of` a text, the column in bytes and the units before that; of a line
/// that the text hasn't, what a column of 0 bytes is there. In the text `¶` stands for a newline and `←` for a carriage
/// return.
#[derive(Drop)]
struct Places;

impl Telling for Places {
    fn told(&mut self, alloc: Global, line: &str) -> Result<String, Fail> {
        let (place, text) = line.split_once(" of ").unwrap_or((line, ""));
        let (line, units) = place.split_once(' ').unwrap_or((place, ""));
        let text = text.replace(alloc, '¶', "\n")?;
        let text = text.replace(alloc, '←', "\r")?;
        place_of(alloc, text.as_str(), line.parse()?, units.parse()?)
    }
}

fn place_of(alloc: Global, text: &str, line: u32, units: u32) -> Result<String, Fail> {
    if text.len() >= 1_000 {
        return Err(Fail::new("a long text"));
    }
    let table = LineStarts::of(alloc, text)?;
    match table.to_bytes(text, line, units) {
        Some(column) => {
            let back = word(alloc, table.to_units(text, line, column))?;
            Ok(format!(in alloc; "{column} {back}")?)
        }
        None => {
            let back = word(alloc, table.to_units(text, line, 0))?;
            Ok(format!(in alloc; "none {back}")?)
        }
    }
}

fn word(alloc: Global, units: Option<u32>) -> Result<String, Fail> {
    match units {
        Some(units) => Ok(format!(in alloc; "{units}")?),
        None => Ok(String::from_str(alloc, "none")?),
    }
}

const PLACES: &str = "0 0 of  => 0 0
0 5 of  => 0 0
1 0 of  => none none
0 1 of ab => 1 1
0 9 of ab => 2 2
1 0 of ab¶ => 0 0
2 0 of ab¶ => none none
0 9 of ab←¶cd => 2 2
1 1 of ab←¶cd => 1 1
2 0 of ab←¶cd => none none
1 9 of ab←cd←← => 2 2
2 9 of ab←cd←← => 0 0
3 0 of ab←cd←← => 0 0
2 0 of ¶← => 0 0
0 1 of é x => 2 1
0 2 of 日x => 4 2
0 1 of 😀x => 0 0
0 2 of 😀x => 4 2
0 4 of a😀x => 6 4";

#[test]
fn places_are_found_and_told(rt: HostRuntime) -> Result<(), Fail> {
    assert_eq!(rt; others(rt.alloc(), &mut Places, PLACES)?.as_str(), "");
    Ok(())
}

#[test]
fn a_column_within_a_character_counts_it(rt: HostRuntime) -> Result<(), Fail> {
    let text = "a😀x";
    let table = LineStarts::of(rt.alloc(), text)?;
    let mut told = Vec::new(rt.alloc());
    for column in 0..8 {
        told.push(table.to_units(text, 0, column))?;
    }
    let wanted = [0, 1, 3, 3, 3, 3, 4, 4].map(Some);
    assert_eq!(rt; told.as_slice(), wanted.as_slice());
    Ok(())
}
