//! The program `aux_rows`: runs the rows of the files `*.rows` in its folder, prints each that differs from what it
//! states, and at the end how many hold. It is no part of the server. The README says what a row is.
//!
//! It ends with status 0 where there are rows and each holds, and else with 1.
#![tactic(auto)]

mod answers;
mod asks;
mod backward;
mod callers;
mod counts;
mod documents;
mod due;
mod graphs;
mod in_sessions;
mod lines;
mod orders;
mod row;
mod rows;
mod sessions;
mod texts;
mod typist;
mod ways;

use counts::Tally;
use rows::run_rows;
use std::process::ExitCode;
use std::{fs, io};

/// What the name of each file with rows ends with.
const ENDING: &str = ".rows";

/// The names of the files with rows, in the order of their bytes.
fn names(rt: &HostRuntime) -> io::Result<Vec<String>> {
    let mut names = Vec::new(rt.alloc());
    for entry in fs::read_dir(rt, ".")? {
        let entry = entry?;
        if entry.file_name().ends_with(ENDING) {
            names.push(String::from_str(rt.alloc(), entry.file_name())?)?;
        }
    }
    names.sort_unstable();
    Ok(names)
}

fn main(rt: HostRuntime) -> io::Result<ExitCode> {
    let mut tally = Tally::new(rt.alloc());
    for name in names(&rt)? {
        let text = fs::read_to_string(&rt, name.as_str())?;
        run_rows(&rt, rt.alloc(), name.as_str(), text.as_str(), &mut tally)?;
    }
    for line in &tally.lines {
        println!(rt; "{line}")?;
    }
    let (held, differing) = (tally.held, tally.differing());
    println!(rt; "{held} cases hold, {differing} differ")?;
    if held > 0 && differing == 0 {
        Ok(ExitCode::from(0))
    } else {
        Ok(ExitCode::from(1))
    }
}
