//! The edits of the scripts of commits, as texts.

use crate::bare::paths_of;
use std::alloc::Global;
use std::test::Fail;
use version_tree::{Edit, PathText, UserText};

/// The number that a text is, 0 where it is none.
pub fn number(text: &str) -> u32 {
    text.parse::<u32>().unwrap_or(0)
}

/// The path of the file with the number.
pub fn numbered(alloc: Global, i: usize) -> Result<String, Fail> {
    Ok(format!(in alloc; "f{i:03}.sg.json")?)
}

/// Adds the edits that the text says.
fn push_edits(alloc: Global, edits: &mut Vec<Edit>, text: &str) -> Result<(), Fail> {
    let (verb, rest) = text.split_once(' ').unwrap_or((text, ""));
    let (first, second) = rest.split_once(' ').unwrap_or((rest, ""));
    match verb {
        "puts" => push_puts(alloc, edits, number(first) as usize, second),
        "removes" => push_removes(alloc, edits, number(first) as usize),
        "put" | "one" | "remove" => Ok(edits.push(file_edit(alloc, verb, first)?)?),
        _ => Ok(edits.push(rule_edit(alloc, verb, first, second)?)?),
    }
}

/// Adds puts of the numbered files from the first on; the text says below which end, and how far apart.
fn push_puts(alloc: Global, edits: &mut Vec<Edit>, first: usize, text: &str) -> Result<(), Fail> {
    let (end, apart) = text.split_once(' ').unwrap_or((text, ""));
    let apart = number(apart) as usize;
    let paths = paths_of(alloc, 0)?;
    for i in first..number(end) as usize {
        if i % apart.max(1) == first % apart.max(1) {
            edits.push(Edit::Put {
                path: PathText::of(alloc, numbered(alloc, i)?.as_str())?,
                paths: paths.share()?,
            })?;
        }
    }
    Ok(())
}

/// Adds removes of the numbered files below the end.
fn push_removes(alloc: Global, edits: &mut Vec<Edit>, end: usize) -> Result<(), Fail> {
    for i in 0..end {
        edits.push(Edit::Remove {
            path: PathText::of(alloc, numbered(alloc, i)?.as_str())?,
        })?;
    }
    Ok(())
}

fn file_edit(alloc: Global, verb: &str, path: &str) -> Result<Edit, Fail> {
    let path = PathText::of(alloc, path)?;
    if verb == "remove" {
        return Ok(Edit::Remove { path });
    }
    let nodes = if verb == "one" { 1 } else { 0 };
    Ok(Edit::Put {
        path,
        paths: paths_of(alloc, nodes)?,
    })
}

fn rule_edit(alloc: Global, verb: &str, user: &str, prefix: &str) -> Result<Edit, Fail> {
    let user = UserText::of(alloc, user)?;
    let prefix = PathText::of(alloc, prefix)?;
    match verb {
        "grant" => Ok(Edit::Grant { user, prefix }),
        "revoke" => Ok(Edit::Revoke { user, prefix }),
        "deny" => Ok(Edit::Deny { user, prefix }),
        "undeny" => Ok(Edit::Undeny { user, prefix }),
        _ => Err(Fail::new("an edit has no such verb")),
    }
}

/// The edits that a text says, between semicolons: `put a.py`, `one a.py` (a file with one node), `remove a.py`, `grant`,
/// `revoke`, `deny` and `undeny` with a user and a prefix, `puts 0 70 2` (the numbered files from 0 on, below 70, each
/// second one) and `removes 69` (the numbered files below 69).
pub fn edits_of(alloc: Global, text: &str) -> Result<Vec<Edit>, Fail> {
    let mut edits = Vec::new(alloc);
    for part in text.split(';') {
        if !part.is_empty() {
            push_edits(alloc, &mut edits, part)?;
        }
    }
    Ok(edits)
}
