//! What no clause says: that paths are compared with memory at hand, and which paths are kept in worked cases, by the body
//! that sorts them and by a plain one.
mod plain;

use crate::tables::{Telling, others};
use plain::plain_unshadowed;
use shadowing::{EdgeList, EdgeNo, EdgeStep, unshadowed};
use std::alloc::{AllocError, Global};
use std::mem;
use std::test::Fail;

/// The step of a letter. A capital has the higher precedence.
fn step_of(letter: u8) -> EdgeStep {
    let (file, edge, precedence) = match letter {
        b'a' => (0, 0, 0),
        b'b' => (0, 1, 0),
        b'B' => (0, 1, 1),
        b'c' => (0, 2, 0),
        b'C' => (0, 2, 2),
        b'D' => (0, 3, 1),
        _ => (1, 1, 1),
    };
    EdgeStep {
        edge: EdgeNo { file, edge },
        precedence,
    }
}

fn letter_of(step: &EdgeStep) -> &'static str {
    match (step.edge.file, step.edge.edge, step.precedence) {
        (0, 0, 0) => "a",
        (0, 1, 0) => "b",
        (0, 1, 1) => "B",
        (0, 2, 0) => "c",
        (0, 2, 2) => "C",
        (0, 3, 1) => "D",
        _ => "E",
    }
}

/// The paths of a text, a letter for each step and a semicolon after each path.
fn paths_of(alloc: Global, text: &str) -> Result<Vec<EdgeList>, AllocError> {
    let mut paths = Vec::new(alloc);
    let mut steps = Vec::new(alloc);
    for letter in text.bytes() {
        if letter == b';' {
            paths.push(EdgeList::of(mem::replace(&mut steps, Vec::new(alloc))))?;
        } else {
            steps.push(step_of(letter))?;
        }
    }
    Ok(paths)
}

/// The text of these paths; `nothing` where there are none.
fn text_of(alloc: Global, paths: &[&EdgeList]) -> Result<String, AllocError> {
    let mut text = String::new(alloc);
    for path in paths {
        push_path(&mut text, path)?;
    }
    if text.is_empty() {
        text.push_str("nothing")?;
    }
    Ok(text)
}

fn push_path(text: &mut String, path: &EdgeList) -> Result<(), AllocError> {
    for step in path.items() {
        text.push_str(letter_of(step))?;
    }
    text.push_str(";")
}

/// What is kept of the paths of a text by the body that sorts them.
fn kept_of(alloc: Global, text: &str) -> Result<String, AllocError> {
    let kept = unshadowed(alloc, paths_of(alloc, text)?)?;
    let kept: Vec<&EdgeList> = kept.iter().collect(alloc)?;
    text_of(alloc, &kept)
}

/// What is kept of the paths of a text by the plain body.
fn plainly_kept_of(alloc: Global, text: &str) -> Result<String, AllocError> {
    let paths = paths_of(alloc, text)?;
    let kept = plain_unshadowed(alloc, &paths)?;
    text_of(alloc, &kept)
}

/// Tells which paths are kept; where the two bodies differ, what both keep.
#[derive(Drop)]
struct Kept;

impl Telling for Kept {
    fn told(&mut self, alloc: Global, line: &str) -> Result<String, Fail> {
        let kept = kept_of(alloc, line)?;
        let plain = plainly_kept_of(alloc, line)?;
        if kept.as_str() == plain.as_str() {
            Ok(kept)
        } else {
            Ok(format!(in alloc; "{kept} and plainly {plain}")?)
        }
    }
}

const KEPT: &str = "# Nothing.
 => nothing
# The higher precedence, given last and first.
aB;aC; => aC;
aC;aB; => aC;
# A later difference too, where it is the first; else it does not count.
aBc;aCD;aCC; => aCC;
bC;cB; => bC;cB;
# A prefix.
a;aB;; => a;aB;;
# Parallel edges of one precedence.
aB;aD; => aB;aD;
# The same place of two files; and two files, and then two precedences.
B;E; => B;E;
Eb;BC; => Eb;BC;
# One edge of two precedences.
b;B; => B;
# A path twice.
aB;aB; => aB;aB;
# One shadows another, which shadows a third.
aC;aB;ac; => aC;
# Kept paths between which another was left out.
Ba;DC;Bb;a;Da; => Ba;DC;Bb;";

#[test]
fn keeps_what_none_shadows(rt: HostRuntime) -> Result<(), Fail> {
    assert_eq!(rt; others(rt.alloc(), &mut Kept, KEPT)?.as_str(), "");
    Ok(())
}

/// The text of some paths, which the numbers from a seed choose.
fn some_paths(alloc: Global, seed: u32) -> Result<String, AllocError> {
    let mut text = String::new(alloc);
    let mut number = seed;
    for _ in 0..40 {
        number = number.wrapping_mul(1_664_525).wrapping_add(1_013_904_223);
        text.push(match number / 65_536 % 10 {
            0 => 'a',
            1 => 'b',
            2 => 'B',
            3 => 'c',
            4 => 'C',
            5 => 'D',
            6 => 'E',
            _ => ';',
        })?;
    }
    text.push(';')?;
    Ok(text)
}

/// The first text of some paths, of 300, of which the two bodies keep different ones.
fn first_differing(alloc: Global) -> Result<Option<String>, AllocError> {
    for seed in 0..300 {
        let text = some_paths(alloc, seed)?;
        let kept = kept_of(alloc, &text)?;
        let plain = plainly_kept_of(alloc, &text)?;
        if kept.as_str() != plain.as_str() {
            return Ok(Some(text));
        }
    }
    Ok(None)
}

#[test]
fn keeps_what_the_plain_body_keeps(rt: HostRuntime) -> Result<(), Fail> {
    assert_eq!(rt; first_differing(rt.alloc())?, None);
    Ok(())
}
