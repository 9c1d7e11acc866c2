//! The whole: a text's module, or its first fault.

ghost use Rattle.std.specs.Prelude.{◌≡◌, ◌^◌, ◌<◌, ℕ, List, length, IfOk, Ok, Err};
ghost use Rattle.py_subset.specs.{FirstFault.{TellsFirst}, Layout.{Reads, tokens_of}, Correct.{IsModule}, Dotted.{HasDotted}, declared.tree.Module.{Module}, Texts.{Answers}};
ghost use Rattle.py_subset.specs.Refusals as refusals;
ghost use Rattle.py_subset.specs.Whole as spec;

use crate::block::module_body;
use crate::lex::{end_line, tokens};
use crate::token::{Mark, PyFault};
use crate::token_list::{Stop, Tokens};
use crate::tree::Module;
use std::alloc::Global;

/// Whether a token that is refused stands for a form of Python that is left out.
fn is_unsupported(mark: Mark) -> bool
    ensures { result ≡ refusals.is_unsupported mark }
{
    match mark {
        Mark::Foreign
        | Mark::For
        | Mark::If
        | Mark::Star
        | Mark::Power
        | Mark::Assign
        | Mark::Colon
        | Mark::OpenSquare
        | Mark::OpenCurly
        | Mark::Dot => true,
        // Any other token is one that is expected elsewhere.
        _ => false,
    }
}

/// The fault at the next token, which is refused.
fn refusal(end: u32, left: &Tokens) -> PyFault
    ensures { result ≡ refusals.refusal end left.now }
{
    let line = left.line_or(end);
    if is_unsupported(left.peek()) {
        PyFault::Unsupported(line)
    } else {
        PyFault::Expected(line)
    }
}

/// The module or the first fault, by the reading with one token of lookahead.
#[tactic(auto, unfolding(crate::specs::Whole::parse_of))]
fn read<'a>(alloc: Global, text: &'a [u8]) -> Result<Module<'a>, PyFault>
    requires { length text.now < 2 ^ 32 }
    ensures { Reads result (spec.parse_of text.now) }
{
    let mut left = tokens(alloc, text)?;
    // A turn takes a token, and so does a level of brackets or blocks: one more than all of them is never used up.
    let bound = left.len();
    match module_body(&mut left, bound + 1, bound + 1) {
        Ok(body) if left.len() == 0 => Ok(Module { body }),
        Ok(_) => Err(refusal(end_line(text), &left)),
        Err(Stop::Refused) => Err(refusal(end_line(text), &left)),
        Err(Stop::NoMemory) => Err(PyFault::NoMemory),
    }
}

/// The module of a text of fewer than 2^32 bytes, or its first fault: of the faults of tokens the first
/// by byte position, and where the text has none, the fault at the first token such that no module begins
/// with the tokens up to and including it. `NoMemory` comes where memory runs out, and may come on any
/// text. Time and memory are linear in the text.
#[tactic(auto, using(crate::proofs::Correct::whole_texts, crate::proofs::Texts::read_texts))]
pub fn parse<'a>(alloc: Global, text: &'a [u8]) -> Result<Module<'a>, PyFault>
    requires { length text.now < 2 ^ 32 }
    ensures read { Answers text.now result }
    ensures exact { Reads result (spec.parse_of text.now) }
    ensures derived { IfOk result (IsModule text.now) }
    ensures dotted { IfOk result HasDotted }
    ensures tokens { (why : PyFault) → tokens_of text.now ≡ Err why → Reads result (Err why) }
    ensures first { TellsFirst text.now result }
    ensures complete { (whole : Module) → IsModule text.now whole → Reads result (Ok whole) }
{
    read(alloc, text)
}

/// A text has at most one module.
pub fn one_module()
    ensures { (text : List ℕ) (a b : Module) → IsModule text a → IsModule text b → a ≡ b }
{}
