//! Brackets that match, and their marks.

ghost use Rattle.std.specs.Prelude.{◌≡◌, ◌-◌, slice_get, length};
ghost use Rattle.py_subset.specs.Layout as spec;

use crate::piece::Bracket;
use crate::token::Mark;

/// Whether two brackets are of one kind.
fn is_same(a: Bracket, b: Bracket) -> bool
    ensures { result ≡ spec.is_same a b }
{
    match (a, b) {
        (Bracket::Round, Bracket::Round) => true,
        (Bracket::Square, Bracket::Square) => true,
        (Bracket::Curly, Bracket::Curly) => true,
        (Bracket::Round, Bracket::Square | Bracket::Curly) => false,
        (Bracket::Square, Bracket::Round | Bracket::Curly) => false,
        (Bracket::Curly, Bracket::Round | Bracket::Square) => false,
    }
}

/// Whether the bracket closes the innermost one.
pub fn closes(b: Bracket, inner: &[Bracket]) -> bool
    ensures { result ≡ spec.closes b (slice_get inner.now (length inner.now - 1)) }
{
    match inner.last() {
        Some(last) => is_same(*last, b),
        None => false,
    }
}

/// The mark of an opening bracket.
pub fn open_mark(b: Bracket) -> Mark
    ensures { result ≡ spec.open_mark b }
{
    match b {
        Bracket::Round => Mark::OpenRound,
        Bracket::Square => Mark::OpenSquare,
        Bracket::Curly => Mark::OpenCurly,
    }
}

/// The mark of a closing bracket.
pub fn close_mark(b: Bracket) -> Mark
    ensures { result ≡ spec.close_mark b }
{
    match b {
        Bracket::Round => Mark::CloseRound,
        Bracket::Square => Mark::CloseSquare,
        Bracket::Curly => Mark::CloseCurly,
    }
}
