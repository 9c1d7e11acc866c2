//! Pieces of signs and brackets, each by its first bytes.

ghost use Rattle.std.specs.Prelude.{◌≡◌, ◌<◌, IfSome};
ghost use Rattle.py_subset.specs.Pieces as spec;

use crate::piece::{Bracket, Flaw, Piece, PieceKind, broken, plain};
use crate::token::Mark;

/// A sign that may be doubled, or go on with `=`.
fn doubled(b: u8, c: u8, d: u8, single: Mark, double: Mark, equal: Mark) -> Piece
    ensures exact { result ≡ spec.doubled b c d single double equal }
    ensures short { 0 < b → spec.IsShort result c d }
{
    if c == b {
        if d == b'=' {
            plain(Mark::Foreign, 3)
        } else {
            plain(double, 2)
        }
    } else if c == b'=' {
        plain(equal, 2)
    } else {
        plain(single, 1)
    }
}

/// A sign that may go on with `=` alone.
fn assigned(c: u8, single: Mark) -> Piece
    ensures exact { result ≡ spec.assigned c single }
    ensures short { spec.IsShort result c 0 }
{
    if c == b'=' {
        plain(Mark::Foreign, 2)
    } else {
        plain(single, 1)
    }
}

/// Which fault a byte is that begins no token.
fn unknown(b: u8) -> Piece
    ensures exact { result ≡ spec.unknown b }
    ensures len { result.len ≡ 1 }
    ensures no_name { spec.IsNoName result.kind }
{
    if b >= 128 {
        broken(Flaw::NotAscii)
    } else if b == b'\\' {
        broken(Flaw::Unsupported)
    } else {
        broken(Flaw::BadToken)
    }
}

/// The bracket that this byte is.
pub fn bracket_at(b: u8) -> Option<PieceKind>
    ensures exact { result ≡ spec.bracket_at b }
    ensures no_name { IfSome result spec.IsNoName }
{
    match b {
        b'(' => Some(PieceKind::Open(Bracket::Round)),
        b')' => Some(PieceKind::Close(Bracket::Round)),
        b'[' => Some(PieceKind::Open(Bracket::Square)),
        b']' => Some(PieceKind::Close(Bracket::Square)),
        b'{' => Some(PieceKind::Open(Bracket::Curly)),
        b'}' => Some(PieceKind::Close(Bracket::Curly)),
        _ => None,
    }
}

/// Signs of one byte that begin no other sign, and those with `=` alone.
fn short_sign(b: u8, c: u8) -> Option<Piece>
    ensures exact { result ≡ spec.short_sign b c }
    ensures short { IfSome result (λ p. spec.IsShort p c 0) }
{
    match b {
        b',' => Some(plain(Mark::Comma, 1)),
        b'.' => Some(plain(Mark::Dot, 1)),
        b';' => Some(plain(Mark::Foreign, 1)),
        b'~' => Some(plain(Mark::Tilde, 1)),
        b'=' if c == b'=' => Some(plain(Mark::EqualEqual, 2)),
        b'=' => Some(plain(Mark::Assign, 1)),
        b'!' if c == b'=' => Some(plain(Mark::NotEqual, 2)),
        _ => None,
    }
}

/// Signs that assign where `=` is behind them.
fn assigning_sign(b: u8, c: u8) -> Option<Piece>
    ensures exact { result ≡ spec.assigning_sign b c }
    ensures short { IfSome result (λ p. spec.IsShort p c 0) }
{
    match b {
        b'+' => Some(assigned(c, Mark::Plus)),
        b'-' if c == b'>' => Some(plain(Mark::Foreign, 2)),
        b'-' => Some(assigned(c, Mark::Minus)),
        b'%' => Some(assigned(c, Mark::Percent)),
        b'&' => Some(assigned(c, Mark::Ampersand)),
        b'|' => Some(assigned(c, Mark::Bar)),
        b'^' => Some(assigned(c, Mark::Caret)),
        b'@' => Some(assigned(c, Mark::Foreign)),
        b':' => Some(assigned(c, Mark::Colon)),
        _ => None,
    }
}

/// Signs that may be doubled.
fn doubling_sign(b: u8, c: u8, d: u8) -> Option<Piece>
    ensures exact { result ≡ spec.doubling_sign b c d }
    ensures short { IfSome result (λ p. spec.IsShort p c d) }
{
    match b {
        b'*' => Some(doubled(b, c, d, Mark::Star, Mark::Power, Mark::Foreign)),
        b'/' => Some(doubled(b, c, d, Mark::Slash, Mark::DoubleSlash, Mark::Foreign)),
        b'>' => Some(doubled(b, c, d, Mark::Greater, Mark::ShiftRight, Mark::GreaterEqual)),
        b'<' => Some(doubled(b, c, d, Mark::Less, Mark::ShiftLeft, Mark::LessEqual)),
        _ => None,
    }
}

/// The longest sign that begins with these bytes.
pub fn sign(b: u8, c: u8, d: u8) -> Piece
    ensures exact { result ≡ spec.sign b c d }
    ensures short { spec.IsShort result c d }
{
    if let Some(piece) = short_sign(b, c) {
        return piece;
    }
    if let Some(piece) = assigning_sign(b, c) {
        return piece;
    }
    match doubling_sign(b, c, d) {
        Some(piece) => piece,
        None => unknown(b),
    }
}
