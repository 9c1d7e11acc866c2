//! Marks of symbols: most lists of symbols are told apart by these numbers alone.
ghost use Rattle.std.specs.Prelude.{◌≡◌, ◌<◌, take};
ghost use Rattle.partial_path.specs.Marks.{end_key, made_key, made_texts, mark, with_one, with_text, with_texts};

use crate::slots::KEY_SIZE;
use stacks_vars::{SymOut, Symbol};

/// Up to which byte of a long text its mark looks.
const BYTES: usize = 64;

/// What one number more turns a mark by, and what spreads a mark over its upper bits: two usual odd numbers.
const TURN: u64 = 6_364_136_223_846_793_005;

const SPREAD: u64 = 11_400_714_819_323_198_485;

/// What leaves the upper 29 bits of a mark.
const UPPER: u64 = 34_359_738_368;

/// The key of so many symbols of that mark: marks that differ have keys that differ but for few, and keys of different
/// numbers always differ.
pub fn end_key(mark: u64, count: u32) -> u32
    requires { count < 8 }
    ensures { result ≡ end_key mark count }
{
    (mark.wrapping_mul(SPREAD) / UPPER) as u32 * 8 + count
}

/// The key of the first symbols that a path makes.
pub(crate) fn made_key(made: &[SymOut]) -> u32
    ensures { result ≡ made_key made.now }
{
    let count = made.len().min(KEY_SIZE);
    end_key(mark_made(&made[..count]), count as u32)
}

/// The mark of these symbols.
fn mark_made(made: &[SymOut]) -> u64
    ensures { result ≡ with_texts 0 (made_texts made.now) }
{
    let mut mark = 0;
    for i in 0..made.len() {
        mark = with_symbol(mark, &made[i].symbol);
    }
    mark
}

/// The mark of symbols of that mark with one more behind them. The mark of no symbol is 0.
pub fn with_symbol(mark: u64, symbol: &Symbol) -> u64
    ensures { result ≡ with_text mark symbol.now }
{
    with_one(mark, mark_of(symbol))
}

/// The mark of a symbol. It takes constant time, and of a symbol of up to seven bytes it looks at none.
#[tactic(auto, unfolding(crate::specs::Marks::mark))]
fn mark_of(symbol: &Symbol) -> u64
    ensures { result ≡ mark symbol.now }
{
    let mut mark = symbol.head();
    if mark % 256 <= 8 {
        return mark;
    }
    let bytes = symbol.as_bytes();
    for i in 7..bytes.len().min(BYTES) {
        mark = with_one(mark, bytes[i] as u64);
    }
    mark
}

/// A mark with one number more behind it.
fn with_one(mark: u64, more: u64) -> u64
    ensures { result ≡ with_one mark more }
{
    mark.wrapping_mul(TURN).wrapping_add(more)
}
