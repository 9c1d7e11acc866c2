use std::alloc::{AllocError, Global};
use std::cmp::Ordering;
use std::marker::Model;
use std::sync::Arc;

/// A symbol, whose bytes are shared by all that hold it, with its head beside them, by which most symbols
/// are compared without a look at their bytes. A contract sees its bytes.
#[derive(Debug, Drop)]
pub struct Symbol {
    head: u64,
    bytes: Arc<Vec<u8>, Global>,
}

impl Model for Symbol {
    ghost use Rattle.std.specs.{Prelude.{ℕ, List}, Arc.{arc_value}};
    ghost use Rattle.stacks_vars.specs.Head.{IsHead};

    ghost Value = { List ℕ };

    ghost view = { λ s. (arc_value s.bytes).items };

    ghost invariant = { λ s. IsHead s.head (arc_value s.bytes).items };
}

impl Symbol {
    ghost use Rattle.std.specs.{Prelude.{◌≡◌, ◌↔◌, IfOk, IsTrue}, Arc.{arc_value}, Cmp.Lexicographic.{slice_cmp}, Ordering.{nat_cmp}, Str.{bytes_eq}};
    ghost use Rattle.stacks_vars.specs.Head.{IsHead, head};

    /// A symbol of these bytes, which are copied; the one error is want of memory.
    pub fn of(alloc: Global, bytes: &[u8]) -> Result<Symbol, AllocError>
        ensures { IfOk result (λ symbol. symbol ≡ bytes.now) }
    {
        Ok(Symbol {
            head: head_of(bytes),
            bytes: Arc::new(alloc, Vec::from_slice(alloc, bytes)?)?,
        })
    }

    /// The symbol of these bytes, which are shared and not copied. It takes no memory.
    pub fn sharing(bytes: Arc<Vec<u8>, Global>) -> Symbol
        ensures { result ≡ (arc_value bytes).items }
    {
        Symbol {
            head: head_of(bytes.as_slice()),
            bytes,
        }
    }

    /// Its bytes.
    pub fn as_bytes(&self) -> &[u8]
        ensures { result.now ≡ self.now }
    {
        self.bytes.as_slice()
    }

    /// Its head: its first seven bytes as a number, the first greatest, with zeros behind a shorter text,
    /// and then the lesser of its length and 8, plus 1. Heads that differ stand as their symbols do; equal
    /// heads of symbols of at most seven bytes are those of one symbol. It takes constant time.
    pub fn head(&self) -> u64
        ensures { IsHead result self.now }
    {
        self.head
    }

    /// The same symbol once more, whose bytes are shared and not copied. It takes no memory; the one
    /// error is want of room to count one holder more.
    pub fn copy(&self) -> Result<Symbol, AllocError>
        ensures { IfOk result (λ copy. copy ≡ self.now) }
    {
        Ok(Symbol {
            head: self.head,
            bytes: Arc::try_clone(&self.bytes)?,
        })
    }

    /// Whether it is this symbol.
    pub fn is(&self, bytes: &[u8]) -> bool
        ensures { result ≡ bytes_eq self.now bytes.now }
    {
        self.as_bytes() == bytes
    }

    /// How it stands to the other one: by their bytes, a shorter one before those that begin with it. Bytes
    /// are looked at only where both heads are equal and the symbols have more than seven.
    pub fn order(&self, other: &Symbol) -> Ordering
        ensures { result ≡ slice_cmp nat_cmp self.now other.now }
    {
        if self.head != other.head {
            return self.head.cmp(&other.head);
        }
        // Equal heads of seven bytes or fewer leave nothing to compare.
        if is_whole(self.head) {
            return Ordering::Equal;
        }
        tails_cmp(self.as_bytes(), other.as_bytes())
    }

    /// Whether both are the same symbol. Bytes are looked at only where both heads are equal and the
    /// symbols have more than seven.
    pub fn same(&self, other: &Symbol) -> bool
        ensures eq { result ≡ bytes_eq self.now other.now }
        ensures exact { IsTrue result ↔ (self.now ≡ other.now) }
    {
        if self.head != other.head {
            return false;
        }
        is_whole(self.head) || tails_cmp(self.as_bytes(), other.as_bytes()).is_eq()
    }
}

/// How many bytes of a symbol its head has.
const HEAD_BYTES: usize = 7;

/// How bytes stand to others whose first seven are the same: as the first ones that differ do, and a shorter text before
/// those that begin with it. They are compared one by one: most symbols have so few more bytes that comparing words of
/// them takes longer.
fn tails_cmp(a: &[u8], b: &[u8]) -> Ordering
    requires more { (7 ≤ length a.now) × (7 ≤ length b.now) }
    requires alike { slice_cmp nat_cmp a.now b.now
        ≡ slice_cmp nat_cmp (drop 7 a.now) (drop 7 b.now) }
    ensures { result ≡ slice_cmp nat_cmp a.now b.now }
{
    let count = a.len().min(b.len());
    for i in HEAD_BYTES..count {
        let order = a[i].cmp(&b[i]);
        if order.is_ne() {
            return order;
        }
    }
    a.len().cmp(&b.len())
}

ghost use Rattle.std.specs.{Prelude.{◌≡◌, ◌↔◌, ◌+◌, ◌%◌, ◌≤◌, IsTrue, drop, length, min, slice_index}, Ordering.{nat_cmp}, Cmp.Lexicographic.{slice_cmp}};
ghost use Rattle.stacks_vars.specs.Head.{IsHead, last_digit};

/// The head of a symbol of these bytes. Its digits to the base 256 go from the greatest down, so that heads
/// compare as the texts do.
fn head_of(bytes: &[u8]) -> u64
    ensures { IsHead result bytes.now }
{
    u64::from_be_bytes([
        digit_at(bytes, 0),
        digit_at(bytes, 1),
        digit_at(bytes, 2),
        digit_at(bytes, 3),
        digit_at(bytes, 4),
        digit_at(bytes, 5),
        digit_at(bytes, 6),
        last_digit(bytes.len()),
    ])
}

/// The byte at that place; 0 behind the end.
fn digit_at(bytes: &[u8], place: usize) -> u8
    ensures { result ≡ slice_index bytes.now place }
{
    match bytes.get(place) {
        Some(byte) => *byte,
        None => 0,
    }
}

/// The last byte of the head of a symbol of that length: from 1 on, so that no head is 0, and to 9, which stands for
/// each length from 8 bytes on.
fn last_digit(length: usize) -> u8
    ensures { result ≡ min length 8 + 1 }
{
    length.min(8) as u8 + 1
}

/// Whether the head is one of a symbol of at most seven bytes, all of which it has.
fn is_whole(head: u64) -> bool
    ensures { IsTrue result ↔ (head % 256 ≤ 8) }
{
    // The last byte is the length and 1.
    head % 256 <= 8
}
