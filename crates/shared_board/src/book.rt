//! The history of a board. It exists in the proofs alone; what threads share of it is its length.
ghost use Rattle.std.specs.Prelude.{◌≡◌, ◌+◌, ◌==◌, ◌<◌, ◌≤◌, ◌^◌, ◌++◌, ◌∷◌, [], length, IsTrue, IsFalse};
ghost use Rattle.version_board.specs.Logs.{entry, Begins};
ghost use Rattle.shared_board.specs.Books.{head_of};

use logbook::{Gain, Offer, Plain, Play, Rule, Seen, Start, Word};
use std::marker::{Brand, Model, PhantomData};
use version_tree::{Edit, Entry};

/// The rule of a board's book.
pub struct Law;

impl Rule<Entry, u64> for Law {
    ghost use Rattle.std.specs.Prelude.{[]};
    ghost use base.Fml.{ftrue};
    ghost use Rattle.shared_board.specs.Books.{IsKept};

    ghost holds = { λ cells log. IsKept cells log };

    ghost first = { [] };

    ghost hinted = { λ n log. Unit {0} };

    ghost shows = { λ log. [] };

    ghost keeps = { λ names log. ftrue };

    ghost moves = { λ ask before after answer. Unit {0} };
}

/// A step that trades nothing.
pub struct Nothing;

impl Gain<Entry, u64> for Nothing {
    ghost use base.Fml.{ftrue};

    ghost after = { λ names about answer. ftrue };
}

/// A step that adds an entry.
pub struct Add;

impl Play<Entry, u64> for Add {
    ghost use Rattle.shared_board.specs.Books.{Adds};

    ghost then = { Adds };
}

/// An entry that is to be added. Its edits are lent: the history keeps no copy of them.
#[derive(Clone, Copy)]
pub struct Draft<'a> {
    pub seat: u32,
    pub serial: u32,
    pub edits: &'a [Edit],
}

impl<'a> Plain<Draft<'a>, Entry, u64> for Add {
    ghost use Rattle.std.specs.Prelude.{None};
    ghost use Rattle.version_board.specs.Logs.{entry};

    ghost ask = { λ draft. entry draft.seat draft.serial draft.edits.now };

    ghost state = { λ draft. None };
}

/// Which board it is. Contracts alone see it; each call of a program picks it.
pub trait Naming {
    ghost use Rattle.shared_board.specs.Seats.{Board};

    ghost board: { Board };
}

impl Naming for Brand {
    ghost board = { record {
      book = record { number = 0; log_name = 0; cells_name = 0 };
      seats = 0;
    } };
}

/// A board with an empty log, which has no name yet. Contracts see which board it is.
#[derive(Drop)]
pub struct SharedBoard {
    count: u32,
    head: Word<Entry, u64, Law>,
    seen: Seen<Entry, u64, Law>,
}

impl Model for SharedBoard {
    ghost use Rattle.std.specs.Prelude.{◌≡◌, ◌≤◌, []};
    ghost use Rattle.shared_board.specs.{Books.{head_of}, Seats.{Board, max_seats}};

    ghost Value = { Board };

    ghost view = { λ b. record { book = b.seen.book; seats = b.count } };

    ghost invariant = { λ b. (b.seen.log ≡ []) × (b.head ≡ head_of b.seen.book) × (1 ≤ b.count)
        × (b.count ≤ max_seats) };
}

impl SharedBoard {
    ghost use Rattle.shared_board.specs.Seats.{max_seats};

    /// A new board of 1 to 32 seats. It takes no memory.
    pub fn make(seats: u32) -> SharedBoard
        requires some { 1 ≤ seats }
        requires few { seats ≤ max_seats }
        ensures { result.seats ≡ seats }
    {
        let (seen, mut first, _second) = Seen::open(Start::alone(), 0, 0);
        SharedBoard {
            count: seats,
            head: Word::tracked(0, &mut first),
            seen,
        }
    }

    /// How many seats it has.
    pub(crate) fn count(&self) -> u32
        ensures count { result ≡ self.now.seats }
        ensures some { 1 ≤ result }
        ensures few { result ≤ max_seats }
    {
        self.count
    }

    /// The book's word under the board's name, and the front that has seen nothing.
    pub(crate) fn opened<J: Naming>(self) -> (Book<J>, Front<J>)
        requires { self ≡ J.board }
        ensures { result.1 ≡ [] }
    {
        let SharedBoard { head, seen, .. } = self;
        (
            Book {
                head,
                of: PhantomData,
            },
            Front {
                entries: 0,
                seen,
                of: PhantomData,
            },
        )
    }
}

/// The word that all threads share: the length of the log.
#[derive(Drop)]
pub struct Book<J: Naming> {
    head: Word<Entry, u64, Law>,
    of: PhantomData<J>,
    ghost head_is: { head ≡ head_of J.board.book },
}

/// A beginning of the log that was seen. Contracts see it as its entries.
#[derive(Drop)]
pub struct Front<J: Naming> {
    entries: u64,
    seen: Seen<Entry, u64, Law>,
    of: PhantomData<J>,
}

impl<J: Naming> Model for Front<J> {
    ghost use Rattle.std.specs.Prelude.{◌≡◌, List, length};
    ghost use Rattle.version_tree.specs.declared.entry.Entry.{Entry};

    ghost Value = { List Entry };

    ghost view = { λ f. f.seen.log };

    ghost invariant = { λ f. (f.entries ≡ length f.seen.log) × (f.seen.book ≡ J.board.book) };
}

impl<J: Naming> Front<J> {
    /// A copy. It takes no memory.
    pub fn again(&self) -> Front<J>
        ensures { result ≡ self.now }
    {
        Front {
            entries: self.entries,
            seen: self.seen.again(),
            of: PhantomData,
        }
    }

    /// Whether it begins the other: of two beginnings of one log the shorter begins the longer.
    pub fn begins(&self, other: &Front<J>) -> bool
        ensures short { IsTrue result → Begins self.now other.now }
        ensures long { IsFalse result → Begins other.now self.now }
    {
        let mut both = self.seen.again();
        both.learn(&other.seen);
        self.entries <= other.entries
    }

    /// Adds an entry to all that was seen, and says whether it did. It did not where the log is longer.
    pub fn append(&mut self, book: &Book<J>, draft: &Draft<'_>) -> bool
        requires room { length self.old < 2 ^ 62 }
        ensures { IsTrue result → self.new ≡ self.old
            ++ entry draft.now.seat draft.now.serial draft.now.edits.now ∷ [] }
    {
        let mut offer: Offer<Entry, u64, Law, Nothing> = self
            .seen
            .plain::<Nothing, Draft<'_>, Add>(draft);
        let mut pen = self.seen.no_pen();
        let entries = self.entries;
        let found = book
            .head
            .compare_exchange::<Add, Nothing>(
                entries,
                entries + 1,
                &mut self.seen,
                &mut offer,
                &mut pen,
            );
        self.entries = if found == entries { entries + 1 } else { found };
        found == entries
    }
}
