//! A session over a link, polled by hand.
ghost use Rattle.std.specs.Prelude.{◌≡◌, None, IfOk, IfErr, [], false};
ghost use Rattle.nav_poll.specs.Polling.{StandsFor, seen, start_at};

use crate::driven::Driven;
use crate::link::Link;
use graph_nodes::Steps;
use nav_io::LineReader;
use nav_session::Desk;
use std::alloc::Global;
use std::marker::Model;
use std::sync::ledger::Ledger;
use version_board::Pins;

/// A session at a board over a link, which goes on by polls.
///
/// It keeps the desk, the board and the link until it is closed. A contract sees these, and how far it is with its lines
/// and replies.
#[derive(Drop)]
pub struct Polled<B: Pins, K> {
    pub(crate) alloc: Global,
    pub(crate) desk: Desk,
    pub(crate) board: B,
    pub(crate) link: K,
    pub(crate) reader: LineReader,
    // How many bytes the reader has in front, and whether it met the end of what the link gives.
    pub(crate) in_front: usize,
    pub(crate) at_end: bool,
    // Replies; the bytes before `sent` were pushed.
    pub(crate) out: Vec<u8>,
    pub(crate) sent: usize,
    // How many lines are answered, and whether the last one ended the session.
    pub(crate) lines: u32,
    pub(crate) quit: bool,
    pub(crate) ended: Option<u8>,
}

impl<B: Pins, K> Model for Polled<B, K> {
    ghost use Rattle.std.specs.Prelude.{◌≡◌, ◌≤◌, vec_len, length, drop};
    ghost use Rattle.nav_session.specs.Desks.{HasItsView};
    ghost use Rattle.nav_poll.specs.Polling.{Polling};

    ghost Value = { Polling B K };

    ghost view = { λ p. record {
      desk = p.desk;
      board = p.board;
      link = p.link;
      reader = p.reader;
      out = drop p.sent p.out.items;
      lines = p.lines;
      quit = p.quit;
      ended = p.ended;
    } };

    ghost invariant = { λ p. (p.sent ≤ vec_len p.out) × (p.in_front ≡ length p.reader.front)
        × (p.at_end ≡ p.reader.ended)
        × HasItsView p.desk (B.log p.board) (B.pin_at p.board) };
}

/// What a session was to be made of, where memory was refused.
#[derive(Drop)]
pub struct NotStarted<B, K> {
    pub desk: Desk,
    pub board: B,
    pub link: K,
}

impl<B: Pins, K: Link> Polled<B, K> {
    /// A session at its start, with nobody named on the desk. It answers nothing yet.
    ///
    /// The one error is want of memory, which hands all back; the desk keeps its documents, and nobody is named on it.
    pub fn start(
        alloc: Global,
        desk: Desk,
        board: B,
        link: K,
    ) -> Result<Polled<B, K>, NotStarted<B, K>>
        ensures stands { IfOk result (λ p. StandsFor
            (start_at (B.seat board) (B.log board) (K.held link) (K.left link))
            (seen B.seat B.log B.pin_at K.left K.held p)) }
        ensures begins { IfOk result (λ p. p ≡ record {
          desk = record { store = desk.store; user = None; view = None; keeps = desk.keeps };
          board = board;
          link = link;
          reader = record { front = []; ended = false };
          out = [];
          lines = 0;
          quit = false;
          ended = None;
        }) }
        ensures back { IfErr result (λ parts. parts ≡ record {
          desk = record { store = desk.store; user = None; view = None; keeps = desk.keeps };
          board = board;
          link = link;
        }) }
    {
        let mut desk = desk;
        desk.clear();
        match LineReader::new(alloc) {
            Ok(reader) => Ok(Polled {
                alloc,
                desk,
                board,
                link,
                reader,
                in_front: 0,
                at_end: false,
                out: Vec::new(alloc),
                sent: 0,
                lines: 0,
                quit: false,
                ended: None,
            }),
            Err(_) => Err(NotStarted { desk, board, link }),
        }
    }

    /// A future that goes on with the session until it has ended, and gives its status. It takes no memory.
    pub fn with<'a, G, L: Ledger, R>(
        &'a mut self,
        rt: &'a R,
        gate: &'a G,
        steps: &'a mut Steps<L>,
    ) -> Driven<'a, B, K, G, L, R>
        ensures same_reference { result.polled.ghost_name ≡ self.entry.ghost_name }
        ensures polled { result.polled.now ≡ self.old }
    {
        Driven {
            polled: self,
            rt,
            gate,
            steps,
        }
    }

    /// Gives back what the session was made of, at any time. It takes no memory.
    pub fn close(self) -> (Desk, B, K)
        ensures desk { result.0 ≡ self.desk }
        ensures board { result.1 ≡ self.board }
        ensures link { result.2 ≡ self.link }
    {
        let Polled {
            desk,
            board,
            link,
            ..
        } = self;
        (desk, board, link)
    }
}
