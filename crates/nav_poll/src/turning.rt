//! The line in front of a session's reader answered.
ghost use Rattle.std.specs.Prelude.{◌≡◌, ◌≤◌, ℕ, List, [], Option, None, Ok, Err, true, length, IfOk};
ghost use Rattle.nav_io.specs.Lines.{line_max, HasNoNewline};
ghost use Rattle.nav_session.specs.{Desks.{HasItsView, GoesOn, moment}, Turns.{spot}};
ghost use Rattle.nav_session.specs.declared.halt.Halt.TheVariants as halt;
ghost use Rattle.nav_poll.specs.Turns.{TakesLine};

use graph_nodes::Steps;
use nav_io::{Gate, LineReader};
use nav_session::{Desk, Halt, Means, Step, answer_line};
use std::sync::ledger::Ledger;
use std::thread::Threads;
use version_board::Commits;

// Answers the line in front of the reader, which has so many bytes there; none where it isn't whole.
pub(crate) fn take_line<R: Threads + Sync, B: Commits<R>, G: Gate + Sync, L: Ledger>(
    means: &Means<'_, R, G>,
    desk: &mut Desk,
    board: &mut B,
    reader: &mut LineReader,
    in_front: &mut usize,
    steps: &mut Steps<L>,
) -> Result<Option<Step>, Halt>
    requires in_front { in_front.old ≡ length reader.old.front }
    requires view { HasItsView desk.old (B.log board.old) (B.pin_at board.old) }
    ensures takes { (left : Option (List ℕ)) → TakesLine
        (spot (moment (B.seat board.old) (B.log board.old)
        (B.pin_at board.old) desk.old) reader.old left)
        (spot (moment (B.seat board.new) (B.log board.new)
        (B.pin_at board.new) desk.new) reader.new left)
        result }
    ensures goes_on { GoesOn (moment (B.seat board.old) (B.log board.old)
        (B.pin_at board.old) desk.old)
        (moment (B.seat board.new) (B.log board.new) (B.pin_at board.new) desk.new) }
    ensures view { IfOk result (λ _. HasItsView desk.new (B.log board.new) (B.pin_at board.new)) }
    ensures ended { reader.new.ended ≡ reader.old.ended }
    ensures in_front { in_front.new ≡ length reader.new.front }
    ensures not_source { result ≡ Err halt.SourceFailed → ⊥ }
    ensures not_sink { result ≡ Err halt.SinkFailed → ⊥ }
    ensures same { result ≡ Ok None → reader.new ≡ reader.old }
    ensures no_newline { result ≡ Ok None → HasNoNewline reader.new.front }
    ensures short { result ≡ Ok None → length reader.new.front ≤ line_max }
    ensures at_end { result ≡ Ok None → reader.new.ended ≡ true → reader.new.front ≡ [] }
{
    match reader.whole_line() {
        Ok(Some(line)) => {
            *in_front = in_front.saturating_sub(line.len() + 1);
            Ok(Some(answer_line(means, desk, board, line, steps)?))
        }
        Ok(None) => Ok(None),
        Err(_) => Err(Halt::LongLine),
    }
}
