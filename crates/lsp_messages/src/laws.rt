ghost use Rattle.lsp_messages.specs.Laws.{StandInTurn};

/// A law: messages that stand at the front of an input, one behind the other and none of them an `exit`, are the first
/// of those that are to be answered, and what stands behind them tells which the others are and why no more are.
pub fn messages_stand_in_turn()
    ensures { StandInTurn }
{}
