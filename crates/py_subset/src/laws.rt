//! Laws of what texts are read as: functions that do nothing, whose contracts are the laws.

ghost use Rattle.py_subset.specs.Texts.{LookaheadReadsTexts, TextsAreReadOnce};

/// A law: a text is read as one module or one fault, and as nothing else.
pub fn texts_are_read_once()
    ensures { TextsAreReadOnce }
{}

/// A law: what the reading with one token of lookahead gives is what the grammar and the rule of the first
/// fault say of the text. So each text is read as something.
pub fn lookahead_reads_texts()
    ensures { LookaheadReadsTexts }
{}
