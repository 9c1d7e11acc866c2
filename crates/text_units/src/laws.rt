ghost use Rattle.text_units.specs.Units.{CountsUtf16};

/// A law: what is counted of a text's bytes in UTF-8 is how many code units UTF-16 has for its characters.
pub fn units_are_those_of_utf16()
    ensures { CountsUtf16 }
{}
