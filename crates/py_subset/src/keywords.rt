//! The keyword that a word is.

ghost use Rattle.std.specs.{Prelude.{◌≡◌}, Str.{bytes_eq}};
ghost use Rattle.py_subset.specs.Pieces as spec;

use crate::token::Mark;

/// Whether two words are the same, by all their bytes.
fn is_same(name: &[u8], word: &str) -> bool
    ensures { result ≡ bytes_eq name.now word.now }
{
    name == word.as_bytes()
}

/// Whether two words are the same. A word of another length or first byte is told apart by these alone.
fn is(name: &[u8], word: &str) -> bool
    ensures { result ≡ bytes_eq name.now word.now }
{
    name.len() == word.len() && name.first() == word.as_bytes().first() && is_same(name, word)
}

/// The mark beside the first of these words that a name is.
macro_rules! mark_in {
    ($name:expr;) => { None };
    ($name:expr; $word:literal => $mark:ident, $($more:tt)*) => {
        if is($name, $word) { Some(Mark::$mark) } else { mark_in!($name; $($more)*) }
    };
}

/// Keywords of two and three letters.
fn short_keyword(name: &[u8]) -> Option<Mark>
    ensures { result ≡ spec.short_keyword name.now }
{
    mark_in!(
        name;
        "as" => As, "if" => If, "in" => In, "is" => Is, "or" => Or, "and" => And, "def" => Def,
        "for" => For, "not" => Not,
    )
}

/// Longer keywords that the grammar has.
fn long_keyword(name: &[u8]) -> Option<Mark>
    ensures { result ≡ spec.long_keyword name.now }
{
    mark_in!(
        name;
        "elif" => Elif, "else" => Else, "from" => From, "pass" => Pass, "True" => TrueWord,
        "None" => NoneWord, "break" => Break, "class" => Class, "False" => FalseWord,
        "while" => While, "import" => Import, "return" => Return, "continue" => Continue,
    )
}

/// Keywords of Python that the grammar doesn't have. They are no names, so they are told as a form that is left out.
fn foreign_keyword(name: &[u8]) -> Option<Mark>
    ensures { result ≡ spec.foreign_keyword name.now }
{
    mark_in!(
        name;
        "assert" => Foreign, "async" => Foreign, "await" => Foreign, "del" => Foreign,
        "except" => Foreign, "finally" => Foreign, "global" => Foreign, "lambda" => Foreign,
        "nonlocal" => Foreign, "raise" => Foreign, "try" => Foreign, "with" => Foreign,
        "yield" => Foreign,
    )
}

/// The keyword that a name is, if it is one.
pub fn keyword(name: &[u8]) -> Option<Mark>
    ensures { result ≡ spec.keyword name.now }
{
    if let Some(mark) = short_keyword(name) {
        return Some(mark);
    }
    long_keyword(name).or(foreign_keyword(name))
}
