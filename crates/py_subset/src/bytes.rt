//! Bytes at the front of a text, by kind.

ghost use Rattle.std.specs.Prelude.{◌≡◌, ◌≤◌, false, length, slice_index, IfSome};
ghost use Rattle.py_subset.specs.Pieces as spec;

/// A space or a tab.
pub fn is_blank(b: u8) -> bool
    ensures { result ≡ spec.is_blank b }
{
    b == b' ' || b == b'\t'
}

/// An ASCII digit.
pub fn is_digit(b: u8) -> bool
    ensures { result ≡ spec.is_digit b }
{
    b >= b'0' && b <= b'9'
}

/// Whether the byte is an ASCII letter or `_`, with which a name may begin.
pub fn begins_name(b: u8) -> bool
    ensures { result ≡ spec.begins_name b }
{
    b >= b'a' && b <= b'z' || b >= b'A' && b <= b'Z' || b == b'_'
}

/// Whether the byte is an ASCII letter, a digit or `_`, with which a name may go on.
pub fn is_in_name(b: u8) -> bool
    ensures { result ≡ spec.is_in_name b }
{
    begins_name(b) || is_digit(b)
}

/// A quote of either kind.
pub fn is_quote(b: u8) -> bool
    ensures { result ≡ spec.is_quote b }
{
    b == b'\'' || b == b'"'
}

/// Neither a newline nor a carriage return.
fn is_in_comment(b: u8) -> bool
    ensures { result ≡ spec.is_in_comment b }
{
    b != b'\n' && b != b'\r'
}

/// The byte at an index, 0 where the text ends.
pub fn byte_at(text: &[u8], at: usize) -> u8
    ensures { result ≡ slice_index text.now at }
{
    if at < text.len() { text[at] } else { 0 }
}

/// How many bytes at the front go on with a name.
pub fn name_len(text: &[u8]) -> usize
    ensures { result ≡ spec.run spec.is_in_name text.now }
{
    for (i, b) in text.iter().enumerate() {
        if !is_in_name(*b) {
            return i;
        }
    }
    text.len()
}

/// How many digits are at the front.
pub fn digits_len(text: &[u8]) -> usize
    ensures { result ≡ spec.run spec.is_digit text.now }
{
    for (i, b) in text.iter().enumerate() {
        if !is_digit(*b) {
            return i;
        }
    }
    text.len()
}

/// How many blanks are at the front.
pub fn blanks_len(text: &[u8]) -> usize
    ensures { result ≡ spec.run spec.is_blank text.now }
{
    for (i, b) in text.iter().enumerate() {
        if !is_blank(*b) {
            return i;
        }
    }
    text.len()
}

/// How many bytes at the front go on with a comment.
pub fn comment_len(text: &[u8]) -> usize
    ensures { result ≡ spec.run spec.is_in_comment text.now }
{
    for (i, b) in text.iter().enumerate() {
        if !is_in_comment(*b) {
            return i;
        }
    }
    text.len()
}

/// How far a string goes after its opening quote, with the closing one, if it is closed on its line.
pub fn closing(quote: u8, text: &[u8]) -> Option<usize>
    ensures exact { result ≡ spec.closing quote false text.now }
    ensures within { IfSome result (λ n. n ≤ length text.now) }
{
    // Whether the byte stands behind a backslash that isn't itself behind one, and so can't be the closing quote.
    let mut taken = false;
    for (i, b) in text.iter().enumerate() {
        // A backslash doesn't take a line's end into a string.
        if *b == b'\n' {
            return None;
        }
        if *b == quote && !taken {
            return Some(i + 1);
        }
        taken = *b == b'\\' && !taken;
    }
    None
}

/// Whether there is a tab.
pub fn holds_tab(text: &[u8]) -> bool
    ensures { result ≡ spec.holds 9 text.now }
{
    text.iter().any(|b| *b == b'\t')
}

/// Whether there is a carriage return.
pub fn holds_return(text: &[u8]) -> bool
    ensures { result ≡ spec.holds 13 text.now }
{
    text.iter().any(|b| *b == b'\r')
}
