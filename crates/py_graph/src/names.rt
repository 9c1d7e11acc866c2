//! Names of modules: which parts a path gives.

ghost use Rattle.std.specs.{Prelude.{◌≡◌, ◌-◌, ◌==◌, length, map, slice_get, IfOk}, List.{slice_split, list_all}};
ghost use Rattle.py_subset.specs.Pieces as byte;
ghost use Rattle.py_graph.specs.Names as spec;

use py_subset::{begins_name, is_in_name};
use std::alloc::{AllocError, Global};

/// The keywords of Python, all 35: also those that `py_subset` leaves out are no names of modules.
const KEYWORDS: [&str; 35] = [
    "False", "None", "True", "and", "as", "assert", "async", "await", "break", "class", "continue",
    "def", "del", "elif", "else", "except", "finally", "for", "from", "global", "if", "import",
    "in", "is", "lambda", "nonlocal", "not", "or", "pass", "raise", "return", "try", "while",
    "with", "yield",
];

fn is_keyword(name: &str) -> bool
    ensures { result ≡ spec.is_keyword name.now }
{
    KEYWORDS.contains(&name)
}

fn are_in_name(bytes: &[u8]) -> bool
    ensures { result ≡ list_all byte.is_in_name bytes.now }
{
    bytes.iter().all(|b| is_in_name(*b))
}

/// Whether the bytes are a letter or `_`, then letters, digits, `_`.
fn is_word(text: &[u8]) -> bool
    ensures { result ≡ spec.is_word text.now }
{
    match text {
        [first, rest @ ..] => begins_name(*first) && are_in_name(rest),
        [] => false,
    }
}

/// Whether the text is a name of Python and no keyword.
fn is_name(text: &str) -> bool
    ensures { result ≡ spec.is_name text.now }
{
    is_word(text.as_bytes()) && !is_keyword(text)
}

/// The pieces of a text between slashes.
pub fn pieces<'a>(alloc: Global, stem: &'a str) -> Result<Vec<&'a str>, AllocError>
    ensures { IfOk result (λ v. map (λ x. x.now) v.items ≡ slice_split (λ b. b == 47) stem.now) }
{
    stem.split('/').collect(alloc)
}

/// Whether there is a last part `__init__`.
fn ends_in_init(parts: &[&str]) -> bool
    ensures { result ≡ spec.is_init
        (slice_get (map (λ x. x.now) parts.now) (length parts.now - 1)) }
{
    match parts.last() {
        Some(last) => *last == "__init__",
        None => false,
    }
}

/// The parts without a last `__init__`.
pub fn without_init<'a, 'b>(parts: &'b [&'a str]) -> &'b [&'a str]
    ensures { map (λ x. x.now) result.now ≡ spec.without_init (map (λ x. x.now) parts.now) }
{
    if ends_in_init(parts) {
        &parts[..parts.len() - 1]
    } else {
        parts
    }
}

/// Whether each part is a name.
fn all_names(parts: &[&str]) -> bool
    ensures { result ≡ list_all (λ p. spec.is_name p.now) parts.now }
{
    parts.iter().all(|p| is_name(p))
}

/// Whether there are parts, and each is a name.
pub fn are_names(parts: &[&str]) -> bool
    ensures { result ≡ spec.are_names (map (λ x. x.now) parts.now) }
{
    parts.len() != 0 && all_names(parts)
}
