//! The words behind the program's name.
ghost use Rattle.std.specs.{Prelude.{◌≡◌, ◌≤◌, IfSome, length, map}, String.{string_bytes}};
ghost use Rattle.poll_many.specs.ManyWords.{behind, all_behind, number_of, in_range, wanted_of, wanted_by, texts};

/// What the words ask for: the port, 1 to 65,535, where clients arrive, how many of their connections are served, 1 to
/// 1,000,000, and for how many seats, 1 to 32.
#[derive(Clone, Copy, Debug, PartialEq, Eq)]
pub struct Wanted {
    pub port: u16,
    pub connections: u32,
    pub seats: u32,
}

/// What the words ask for; None where they aren't three numbers within these limits. A number is decimal digits without a
/// sign and without a zero in front.
pub fn wanted_by(words: &[String]) -> Option<Wanted>
    ensures words { result ≡ wanted_by (texts words.now) }
    ensures seats { IfSome result (λ wanted. (1 ≤ wanted.seats) × (wanted.seats ≤ 32)) }
{
    match words {
        [port, connections, seats] => wanted_of(
            number_of(port.as_str()),
            number_of(connections.as_str()),
            number_of(seats.as_str()),
        ),
        _ => None,
    }
}

fn wanted_of(port: Option<u32>, connections: Option<u32>, seats: Option<u32>) -> Option<Wanted>
    ensures wanted { result ≡ wanted_of port connections seats }
    ensures seats { IfSome result (λ wanted. (1 ≤ wanted.seats) × (wanted.seats ≤ 32)) }
{
    match (port, connections, seats) {
        (Some(port), Some(connections), Some(seats)) => in_range(port, connections, seats),
        _ => None,
    }
}

/// What these numbers ask for, if they are within the limits.
fn in_range(port: u32, connections: u32, seats: u32) -> Option<Wanted>
    ensures wanted { result ≡ in_range port connections seats }
    ensures seats { IfSome result (λ wanted. (1 ≤ wanted.seats) × (wanted.seats ≤ 32)) }
{
    if port <= 65535 && connections <= 1_000_000 && seats <= 32 && 1 <= seats && 1 <= port {
        return Some(Wanted {
            port: port as u16,
            connections,
            seats,
        });
    }
    None
}

/// The number that the word is.
fn number_of(word: &str) -> Option<u32>
    ensures { result ≡ number_of word.now }
{
    match word.as_bytes() {
        [] => None,
        [b'0', ..] => None,
        digits => all_of(digits),
    }
}

/// The number that the digits make.
fn all_of(digits: &[u8]) -> Option<u32>
    ensures { result ≡ all_behind 0 digits.now }
{
    let mut n = 0;
    for byte in digits {
        n = behind(n, *byte)?;
    }
    Some(n)
}

/// The number with one digit more, if it has at most nine.
fn behind(n: u32, byte: u8) -> Option<u32>
    ensures { result ≡ behind n byte }
{
    if b'0' <= byte && byte <= b'9' && n <= 99_999_999 {
        return Some(n * 10 + u32::from(byte - b'0'));
    }
    None
}
