use std::fmt;

/// Why parts make no partial path.
#[derive(Clone, Copy, Debug, PartialEq, Eq)]
pub enum PathFault {
    /// The postcondition names a variable at this place, where the precondition has no symbol with
    /// attached scopes; the first such place, symbols before the scope stack.
    BadTail(u32),
    /// The peak is below the number of symbols of the precondition or of the postcondition.
    PeakLow,
}

impl fmt::Display for PathFault {
    fn fmt<W: fmt::Write>(&self, f: &mut fmt::Formatter<W>) -> fmt::Result {
        match self {
            PathFault::BadTail(place) => write!(
                f,
                "place {place} names a scope stack that isn't there"
            ),
            PathFault::PeakLow => f.write_str("the peak is below a number of symbols"),
        }
    }
}
