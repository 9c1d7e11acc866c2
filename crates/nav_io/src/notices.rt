//! What a house tells whoever runs it, beside what its doors serve.
use std::{fmt, io};

/// Why a connection ended early.
#[derive(Clone, Copy, Debug, PartialEq, Eq)]
pub enum Cut {
    /// Its first bytes begin a request of the Hypertext Transfer Protocol; nothing of it was answered.
    Request,
    /// One of its lines has more than 8,388,608 bytes.
    LongLine,
    /// More input stands behind 1,000,000 lines.
    ManyLines,
}

impl fmt::Display for Cut {
    fn fmt<W: fmt::Write>(&self, f: &mut fmt::Formatter<W>) -> fmt::Result {
        f.write_str(match self {
            Cut::Request => "it began as an HTTP request, of which nothing was carried out",
            Cut::LongLine => "a line has more than 8388608 bytes",
            Cut::ManyLines => "1000000 lines were answered, and more input stands behind them",
        })
    }
}

/// Where a house and its doors tell what an operator wants to know. Doors of several threads tell it side by side.
pub trait Notices {
    /// So many doors wait for connections at that port of 127.0.0.1.
    fn listens(&self, port: u16, doors: u32);

    /// The system refused to listen at the port, or to give one more door a handle of it.
    fn refused_port(&self, port: u16, error: &io::Error);

    /// The system refused the door its next connection. Doors count from 1.
    fn refused_connection(&self, door: u32, error: &io::Error);

    /// A connection of the door ended early. Doors count from 1.
    fn cut(&self, door: u32, cut: Cut);
}

/// Notices that nobody reads.
#[derive(Clone, Copy, Debug, PartialEq, Eq)]
pub struct NoNotices;

impl Notices for NoNotices {
    fn listens(&self, _port: u16, _doors: u32) {}

    fn refused_port(&self, _port: u16, _error: &io::Error) {}

    fn refused_connection(&self, _door: u32, _error: &io::Error) {}

    fn cut(&self, _door: u32, _cut: Cut) {}
}
