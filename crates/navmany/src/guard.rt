//! What is noted of the input of a socket, which a browser can reach too: a page may post a text to a port of its own
//! machine. So input that begins as a request of the Hypertext Transfer Protocol (RFC 9112, section 3) isn't handed on.

use nav_io::{Cut, LINE_MAX};

/// How many lines a session answers.
const MOST_LINES: u32 = 1_000_000;

/// The methods of requests, each as far as it tells a request from a line that a session answers.
const METHODS: [&[u8]; 9] = [
    b"GET ", b"POST", b"PUT ", b"HEAD", b"OPTIONS", b"DELETE", b"PATCH", b"CONNECT", b"TRACE",
];

/// How far the first bytes tell what the input is.
#[derive(Clone, Copy, Debug, PartialEq, Eq)]
pub enum Opening {
    /// More of them are needed.
    Unclear,
    /// It is no request.
    Lines,
    /// It is a request.
    Request,
}

/// What these first bytes tell.
pub fn opening_of(first: &[u8]) -> Opening {
    if METHODS.iter().any(|method| first.starts_with(*method)) {
        return Opening::Request;
    }
    if METHODS.iter().any(|method| method.starts_with(first)) {
        return Opening::Unclear;
    }
    Opening::Lines
}

/// Lines that have ended, the bytes behind the last one, and the bytes of the longest.
#[derive(Clone, Copy, Debug, PartialEq, Eq)]
pub struct Lines {
    ended: u32,
    in_line: usize,
    longest: usize,
}

impl Lines {
    /// Those of no input.
    pub fn none() -> Lines {
        Lines {
            ended: 0,
            in_line: 0,
            longest: 0,
        }
    }

    /// Counts the bytes and the lines that they end.
    pub fn count(&mut self, bytes: &[u8]) {
        for byte in bytes {
            if *byte == b'\n' {
                self.ended = self.ended.saturating_add(1);
                self.in_line = 0;
            } else {
                self.in_line = self.in_line.saturating_add(1);
                self.longest = self.longest.max(self.in_line);
            }
        }
    }

    /// Why a session ends early over them; None where they give it no cause.
    pub fn cut(&self) -> Option<Cut> {
        if self.longest > LINE_MAX {
            return Some(Cut::LongLine);
        }
        if self.ended > MOST_LINES || self.ended == MOST_LINES && self.in_line > 0 {
            return Some(Cut::ManyLines);
        }
        None
    }
}
