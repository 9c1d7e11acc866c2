//! What an operator is told on standard error.
use nav_io::Cut;
use std::io;

/// Standard error. A line that can't be written is left out.
#[derive(Drop)]
pub struct Told<'r> {
    pub rt: &'r HostRuntime,
}

impl<'r> Told<'r> {
    /// Clients may arrive at that port.
    pub fn listens(&self, port: u16) {
        let rt = self.rt;
        let _ = eprintln!(rt; "navmany: listening at 127.0.0.1:{port}");
    }

    /// The system refused to listen at the port.
    pub fn refused_port(&self, port: u16, error: &io::Error) {
        let rt = self.rt;
        let _ = eprintln!(rt; "navmany: can't listen at 127.0.0.1:{port}: {error}");
    }

    /// The system refused the next connection.
    pub fn refused_connection(&self, error: &io::Error) {
        let rt = self.rt;
        let _ = eprintln!(rt; "navmany: ends, since it can't accept a connection: {error}");
    }

    /// The system refused to wait for clients.
    pub fn refused_waiting(&self, error: &io::Error) {
        let rt = self.rt;
        let _ = eprintln!(rt; "navmany: ends, since it can't wait for its clients: {error}");
    }

    /// A connection ended early.
    pub fn cut(&self, cut: Cut) {
        let rt = self.rt;
        let _ = eprintln!(rt; "navmany: a connection was ended: {cut}");
    }
}
