//! What an operator of `navd serve` is told on standard error while it serves.
use nav_io::{Cut, Notices};
use std::io;

/// Standard error, for notices of doors that several threads may serve. A line that can't be written is left out.
#[derive(Drop)]
pub struct Told<'r> {
    pub rt: &'r HostRuntime,
}

impl<'r> Notices for Told<'r> {
    fn listens(&self, port: u16, doors: u32) {
        let rt = self.rt;
        let _ = eprintln!(rt; "navd: listening at 127.0.0.1:{port}, doors: {doors}");
    }

    fn refused_port(&self, port: u16, error: &io::Error) {
        let rt = self.rt;
        let _ = eprintln!(rt; "navd: can't listen at 127.0.0.1:{port}: {error}");
    }

    fn refused_connection(&self, door: u32, error: &io::Error) {
        let rt = self.rt;
        let _ = eprintln!(rt;
            "navd: door {door} ended, since it can't accept a connection: {error}"
        );
    }

    fn cut(&self, door: u32, cut: Cut) {
        let rt = self.rt;
        let _ = eprintln!(rt; "navd: a connection of door {door} was ended: {cut}");
    }
}
