//! How many cases hold, and which differ.
use crate::texts::{first_difference, push_shown};
use std::alloc::{AllocError, Global};

/// How many cases hold, and a line for each that differs.
#[derive(Drop)]
pub struct Tally {
    pub held: u32,
    pub lines: Vec<String>,
}

impl Tally {
    pub fn new(alloc: Global) -> Tally {
        Tally {
            held: 0,
            lines: Vec::new(alloc),
        }
    }

    /// How many cases differ.
    pub fn differing(&self) -> usize {
        self.lines.len()
    }

    /// How many cases there were.
    pub fn cases(&self) -> usize {
        self.lines.len().saturating_add(self.held as usize)
    }

    /// Notes that a case holds.
    pub fn hold(&mut self) {
        self.held = self.held.saturating_add(1);
    }

    /// Notes a case that differs, and why.
    pub fn differ(&mut self, alloc: Global, name: &str, why: &str) -> Result<(), AllocError> {
        let line = format!(in alloc; "{name}: {why}")?;
        Ok(self.lines.push(line)?)
    }

    /// Notes what the row of that name was to give and what came; `case` says at which of its cases.
    pub fn compare(
        &mut self,
        alloc: Global,
        name: &str,
        case: &str,
        wanted: &[u8],
        came: &[u8],
    ) -> Result<(), AllocError> {
        if wanted == came {
            self.hold();
            return Ok(());
        }
        let at = first_difference(wanted, came);
        let mut why = format!(in alloc; "{case} from byte {at} on wanted ")?;
        push_shown(&mut why, wanted, at)?;
        why.push_str(" came ")?;
        push_shown(&mut why, came, at)?;
        self.differ(alloc, name, why.as_str())
    }
}
