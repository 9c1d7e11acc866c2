//! What a backward search has found.
ghost use Rattle.std.specs.Prelude.{◌≡◌, ◌≤◌, ◌+◌, ◌++◌, ◌&&◌, [], ◌∷◌, Err, IfOk, OnOk};
ghost use Rattle.partial_path.specs.declared.rule.Start.{Start};
ghost use Rattle.back_stitch.specs.{Lists.{most_lists}, Joined.{is_none}, Held.{begun}};

use crate::fault::BackFault;
use crate::kept::MAX_LISTS;
use partial_path::{PartialPath, Start};
use stacks_vars::NodeAt;
use std::alloc::{AllocError, Global};

/// How many back lists were found, and the references that begin one which runs on empty stacks.
#[derive(Debug, Drop)]
pub struct Tally {
    pub count: usize,
    pub rows: Vec<NodeAt>,
}

impl Tally {
    /// Nothing found yet.
    pub fn new(alloc: Global) -> Tally
        ensures count { result.count ≡ 0 }
        ensures rows { result.rows.items ≡ [] }
    {
        Tally {
            count: 0,
            rows: Vec::new(alloc),
        }
    }

    /// Notes a back list, for which the path stands; `Many` where there were as many as there may be.
    pub fn note(&mut self, path: &PartialPath) -> Result<(), BackFault>
        requires { self.old.count ≤ most_lists }
        ensures count { OnOk result (self.new.count ≡ self.old.count + 1) }
        ensures few { OnOk result (self.new.count ≤ most_lists) }
        ensures rows { OnOk result (self.new.rows.items ≡ self.old.rows.items ++ begun path.now) }
        ensures many { result ≡ Err BackFault.Many → self.old.count ≡ most_lists }
    {
        if self.count == MAX_LISTS {
            return Err(BackFault::Many);
        }
        self.count += 1;
        push_begun(&mut self.rows, path)?;
        Ok(())
    }
}

/// Adds the reference that the path begins before, where it asks for nothing.
fn push_begun(rows: &mut Vec<NodeAt>, path: &PartialPath) -> Result<(), AllocError>
    ensures { OnOk result (rows.new.items ≡ rows.old.items ++ begun path.now) }
{
    let Start::Before(reference) = path.start() else {
        return Ok(());
    };
    if asks_nothing(path) {
        rows.push(reference)?;
    }
    Ok(())
}

/// Whether the path runs on empty stacks.
fn asks_nothing(path: &PartialPath) -> bool
    ensures { result ≡ (is_none path.now.pre.symbols && is_none path.now.pre.scopes.fixed) }
{
    path.pre().symbols.is_empty() && path.pre().scopes.fixed.is_empty()
}
