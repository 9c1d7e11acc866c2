//! The paths of a file: as they are kept, and some of them lent.
use crate::path::PartialPath;
use crate::path_row::PathRow;
use crate::pools::{Pools, pools_for, put_path};
use crate::stored::StoredPath;
use std::alloc::{AllocError, Global};
use std::marker::Model;

/// Paths of a file that stand one behind the other, lent. A contract sees their list.
#[derive(Drop)]
pub struct StoredPaths<'a> {
    pools: &'a Pools,
    rows: &'a [PathRow],
}

impl<'a> Model for StoredPaths<'a> {
    ghost use Rattle.std.specs.Prelude.{List, All};
    ghost use Rattle.partial_path.specs.{Rules.{Rule}, Pooled.{rules_in, IsRowIn}};

    ghost Value = { List Rule };

    ghost view = { λ s. rules_in s.pools.now s.rows.now };

    ghost invariant = { λ s. All (IsRowIn s.pools.now) s.rows.now };
}

impl<'a> StoredPaths<'a> {
    ghost use Rattle.std.specs.Prelude.{◌≡◌, ◌≤◌, ◌<◌, ◌-◌, ◌↔◌, [], length, take, drop, slice_get, slice_index_or, Some, IsTrue};
    ghost use Rattle.partial_path.specs.Rules.{IsRule};

    /// How many there are.
    pub fn len(&self) -> usize
        ensures { result ≡ length self.now }
    {
        self.rows.len()
    }

    /// Whether there are none.
    pub fn is_empty(&self) -> bool
        ensures { IsTrue result ↔ (self.now ≡ []) }
    {
        self.rows.is_empty()
    }

    /// The path at that place. It takes constant time.
    pub fn at(&self, place: usize) -> StoredPath<'a>
        requires { place < length self.now }
        ensures get { slice_get self.now place ≡ Some result }
        ensures is { result ≡ slice_index_or self.now place result }
        ensures rule { IsRule result }
    {
        StoredPath::of(self.pools, &self.rows[place])
    }

    /// The path at that place; None behind their end.
    pub fn get(&self, place: usize) -> Option<StoredPath<'a>>
        ensures { result ≡ slice_get self.now place }
    {
        if place < self.rows.len() {
            Some(self.at(place))
        } else {
            None
        }
    }

    /// The paths between those two places.
    pub fn between(&self, low: usize, high: usize) -> StoredPaths<'a>
        requires { (low ≤ high) × (high ≤ length self.now) }
        ensures value { result ≡ take (high - low) (drop low self.now) }
        ensures len { length result ≡ high - low }
    {
        StoredPaths {
            pools: self.pools,
            rows: &self.rows[low..high],
        }
    }
}

/// The paths that a file keeps: a row for each, and their parts in pools.
#[derive(Debug, Drop)]
pub struct KeptPaths {
    pools: Pools,
    rows: Vec<PathRow>,
}

impl Model for KeptPaths {
    ghost use Rattle.std.specs.Prelude.{List, All};
    ghost use Rattle.partial_path.specs.{Rules.{Rule}, Pooled.{rules_in, IsRowIn}};

    ghost Value = { List Rule };

    ghost view = { λ k. rules_in k.pools k.rows.items };

    ghost invariant = { λ k. All (IsRowIn k.pools) k.rows.items };
}

impl KeptPaths {
    ghost use Rattle.std.specs.Prelude.{◌≡◌, All, IfOk};
    ghost use Rattle.partial_path.specs.FileNumbers.{IsOfFileZero};

    /// These paths of file 0, in their order. It takes room for them once, and no more than they need. The one
    /// error is want of memory, or of numbers: for so many parts, or as a row has them for one path's nodes, parts and
    /// peak.
    pub fn of(alloc: Global, paths: Vec<PartialPath>) -> Result<KeptPaths, AllocError>
        requires { All IsOfFileZero paths.items }
        ensures { IfOk result (λ kept. kept ≡ paths.items) }
    {
        let mut pools = pools_for(alloc, paths.as_slice())?;
        let mut rows = Vec::with_capacity(alloc, paths.len())?;
        for path in paths {
            let row = put_path(&mut pools, path)?;
            rows.push(row)?;
        }
        Ok(KeptPaths { pools, rows })
    }

    /// All of them, lent.
    pub fn lent(&self) -> StoredPaths<'_>
        ensures { result ≡ self.now }
    {
        StoredPaths {
            pools: &self.pools,
            rows: self.rows.as_slice(),
        }
    }
}
