use crate::row_handle::RowHandle;
use grants::Grants;
use std::alloc::{AllocError, Global};
use std::marker::Model;

/// The user that sees every path.
const OPERATOR: &str = "operator";

/// Rows in the order of their paths. A contract sees them as a list.
#[derive(Drop)]
pub(crate) struct SortedRows {
    rows: Vec<RowHandle>,
}

impl Model for SortedRows {
    ghost use Rattle.std.specs.Prelude.{List};
    ghost use Rattle.version_tree.specs.Contents.{FileRow, AreRows};

    ghost Value = { List FileRow };

    ghost view = { λ s. s.rows.items };

    ghost invariant = { λ s. AreRows s.rows.items };
}

impl SortedRows {
    ghost use Rattle.std.specs.Prelude.{◌≡◌, ◌<◌, ◌≤◌, ◌+◌, ◌++◌, [], length, take, drop, slice_get, Some, IfOk, IfErr, IsTrue, OnOk, OnErr, MatchOption, false};
    ghost use Rattle.version_tree.specs.{Contents.{FileRow, AreRows, has_path, with_row, without_row, covered}, Verdict.{weight_of}, Places.{beside, IsRowWith}};
    ghost use Rattle.partial_path.specs.PathSets.{FileRules};
    ghost use Rattle.list_facts.specs.Places.{IsAt, IsGapFor};

    /// No rows. It takes no memory.
    pub(crate) fn new(alloc: Global) -> SortedRows
        ensures { result ≡ [] }
    {
        SortedRows {
            rows: Vec::new(alloc),
        }
    }

    /// These rows.
    pub(crate) fn of(rows: Vec<RowHandle>) -> SortedRows
        requires { AreRows rows.items }
        ensures { result ≡ rows.items }
    {
        SortedRows { rows }
    }

    /// How many rows there are.
    pub(crate) fn len(&self) -> usize
        ensures count { result ≡ length self.now }
        ensures rows { AreRows self.now }
    {
        self.rows.len()
    }

    /// The row at that place.
    pub(crate) fn row(&self, i: usize) -> &RowHandle
        requires { i < length self.now }
        ensures { slice_get self.now i ≡ Some result.now }
    {
        &self.rows[i]
    }

    /// Where the row with the path is, or where it would go, by halving.
    pub(crate) fn find(&self, path: &str) -> Result<usize, usize>
        ensures found { IfOk result (IsAt (beside path.now) self.now) }
        ensures absent { IfErr result (IsGapFor (beside path.now) self.now) }
        ensures rows { AreRows self.now }
    {
        self.rows.binary_search_by(|row| row.order(path))
    }

    /// Whether a row has the path, by halving.
    pub(crate) fn has(&self, path: &str) -> bool
        ensures { result ≡ has_path path.now self.now }
    {
        self.find(path).is_ok()
    }

    /// The row with the path, by halving; None where there is none.
    pub(crate) fn row_with(&self, path: &str) -> Option<&RowHandle>
        ensures { MatchOption result (has_path path.now self.now ≡ false)
            (λ row. IsRowWith path.now self.now row.now) }
    {
        match self.find(path) {
            Ok(i) => Some(&self.rows[i]),
            Err(_) => None,
        }
    }

    /// Puts the row in, in place of one with its path. The one error is want of memory, and then
    /// nothing has changed.
    pub(crate) fn put(&mut self, row: RowHandle) -> Result<(), AllocError>
        ensures ok { OnOk result (self.new ≡ with_row row.path row.file self.old) }
        ensures err { OnErr result (self.new ≡ self.old) }
    {
        match self.find(row.path()) {
            Ok(i) => {
                self.rows[i] = row;
                Ok(())
            }
            Err(i) => Ok(self.rows.insert(i, row)?),
        }
    }

    /// Takes the row with the path out, where there is one.
    pub(crate) fn remove(&mut self, path: &str)
        ensures { self.new ≡ without_row path.now self.old }
    {
        if let Ok(i) = self.find(path) {
            self.rows.remove(i);
        }
    }

    /// The weight of the row with the path, 0 where there is none.
    pub(crate) fn weight_at(&self, path: &str) -> u64
        ensures without { result + weight_of (without_row path.now self.now) ≡ weight_of self.now }
        ensures with { (file : FileRules) → result + weight_of (with_row path.now file self.now)
            ≡ weight_of self.now + file.weight }
    {
        match self.find(path) {
            Ok(i) => u64::from(self.rows[i].weight()),
            Err(_) => 0,
        }
    }

    /// The first rows, so many, and the others. The one error is want of memory.
    pub(crate) fn split_at(self, at: usize) -> Result<(SortedRows, SortedRows), AllocError>
        requires { at ≤ length self }
        ensures { IfOk result (λ parts. (parts.0 ≡ take at self) × (parts.1 ≡ drop at self)) }
    {
        let SortedRows { mut rows } = self;
        let later = rows.split_off(at)?;
        Ok((SortedRows { rows }, SortedRows { rows: later }))
    }

    /// Whether the user may see all of the rows.
    pub(crate) fn are_covered(&self, grants: &Grants, user: &str) -> bool
        ensures { IsTrue result → covered grants.now user.now self.now ≡ self.now }
    {
        // The operator sees all, whatever the rules, and no path is looked at.
        if user == OPERATOR {
            return true;
        }
        for row in &self.rows {
            if !grants.covers(user, row.path()) {
                return false;
            }
        }
        true
    }

    /// Adds those of the rows that the user may see, in their order. The one error is want of
    /// memory.
    pub(crate) fn grant(
        &self,
        grants: &Grants,
        user: &str,
        kept: &mut Vec<RowHandle>,
    ) -> Result<(), AllocError>
        ensures kept { OnOk result (kept.new.items
            ≡ kept.old.items ++ covered grants.now user.now self.now) }
        ensures rows { AreRows self.now }
    {
        for row in &self.rows {
            if grants.covers(user, row.path()) {
                kept.push(row.share()?)?;
            }
        }
        Ok(())
    }

    /// The same rows once more, not copied. The one error is want of memory.
    pub(crate) fn share(&self, alloc: Global) -> Result<SortedRows, AllocError>
        ensures { IfOk result (λ rows. rows ≡ self.now) }
    {
        let mut rows = Vec::new(alloc);
        for row in &self.rows {
            rows.push(row.share()?)?;
        }
        Ok(SortedRows { rows })
    }
}
