//! The rows of several answers as one list, each node once in file order.
#![tactic(auto)]

ghost use Rattle.std.specs.{Prelude.{◌≡◌}, Ordering.{is_eq}};
ghost use Rattle.row_sets.specs.Rows.{AreInOrder, place_cmp};

use std::cmp::Ordering;
use version_tree::Row;

/// The rows in file order, each node once. They are sorted, so it takes a number of comparisons that grows as n log n
/// with the number of rows, and no memory.
pub fn in_order(rows: Vec<Row>) -> Vec<Row>
    ensures { AreInOrder rows.items result.items }
{
    let mut rows = rows;
    rows.sort_unstable_by(|a, b| place_cmp(a, b));
    rows.dedup_by(|row, last| is_same(row, last));
    rows
}

/// Which of two rows comes first.
fn place_cmp(a: &Row, b: &Row) -> Ordering
    ensures { result ≡ place_cmp a.now b.now }
{
    match a.path.as_str().cmp(b.path.as_str()) {
        Ordering::Equal => a.node.cmp(&b.node),
        other => other,
    }
}

/// Whether the rows are of one node.
fn is_same(a: &Row, b: &Row) -> bool
    ensures { result ≡ is_eq (place_cmp a.now b.now) }
{
    place_cmp(a, b) == Ordering::Equal
}
