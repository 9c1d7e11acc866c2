//! A path of an index: the key of what it makes, and where it stands.
ghost use Rattle.std.specs.Prelude.{◌≡◌};
ghost use Rattle.end_index.specs.Runs.{rank, rank_cmp};

use std::cmp::Ordering;

/// A path of an index, in 12 bytes: the key of the first symbols that it makes, the number of its file, and its place among
/// the file's paths.
#[derive(Clone, Copy, Debug)]
pub struct EndPlace {
    pub key: u32,
    pub file: u32,
    pub place: u32,
}

/// How a path stands to another: by the key, then by file, and by place.
pub(crate) fn order(a: &EndPlace, b: &EndPlace) -> Ordering
    ensures { result ≡ rank_cmp (rank a.now) (rank b.now) }
{
    match a.key.cmp(&b.key) {
        Ordering::Less => Ordering::Less,
        Ordering::Equal => order_in_run(a, b),
        Ordering::Greater => Ordering::Greater,
    }
}

ghost use Rattle.std.specs.Ordering.{nat_cmp, ordering_then};

/// How a path stands to another of the same key.
fn order_in_run(a: &EndPlace, b: &EndPlace) -> Ordering
    ensures { result
        ≡ ordering_then (nat_cmp a.now.file b.now.file) (nat_cmp a.now.place b.now.place) }
{
    match a.file.cmp(&b.file) {
        Ordering::Less => Ordering::Less,
        Ordering::Equal => a.place.cmp(&b.place),
        Ordering::Greater => Ordering::Greater,
    }
}
