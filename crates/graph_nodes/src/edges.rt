use std::marker::Model;

/// The positions of edges, one after the other. A contract sees it as the list of those that are left.
#[derive(Debug, Drop)]
pub struct EdgeIter<'a> {
    left: &'a [u32],
}

impl<'a> Model for EdgeIter<'a> {
    ghost use Rattle.std.specs.Prelude.{ℕ, List};

    ghost Value = { List ℕ };

    ghost view = { λ i. i.left.now };
}

impl<'a> EdgeIter<'a> {
    ghost use Rattle.std.specs.Prelude.{◌≡◌};

    /// Over these positions.
    pub(crate) fn over(left: &'a [u32]) -> EdgeIter<'a>
        ensures { result ≡ left.now }
    {
        EdgeIter { left }
    }
}

impl<'a> Iterator for EdgeIter<'a> {
    ghost use Rattle.std.specs.Iterator.{YieldsFirst, item_count};

    type Item = u32;

    ghost next_gives = { YieldsFirst (λ s. s) };

    ghost remaining = { item_count (λ s. s) };

    fn next(&mut self) -> Option<u32> {
        let left = self.left;
        if left.is_empty() {
            return None;
        }
        self.left = &left[1..];
        Some(left[0])
    }
}
