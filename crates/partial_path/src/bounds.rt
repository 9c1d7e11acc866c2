ghost use Rattle.std.specs.Prelude.{◌≡◌};

/// How many bounded counted runs a reference may have before it is crowded.
pub const MAX_RUNS: usize = 8_192;

/// How long and how deep a run may be: at most so many edges, and nowhere more than so many symbols.
#[derive(Clone, Copy, Debug, PartialEq, Eq)]
pub struct Bounds {
    pub edges: u32,
    pub depth: u32,
}

impl Bounds {
    /// The bounds of a query that states none: 128 edges and 48 symbols.
    pub fn usual() -> Bounds
        ensures edges { result.edges ≡ 128 }
        ensures depth { result.depth ≡ 48 }
    {
        Bounds {
            edges: 128,
            depth: 48,
        }
    }
}
