ghost use Rattle.std.specs.Prelude.{◌≡◌, ◌≢◌, ◌↔◌, ◌⊎◌, List, true};
ghost use Rattle.grants.specs.Pairs.{Pair, has_pair, with_pair, without_pair};

/// A law of sets: one with a pair has that pair and what it had; one without a pair has all that it
/// had but that pair.
pub fn a_pair_comes_and_goes()
    ensures comes { (p q : Pair) (ps : List Pair)
        → (has_pair q (with_pair p ps) ≡ true) ↔ ((q ≡ p) ⊎ (has_pair q ps ≡ true)) }
    ensures goes { (p q : Pair) (ps : List Pair)
        → (has_pair q (without_pair p ps) ≡ true) ↔ ((q ≢ p) × (has_pair q ps ≡ true)) }
{}
