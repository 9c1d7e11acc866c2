ghost use Rattle.std.specs.{Prelude.{◌≡◌, ◌≢◌, ◌↔◌, ◌≤◌, ℕ, List, None, Some}, List.{AllByRecursion}};
ghost use Rattle.partial_path.specs.PathSets.{FileRules};
ghost use Rattle.path_store.specs.{Documents.{Doc}, Store.{Kept, find_doc, AreDistinct, StandsIn, cost_of, swept, IsEndOf}};

/// A law of finding. What is found are the paths of a pair that is kept of this document; each pair
/// that is kept is found, where no two are of the same document; nothing is found exactly where each
/// pair is of another document.
pub fn what_is_kept_is_found()
    ensures found { (doc : Doc) (paths : FileRules) (ks : List Kept) → find_doc doc ks ≡ Some paths
        → StandsIn doc paths ks }
    ensures kept { (doc : Doc) (paths : FileRules) (ks : List Kept) → AreDistinct ks
        → StandsIn doc paths ks → find_doc doc ks ≡ Some paths }
    ensures absent { (doc : Doc) (ks : List Kept) → (find_doc doc ks ≡ None)
        ↔ AllByRecursion (λ k. k.doc ≢ doc) ks }
{}

/// A law of sweeping: what is left costs no more than the limit, and are the newest pairs.
pub fn a_sweep_leaves_the_newest()
    ensures fits { (limit : ℕ) (ks : List Kept) → cost_of (swept limit ks) ≤ limit }
    ensures newest { (limit : ℕ) (ks : List Kept) → IsEndOf (swept limit ks) ks }
{}
