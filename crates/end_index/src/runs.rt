//! Taking from sorted paths those whose keys agree with what is asked for, run by run, and share by share.
ghost use Rattle.std.specs.{Prelude.{◌≡◌, ℕ, ◌+◌, ◌<◌, ◌≤◌, List, [], ◌∷◌, ◌^◌, length, take, drop, All, MatchOption, IfSome}, List.{prefix_len}, List.Sorted.{IsPartitionedBy}};
ghost use Rattle.partial_path.specs.{Keys.{asked_texts, key_size}, Marks.{end_key}};
ghost use Rattle.end_index.specs.{declared.place.EndPlace.{EndPlace}, Runs.{AreByRank, first_at, here, is_before_run, run, runs_behind, runs_left, shares_left}};

use crate::place::EndPlace;
use partial_path::{KEY_SIZE, end_key, with_symbol};
use stacks_vars::{Listed, SymPat};

/// Where a look-up in an index stands.
#[derive(Clone, Copy, Debug)]
pub struct EndRuns {
    /// The number of the share in which it stands.
    pub share: usize,
    /// How many of the symbols that are asked for the paths of the present run make, and the mark of these.
    pub asked: usize,
    pub mark: u64,
    /// The key of the paths of that run.
    pub key: u32,
    /// The place of the path that comes next, where it is still one of the run.
    pub place: usize,
}

/// The first of these symbols, as many as a key tells.
pub(crate) fn first_symbols(symbols: &[SymPat]) -> &[SymPat]
    ensures first { result.now ≡ take key_size symbols.now }
    ensures few { length result.now ≤ key_size }
{
    &symbols[..symbols.len().min(KEY_SIZE)]
}

/// The path that comes next, and where the look-up stands after it; None where there is no more. The paths of each share
/// are in order.
pub(crate) fn next_place(
    shares: &[Listed<EndPlace>],
    symbols: &[SymPat],
    at: EndRuns,
) -> Option<(EndPlace, EndRuns)>
    requires order { All AreByRank shares.now }
    requires few { length symbols.now ≤ key_size }
    ensures { MatchOption result (shares_left (asked_texts symbols.now) at shares.now ≡ [])
        (λ found. shares_left (asked_texts symbols.now) at shares.now
        ≡ found.0 ∷ shares_left (asked_texts symbols.now) found.1 shares.now) }
{
    let mut at = at;
    while at.share < shares.len() {
        if let Some(found) = next_in_share(shares[at.share].items(), symbols, at) {
            return Some(found);
        }
        at = before_runs(at.share + 1);
    }
    None
}

/// Before the first path of the share, whatever is asked for.
pub(crate) fn before_runs(share: usize) -> EndRuns
    ensures { result ≡ first_at share }
{
    EndRuns {
        share,
        asked: 0,
        mark: 0,
        key: 0,
        place: 0,
    }
}

/// Behind the last path of all shares.
pub(crate) fn behind_runs(shares: &[Listed<EndPlace>]) -> EndRuns
    ensures { (asked : List (List ℕ)) → shares_left asked result shares.now ≡ [] }
{
    before_runs(shares.len())
}

/// The path of the share in which the look-up stands that comes next, and where the look-up stands after it; None where the
/// share has no more.
fn next_in_share(
    places: &[EndPlace],
    symbols: &[SymPat],
    at: EndRuns,
) -> Option<(EndPlace, EndRuns)>
    requires order { AreByRank places.now }
    requires few { length symbols.now ≤ key_size }
    ensures next { MatchOption result (runs_left (asked_texts symbols.now) at places.now ≡ [])
        (λ found. runs_left (asked_texts symbols.now) at places.now
        ≡ found.0 ∷ runs_left (asked_texts symbols.now) found.1 places.now) }
    ensures share { IfSome result (λ found. found.1.share ≡ at.share) }
{
    match next_here(places, at) {
        Some(place) => Some((place, stepped(at))),
        None => next_run(places, symbols, at),
    }
}

/// The look-up behind the next path of the present run.
fn stepped(at: EndRuns) -> EndRuns
    requires { at.place + 1 < 2 ^ 64 }
    ensures { result ≡ record at { place = at.place + 1 } }
{
    EndRuns {
        place: at.place + 1,
        ..at
    }
}

/// The next path of the present run; None where that run is at its end.
fn next_here(places: &[EndPlace], at: EndRuns) -> Option<EndPlace>
    ensures value { MatchOption result (here at places.now ≡ [])
        (λ place. here at places.now
        ≡ place ∷ here (record at { place = at.place + 1 }) places.now) }
    ensures inside { IfSome result (λ _. at.place + 1 < 2 ^ 64) }
{
    if at.place >= places.len() {
        return None;
    }
    let place = places[at.place];
    if place.key == at.key {
        Some(place)
    } else {
        None
    }
}

/// The first path of the runs to come, and where the look-up stands after it; None where they have none.
fn next_run(places: &[EndPlace], symbols: &[SymPat], at: EndRuns) -> Option<(EndPlace, EndRuns)>
    requires order { AreByRank places.now }
    requires few { length symbols.now ≤ key_size }
    ensures next { MatchOption result
        (runs_behind at.mark at.asked (drop at.asked (asked_texts symbols.now)) places.now ≡ [])
        (λ found. runs_behind at.mark at.asked (drop at.asked (asked_texts symbols.now)) places.now
        ≡ found.0 ∷ runs_left (asked_texts symbols.now) found.1 places.now) }
    ensures share { IfSome result (λ found. found.1.share ≡ at.share) }
{
    let mut mark = at.mark;
    for asked in at.asked..symbols.len() {
        mark = with_symbol(mark, &symbols[asked].symbol);
        let run = run_of(places, at.share, mark, asked + 1);
        if let Some(place) = next_here(places, run) {
            return Some((place, stepped(run)));
        }
    }
    None
}

/// Before the paths of the share that make so many symbols of that mark, which are found by halving.
fn run_of(places: &[EndPlace], share: usize, mark: u64, asked: usize) -> EndRuns
    requires order { AreByRank places.now }
    requires few { asked ≤ key_size }
    ensures run { here result places.now ≡ run (end_key mark asked) places.now }
    ensures mark { result.mark ≡ mark }
    ensures asked { result.asked ≡ asked }
    ensures share { result.share ≡ share }
{
    let key = end_key(mark, asked as u32);
    EndRuns {
        share,
        asked,
        mark,
        key,
        place: count_before(places, key),
    }
}

/// How many of the paths stand before those of the key.
fn count_before(places: &[EndPlace], key: u32) -> usize
    requires { IsPartitionedBy (is_before_run key) places.now }
    ensures { result ≡ prefix_len (is_before_run key) places.now }
{
    places.partition_point(|place| place.key < key)
}
