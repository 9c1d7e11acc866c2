//! A stored path in front of another one, with no copy of it in between.
ghost use Rattle.std.specs.{Prelude.{◌≡◌, ◌++◌, ◌+◌, ◌≤◌, ◌<◌, ◌^◌, length, map, IfOk, IfSome, IsTrue, Some, None}, List.{list_all}};
ghost use Rattle.partial_path.specs.{Rules.{Rule, IsRule, start_spot}, Moved.{moved, moved_edge}, FileNumbers.{CanMove}};
ghost use Rattle.path_join.specs.{Joins.{IsJoin, NonePasses, joined_peak}, Joining.{asked_symbols, join_rules}, Units.{asks}, Plain.{IsPlainBack, IsPlainFront, ends_there, is_plain_out, is_plain_pat, meets}};

use crate::copying::add_pats;
use crate::entering::{any_scopes, makes};
use crate::joining::{join, peak_of};
use crate::known::rest;
use crate::meeting::start_spot;
use partial_path::{EdgeAt, End, PartialPath, Spot, StoredPath};
use stacks_vars::{Listed, Pre, SymOut, SymPat, Tail};
use std::alloc::{AllocError, Global};

/// The join of a stored path, moved to the file with that number, and another path, as `join` has it. The one error is
/// want of memory. Where the two name no scopes on their stacks, as most paths, nothing of the stored one is copied but
/// what the joined one has of it: that takes half of the time.
pub fn join_stored(
    alloc: Global,
    file: u32,
    p: &StoredPath<'_>,
    q: &PartialPath,
) -> Result<Option<PartialPath>, AllocError>
    requires moves { CanMove file p.now }
    requires edges { length (moved file p.now).edges + length q.now.edges < 2 ^ 32 }
    requires peak { joined_peak (moved file p.now) q.now < 2 ^ 32 }
    ensures joined { IfOk result (λ found. IfSome found (IsJoin (moved file p.now) q.now)) }
    ensures none { IfOk result (λ found. found ≡ None → NonePasses (moved file p.now) q.now) }
{
    if is_plain_front(p) && is_plain_back(q) && p.made().len() <= q.pre().symbols.len() {
        return joined_plainly(alloc, file, p, q);
    }
    let moved = p.moved(alloc, file)?;
    join(alloc, &moved, q)
}

/// Whether the path can be the first of two plain ones.
fn is_plain_front(p: &StoredPath<'_>) -> bool
    ensures { IsTrue result → IsPlainFront p.now }
{
    matches!(p.end(), End::At(_))
        && p.fixed().is_empty()
        && p.scopes().is_empty()
        && matches!(p.tail(), Tail::Front)
        && are_plain_pats(p.asked())
        && are_plain_outs(p.made())
}

/// Whether the path can be the second.
fn is_plain_back(q: &PartialPath) -> bool
    ensures { IsTrue result → IsPlainBack q.now }
{
    q.post().symbols.is_empty()
        && q.pre().scopes.fixed.is_empty()
        && q.post().scopes.scopes.is_empty()
        && matches!(q.post().scopes.tail, Tail::Front)
        && are_plain_pats(q.pre().symbols.items())
}

/// Whether no scopes are attached to the symbols that are asked for.
fn are_plain_pats(pats: &[SymPat]) -> bool
    ensures { result ≡ list_all is_plain_pat pats.now }
{
    pats.iter().all(|pat| pat.scopes.is_none())
}

/// The same of symbols that are made.
fn are_plain_outs(outs: &[SymOut]) -> bool
    ensures { result ≡ list_all is_plain_out outs.now }
{
    outs.iter().all(|out| out.scopes.is_none())
}

/// The join of two plain paths.
fn joined_plainly(
    alloc: Global,
    file: u32,
    p: &StoredPath<'_>,
    q: &PartialPath,
) -> Result<Option<PartialPath>, AllocError>
    requires front { IsPlainFront p.now }
    requires back { IsPlainBack q.now }
    requires enough { length p.now.post.symbols ≤ length q.now.pre.symbols }
    requires moves { CanMove file p.now }
    requires edges { length (moved file p.now).edges + length q.now.edges < 2 ^ 32 }
    requires peak { joined_peak (moved file p.now) q.now < 2 ^ 32 }
    ensures joined { IfOk result (λ found. IfSome found (IsJoin (moved file p.now) q.now)) }
    ensures none { IfOk result (λ found. found ≡ None → NonePasses (moved file p.now) q.now) }
{
    let (start, end) = p.moved_ends(file);
    // The start tells that the path is a rule.
    let there = start_spot(q.start());
    if !ends_there(end, there) || !meets(q.pre().symbols.items(), p.made()) {
        return Ok(None);
    }
    let pre = plain_pre(alloc, p, q)?;
    let post = makes(alloc, Vec::new(alloc), Tail::Front);
    let peak = peak_of(p.peak(), p.made().len(), q.pre().symbols.len(), q.peak());
    let edges = plain_edges(alloc, file, p, q.edges())?;
    Ok(Some(PartialPath::of(start, q.end(), pre, post, peak, edges)))
}

/// Whether a path with this end ends there.
fn ends_there(end: End, there: Spot) -> bool
    ensures { result ≡ ends_there end there }
{
    match end {
        End::At(spot) => spot.same(there),
        End::ByStack => false,
    }
}

/// Whether what is asked for and what is made have the same texts, as far as both go.
fn meets(pats: &[SymPat], outs: &[SymOut]) -> bool
    ensures { result ≡ meets pats.now outs.now }
{
    for i in 0..pats.len().min(outs.len()) {
        if !pats[i].symbol.same(&outs[i].symbol) {
            return false;
        }
    }
    true
}

/// What the joined path asks for: what the first does, and what the second does beyond what the first makes. The one
/// error is want of memory.
fn plain_pre(alloc: Global, p: &StoredPath<'_>, q: &PartialPath) -> Result<Pre, AllocError>
    ensures { IfOk result
        (λ pre. pre ≡ asks (p.now.pre.symbols ++ asked_symbols p.now q.now)) }
{
    let own = p.asked();
    let more = rest(q.pre().symbols.items(), p.made().len());
    let mut symbols = Vec::with_capacity(alloc, own.len().saturating_add(more.len()))?;
    add_pats(alloc, &mut symbols, own)?;
    add_pats(alloc, &mut symbols, more)?;
    Ok(Pre {
        symbols: Listed::of(symbols),
        scopes: any_scopes(alloc),
    })
}

/// The edges of the first path, moved, and then those of the second. The one error is want of memory.
fn plain_edges(
    alloc: Global,
    file: u32,
    p: &StoredPath<'_>,
    behind: &[EdgeAt],
) -> Result<Vec<EdgeAt>, AllocError>
    ensures { IfOk result
        (λ edges. edges.items ≡ map (moved_edge file) p.now.edges ++ behind.now) }
{
    let mut edges = p.moved_edges(alloc, file, behind.len())?;
    edges.extend_from_slice(behind)?;
    Ok(edges)
}
