ghost use Rattle.std.specs.Prelude.{◌≡◌, ◌++◌, ◌+◌, ◌-◌, ◌<◌, ◌^◌, length, max, IfOk, IfSome, Some, None};
ghost use Rattle.partial_path.specs.Rules.{Rule, IsRule};
ghost use Rattle.path_join.specs.{Joins.{IsJoin, NonePasses, joined_peak}, Joining.{can_end, join_rules, wide_pre}, Tables.{joined_of}};

use crate::filling::put_scopes;
use crate::joint::Joint;
use crate::meeting::{asked_scopes, known_with};
use crate::writing::{joined_pre, joined_symbols};
use partial_path::{EdgeAt, End, PartialPath};
use stacks_vars::{Post, ScopeOut, Tail};
use std::alloc::{AllocError, Global};

/// One path that does what the first and then the second does, on every configuration; None where no
/// configuration passes both. The one error is want of memory. It costs the sizes of the two paths, of
/// what they make together, and of their edges.
pub fn join(
    alloc: Global,
    p: &PartialPath,
    q: &PartialPath,
) -> Result<Option<PartialPath>, AllocError>
    requires edges { length p.now.edges + length q.now.edges < 2 ^ 32 }
    requires peak { joined_peak p.now q.now < 2 ^ 32 }
    ensures joined { IfOk result (λ found. IfSome found (IsJoin p.now q.now)) }
    ensures none { IfOk result (λ found. found ≡ None → NonePasses p.now q.now) }
{
    // Each start tells that its path is a rule.
    let _ = (p.start(), q.start());
    join_as_defined(alloc, p, q)
}

/// The join by its definition.
fn join_as_defined(
    alloc: Global,
    p: &PartialPath,
    q: &PartialPath,
) -> Result<Option<PartialPath>, AllocError>
    requires edges { length p.now.edges + length q.now.edges < 2 ^ 32 }
    requires peak { joined_peak p.now q.now < 2 ^ 32 }
    requires wide { length (wide_pre p.now q.now) < 2 ^ 32 }
    requires rule { (j : Rule) → join_rules p.now q.now ≡ Some j → IsRule j }
    ensures { IfOk result (λ found. found ≡ join_rules p.now q.now) }
{
    let fixed = q.pre().scopes.fixed.items();
    let Some(asked) = asked_scopes(alloc, p.end(), q.start(), fixed)? else {
        return Ok(None);
    };
    let Some(known) = known_with(alloc, p, q, asked.items())? else {
        return Ok(None);
    };
    let joint = Joint {
        first: p,
        second: q,
        asked: asked.items(),
        known: &known,
    };
    joined(alloc, &joint)
}

/// The joined path of two that meet, where it can end.
fn joined(alloc: Global, joint: &Joint) -> Result<Option<PartialPath>, AllocError>
    requires edges { length joint.now.first.edges + length joint.now.second.edges < 2 ^ 32 }
    requires peak { joined_peak joint.now.first joint.now.second < 2 ^ 32 }
    requires rule { (j : Rule) → joined_of joint.now ≡ Some j → IsRule j }
    ensures { IfOk result (λ found. found ≡ joined_of joint.now) }
{
    let (p, q) = (joint.first, joint.second);
    let scopes = put_scopes(alloc, joint, &q.post().scopes)?;
    if !can_end(q.end(), &scopes) {
        return Ok(None);
    }
    let pre = joined_pre(alloc, joint)?;
    let symbols = joined_symbols(alloc, joint)?;
    let post = Post { symbols, scopes };
    let peak = joined_peak(p, q);
    let edges = joined_edges(alloc, p.edges(), q.edges())?;
    Ok(Some(PartialPath::of(p.start(), q.end(), pre, post, peak, edges)))
}

/// The peak of the join: the higher of the first path's, with the symbols that the second asks for beyond
/// what the first makes, and the second's, with those that the first makes beyond what the second asks for.
fn joined_peak(p: &PartialPath, q: &PartialPath) -> u32
    requires { joined_peak p.now q.now < 2 ^ 32 }
    ensures { result ≡ joined_peak p.now q.now }
{
    peak_of(
        p.peak(),
        p.post().symbols.len(),
        q.pre().symbols.len(),
        q.peak(),
    )
}

/// The same by the peak of the first path, how many symbols it makes, how many the second asks for, and its peak.
pub(crate) fn peak_of(first: u32, made: usize, asked: usize, second: u32) -> u32
    requires { max (first + (asked - made)) (second + (made - asked)) < 2 ^ 32 }
    ensures { result ≡ max (first + (asked - made)) (second + (made - asked)) }
{
    let first = first as usize + asked.saturating_sub(made);
    let second = second as usize + made.saturating_sub(asked);
    first.max(second) as u32
}

/// The edges of the first path and then those of the second.
fn joined_edges(alloc: Global, p: &[EdgeAt], q: &[EdgeAt]) -> Result<Vec<EdgeAt>, AllocError>
    requires { length p.now + length q.now < 2 ^ 32 }
    ensures { IfOk result (λ edges. edges.items ≡ p.now ++ q.now) }
{
    let mut edges = Vec::with_capacity(alloc, p.len() + q.len())?;
    edges.extend_from_slice(p)?;
    edges.extend_from_slice(q)?;
    Ok(edges)
}

/// Whether a path with this scope stack can end so: by the stack only where there can be a scope.
pub(crate) fn can_end(end: End, out: &ScopeOut) -> bool
    ensures { result ≡ can_end end out.now }
{
    match end {
        End::At(_) => true,
        End::ByStack => !out.scopes.is_empty() || !matches!(out.tail, Tail::Nil),
    }
}
