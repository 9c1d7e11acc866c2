use crate::config::EdgeAt;
use crate::fault::PathFault;
use crate::rule::{End, Start};
use stacks_vars::{Listed, Post, Pre, SymOut, SymPat, Tail};
use std::marker::Model;

/// What a partial path is made of: its ends, its conditions, its peak and its edges.
#[derive(Debug, Drop)]
pub struct PathParts {
    pub start: Start,
    pub end: End,
    pub pre: Pre,
    pub post: Post,
    /// The greatest number of symbols on the way, less those that the path leaves as they are.
    pub peak: u32,
    /// The edges that the path stands for, the first first.
    pub edges: Vec<EdgeAt>,
}

/// A partial path: a rule that rewrites stacks. It stands for a list of edges; applying it does at once
/// what following them one after the other does. A stored path of one file has file number 0 everywhere.
#[derive(Debug, Drop)]
pub struct PartialPath {
    start: Start,
    end: End,
    pre: Pre,
    post: Post,
    /// The greatest number of symbols on the way, less those that the path leaves as they are.
    peak: u32,
    edges: Listed<EdgeAt>,
}

impl Model for PartialPath {
    ghost use Rattle.partial_path.specs.Rules.{Rule, IsRule, rule_of};

    ghost Value = { Rule };

    ghost view = { λ p. rule_of p.start p.end p.pre p.post p.peak p.edges };

    ghost invariant = { λ p. IsRule (rule_of p.start p.end p.pre p.post p.peak p.edges) };
}

impl PartialPath {
    ghost use Rattle.std.specs.Prelude.{◌≡◌, ◌<◌, ◌^◌, vec_len, IfOk, IfErr};
    ghost use Rattle.partial_path.specs.Rules.{Rule, IsRule, rule_of, path_fault};

    /// The partial path of these parts, or what is wrong with them. It takes no memory, and time that
    /// follows the size of the postcondition.
    pub fn check(
        start: Start,
        end: End,
        pre: Pre,
        post: Post,
        peak: u32,
        edges: Vec<EdgeAt>,
    ) -> Result<PartialPath, PathFault>
        ensures ok { IfOk result (λ path. path ≡ rule_of start end pre post peak edges.items) }
        ensures err { IfErr result (λ fault. path_fault pre post peak ≡ Some fault) }
    {
        match first_fault(&pre, &post, peak) {
            Some(fault) => Err(fault),
            None => Ok(PartialPath::of(start, end, pre, post, peak, edges)),
        }
    }

    /// The partial path of parts without a fault. It takes no memory and constant time.
    pub fn of(
        start: Start,
        end: End,
        pre: Pre,
        post: Post,
        peak: u32,
        edges: Vec<EdgeAt>,
    ) -> PartialPath
        requires { IsRule (rule_of start end pre post peak edges.items) }
        ensures { result ≡ rule_of start end pre post peak edges.items }
    {
        PartialPath {
            start,
            end,
            pre,
            post,
            peak,
            edges: Listed::of(edges),
        }
    }

    /// Where the path begins.
    pub fn start(&self) -> Start
        ensures value { result ≡ self.now.start }
        ensures rule { IsRule self.now }
    {
        self.start
    }

    /// Where the path ends.
    pub fn end(&self) -> End
        ensures value { result ≡ self.now.end }
        ensures rule { IsRule self.now }
    {
        self.end
    }

    /// What the path asks of the stacks.
    pub fn pre(&self) -> &Pre
        ensures value { result.now ≡ self.now.pre }
        ensures rule { IsRule self.now }
    {
        &self.pre
    }

    /// What the path makes of the stacks.
    pub fn post(&self) -> &Post
        ensures value { result.now ≡ self.now.post }
        ensures rule { IsRule self.now }
    {
        &self.post
    }

    /// The greatest number of symbols on the way, less those that the path leaves as they are.
    pub fn peak(&self) -> u32
        ensures value { result ≡ self.now.peak }
        ensures rule { IsRule self.now }
    {
        self.peak
    }

    /// The path taken apart, for one that is made of it. It takes no memory.
    pub fn into_parts(self) -> PathParts
        ensures value { rule_of result.start result.end result.pre result.post result.peak result.edges.items ≡ self }
        ensures rule { IsRule self }
    {
        PathParts {
            start: self.start,
            end: self.end,
            pre: self.pre,
            post: self.post,
            peak: self.peak,
            edges: self.edges.into_items(),
        }
    }

    /// The edges that the path stands for, the first first.
    pub fn edges(&self) -> &[EdgeAt]
        ensures value { result.now ≡ self.now.edges }
        ensures rule { IsRule self.now }
    {
        self.edges.items()
    }
}

ghost use Rattle.std.specs.{Prelude.{◌≡◌, [], ◌++◌, length, slice_get, option_copied, max}, List.{flat_map}};
ghost use Rattle.partial_path.specs.Rules.{has_scopes, bad_place, path_fault, tail_of, tails};

/// The first fault of a path with these conditions and this peak.
fn first_fault(pre: &Pre, post: &Post, peak: u32) -> Option<PathFault>
    ensures { result ≡ path_fault pre.now post.now peak }
{
    if let Some(place) = first_bad(pre.symbols.items(), post) {
        return Some(PathFault::BadTail(place));
    }
    let reach = pre.symbols.len().max(post.symbols.len());
    if (peak as usize) < reach {
        return Some(PathFault::PeakLow);
    }
    None
}

/// The first place that the postcondition names and where there are no attached scopes.
fn first_bad(asked: &[SymPat], post: &Post) -> Option<u32>
    ensures { result ≡ slice_get (flat_map (bad_place asked.now) (tails post.now)) 0 }
{
    for out in post.symbols.items() {
        if let Some(place) = bad_symbol(asked, out) {
            return Some(place);
        }
    }
    bad_place(asked, post.scopes.tail)
}

/// The place that the symbol's scopes name, where there are no attached scopes there.
fn bad_symbol(asked: &[SymPat], out: &SymOut) -> Option<u32>
    ensures { result ≡ slice_get (flat_map (bad_place asked.now) (tail_of out.now)) 0 }
{
    match &out.scopes {
        Some(scopes) => bad_place(asked, scopes.get().tail),
        None => None,
    }
}

/// The place that the variable names, where there are no attached scopes there.
fn bad_place(asked: &[SymPat], tail: Tail) -> Option<u32>
    ensures { result ≡ slice_get (bad_place asked.now tail) 0 }
{
    match tail {
        Tail::Item(place) if !has_scopes(asked, place) => Some(place),
        _ => None,
    }
}

/// Whether the precondition's symbol at that place has attached scopes.
fn has_scopes(asked: &[SymPat], place: u32) -> bool
    ensures { result ≡ has_scopes asked.now place }
{
    match asked.get(place as usize) {
        Some(pat) => pat.scopes.is_some(),
        None => false,
    }
}
