//! Which joined paths stand for back lists.
ghost use Rattle.std.specs.{Prelude.{◌≡◌, IsTrue}, List.{list_all}};
ghost use Rattle.partial_path.specs.{Rules.{IsRule}, Sources.{graphs_of}};
ghost use Rattle.back_stitch.specs.Joined.{is_kept, all_exported, asks_exported, is_exported_node, is_certain};

use crate::source::BackSource;
use partial_path::{End, PartialPath};
use stacks_vars::{Post, Pre, ScopePat, SymPat};

/// How many edges a back list may have.
pub const MAX_EDGES: usize = 128;

/// How many symbols may stand on the stack on its way.
pub const MAX_DEPTH: u32 = 48;

/// How many back lists a definition may have.
pub const MAX_LISTS: usize = 8_192;

/// Whether the path, which leads to a definition, stands for a back list: it leaves no symbols, is within the bounds,
/// and asks for no scopes but exported ones.
pub fn is_kept<P: BackSource>(source: &P, path: &PartialPath) -> bool
    ensures value { result ≡ is_kept (graphs_of (P.files source.now)) path.now }
    ensures rule { IsRule path.now }
{
    path.post().symbols.is_empty()
        && path.edges().len() <= MAX_EDGES
        && path.peak() <= MAX_DEPTH
        && all_exported(source, path.pre())
        && is_certain(path.end(), path.post())
}

/// Whether all scopes are exported ones that the path asks for.
fn all_exported<P: BackSource>(source: &P, pre: &Pre) -> bool
    ensures { result ≡ all_exported (graphs_of (P.files source.now)) pre.now }
{
    all_asked_exported(source, pre.symbols.items()) && are_exported(source, &pre.scopes)
}

/// The same of those that are attached to symbols.
fn all_asked_exported<P: BackSource>(source: &P, symbols: &[SymPat]) -> bool
    ensures { result ≡ list_all (asks_exported (graphs_of (P.files source.now))) symbols.now }
{
    symbols.iter().all(|pat| asks_exported(source, pat))
}

/// The same of those that are attached to a symbol.
fn asks_exported<P: BackSource>(source: &P, pat: &SymPat) -> bool
    ensures { result ≡ asks_exported (graphs_of (P.files source.now)) pat.now }
{
    match &pat.scopes {
        Some(scopes) => are_exported(source, scopes.get()),
        None => true,
    }
}

/// The same of a stack of them.
fn are_exported<P: BackSource>(source: &P, scopes: &ScopePat) -> bool
    ensures { result
        ≡ list_all (is_exported_node (graphs_of (P.files source.now))) scopes.now.fixed }
{
    scopes
        .fixed
        .items()
        .iter()
        .all(|scope| source.is_exported(scope))
}

/// Whether a path ends at one spot wherever it applies.
fn is_certain(end: End, post: &Post) -> bool
    ensures { result ≡ is_certain end post.now.scopes.scopes }
{
    match end {
        End::At(_) => true,
        End::ByStack => !post.scopes.scopes.is_empty(),
    }
}
