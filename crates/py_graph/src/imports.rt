//! The rows of imports.

ghost use Rattle.std.specs.{Prelude.{◌≡◌, [], ◌∷◌, ◌++◌, map, reverse, OnOk}, List.{All}, Prelude.{◌<◌, length, IfOk}};
ghost use Rattle.py_graph.specs.{Steps.{each, collect, ◌▸?◌}, Blocks.{suite}, Inside.{Grows, IsNode, ArePairIf, IsInside}, Gives.{Does, Makes, GivesItems}};
ghost use Rattle.py_graph.specs.Imports as row;

use crate::draft::{Draft, Made};
use crate::frame::Frame;
use crate::nodes::{binding, push_dot, reference};
use graph_nodes::Place;
use py_subset::{FromItem, ImportItem, Word};
use std::alloc::AllocError;

/// The names of a dotted name from the last to the first, behind the node of the name after them.
#[tactic(auto, using(crate::proofs::Sound::standing))]
fn behind(draft: &mut Draft, n: u32, xs: &[Word]) -> Made<u32>
    requires n { n < length draft.old.nodes }
    ensures { Makes IsNode result draft.old draft.new (row.behind n (reverse xs.now)) }
{
    let mut last = n;
    for i in 0..xs.len() {
        // From the last to the first, so that the first one comes to stand in front: it is asked for first.
        let x = &xs[xs.len() - 1 - i];
        let t = push_dot(draft)?;
        let m = reference(draft, x)?;
        draft.link(last, t)?;
        draft.link(t, m)?;
        last = m;
    }
    draft.join(Place::At(last), Place::Root, 0)?;
    Ok(last)
}

/// A dotted name: its first and its last node.
fn dotted(draft: &mut Draft, xs: &[Word]) -> Made<Option<(u32, u32)>>
    ensures { Makes ArePairIf result draft.old draft.new (row.dotted xs.now) }
{
    match xs {
        [] => Ok(None),
        [before @ .., x] => {
            let n = reference(draft, x)?;
            let m = behind(draft, n, before)?;
            Ok(Some((n, m)))
        }
    }
}

/// An edge to the first node of a dotted name.
#[tactic(auto, using(crate::proofs::Sound::standing))]
fn link_first(draft: &mut Draft, n: u32, d: Option<(u32, u32)>) -> Made<()>
    requires n { n < length draft.old.nodes }
    requires d { ArePairIf draft.old d }
    ensures { Does result draft.old draft.new (◌▸?◌ n (row.first_node d)) }
{
    match d {
        Some((first, _)) => draft.link(n, first),
        None => Ok(()),
    }
}

/// An edge to the last node of a dotted name.
#[tactic(auto, using(crate::proofs::Sound::standing))]
fn link_last(draft: &mut Draft, n: u32, d: Option<(u32, u32)>) -> Made<()>
    requires n { n < length draft.old.nodes }
    requires d { ArePairIf draft.old d }
    ensures { Does result draft.old draft.new (◌▸?◌ n (row.last_node d)) }
{
    match d {
        Some((_, last)) => draft.link(n, last),
        None => Ok(()),
    }
}

/// A module imported under its own name, of which the first part is bound.
#[tactic(auto, using(crate::proofs::Sound::standing))]
fn import_name(draft: &mut Draft, c: &Frame, xs: &[Word]) -> Made<()>
    requires c { IsInside draft.old c.now }
    ensures { Does result draft.old draft.new (row.import_name xs.now c.now) }
{
    // No text has a dotted name without a part, but a tree may.
    let [x, ..] = xs else {
        return Ok(());
    };
    let n = binding(draft, x)?;
    draft.edge(c.binds(), n, c.rank())?;
    let d = dotted(draft, xs)?;
    link_last(draft, n, d)
}

/// A module imported under another name.
#[tactic(auto, using(crate::proofs::Sound::standing))]
fn import_as(draft: &mut Draft, c: &Frame, xs: &[Word], y: &Word) -> Made<()>
    requires c { IsInside draft.old c.now }
    ensures { Does result draft.old draft.new (row.import_as xs.now y.now c.now) }
{
    let n = binding(draft, y)?;
    draft.edge(c.binds(), n, c.rank())?;
    let d = dotted(draft, xs)?;
    link_first(draft, n, d)
}

/// One of the modules that an `import` imports.
#[tactic(auto, using(crate::proofs::Sound::standing))]
fn import_item(draft: &mut Draft, c: &Frame, i: &ImportItem) -> Made<()>
    requires c { IsInside draft.old c.now }
    ensures { Does result draft.old draft.new (row.import_item i.now c.now) }
{
    match &i.alias {
        Some(y) => import_as(draft, c, i.dotted.items(), y),
        None => import_name(draft, c, i.dotted.items()),
    }
}

/// The modules that an `import` imports.
#[tactic(auto, using(crate::proofs::Sound::standing))]
pub fn import_items(draft: &mut Draft, c: &Frame, items: &[ImportItem]) -> Made<()>
    requires c { IsInside draft.old c.now }
    ensures { Does result draft.old draft.new (suite (map row.import_item items.now) c.now) }
{
    for i in items {
        import_item(draft, c, i)?;
    }
    Ok(())
}

/// The name that an item binds.
fn bound<'a, 'b>(i: &'a FromItem<'b>) -> &'a Word<'b>
    ensures { result.now ≡ row.bound i.now }
{
    match &i.alias {
        Some(y) => y,
        None => &i.name,
    }
}

/// An imported name: the node that is to be joined to the module.
fn from_item(draft: &mut Draft, c: &Frame, i: &FromItem) -> Made<u32>
    requires c { IsInside draft.old c.now }
    ensures { Makes IsNode result draft.old draft.new (row.from_item c.now i.now) }
{
    let n = binding(draft, bound(i))?;
    let q = reference(draft, &i.name)?;
    let t = push_dot(draft)?;
    draft.edge(c.binds(), n, c.rank())?;
    draft.link(n, q)?;
    draft.link(q, t)?;
    Ok(t)
}

/// Adds a node. In a function of its own, since what a refused push leaves isn't the error of the steps.
fn put(list: &mut Vec<u32>, n: u32) -> Result<(), AllocError>
    ensures { OnOk result (list.new.items ≡ list.old.items ++ n ∷ []) }
{
    list.push(n)?;
    Ok(())
}

/// Imported names: their nodes that are to be joined to the module.
#[tactic(auto, using(crate::proofs::Sound::standing))]
fn from_names(draft: &mut Draft, c: &Frame, items: &[FromItem]) -> Made<Vec<u32>>
    requires c { IsInside draft.old c.now }
    ensures gives { GivesItems result draft.new
        (collect (map (row.from_item c.now) items.now) draft.old) }
    ensures grows { Grows draft.old draft.new }
    ensures inside { IfOk result (λ ts. All (IsNode draft.new) ts.items) }
{
    let mut ts = Vec::new(draft.alloc());
    for i in items {
        let t = from_item(draft, c, i)?;
        put(&mut ts, t)?;
    }
    Ok(ts)
}

/// Edges from all these nodes to the first node of a dotted name.
#[tactic(auto, using(crate::proofs::Sound::standing))]
fn link_all(draft: &mut Draft, ts: &[u32], d: Option<(u32, u32)>) -> Made<()>
    requires d { ArePairIf draft.old d }
    requires ts { All (IsNode draft.old) ts.now }
    ensures { Does result draft.old draft.new (each (map (λ t. ◌▸?◌ t (row.first_node d)) ts.now)) }
{
    for t in ts {
        link_first(draft, *t, d)?;
    }
    Ok(())
}

/// Names imported from a module.
#[tactic(auto, using(crate::proofs::Sound::standing))]
pub fn from_items(draft: &mut Draft, c: &Frame, xs: &[Word], items: &[FromItem]) -> Made<()>
    requires c { IsInside draft.old c.now }
    ensures { Does result draft.old draft.new (row.from_items xs.now items.now c.now) }
{
    let ts = from_names(draft, c, items)?;
    let d = dotted(draft, xs)?;
    link_all(draft, ts.as_slice(), d)
}

/// All names imported from a module.
#[tactic(auto, using(crate::proofs::Sound::standing))]
pub fn from_all(draft: &mut Draft, c: &Frame, xs: &[Word]) -> Made<()>
    requires c { IsInside draft.old c.now }
    ensures { Does result draft.old draft.new (row.from_all xs.now c.now) }
{
    let t = push_dot(draft)?;
    draft.edge(c.binds(), t, c.rank())?;
    let d = dotted(draft, xs)?;
    link_first(draft, t, d)
}
