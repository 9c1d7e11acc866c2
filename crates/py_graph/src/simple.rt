//! The rows of statements without blocks.

ghost use Rattle.py_graph.specs.{Inside.{IsInside}, Gives.{Does}};
ghost use Rattle.py_graph.specs.Statements as row;
ghost use Rattle.std.specs.Prelude.{◌<◌, length};

use crate::draft::{Draft, Made};
use crate::expressions::{atom, exprs, member, name, onward};
use crate::frame::Frame;
use crate::nodes::definition;
use py_subset::{Exprs, Primary, Target, Word};

/// An assignment to a name.
fn assign_name(draft: &mut Draft, c: &Frame, x: &Word, e: &Exprs) -> Made<()>
    requires c { IsInside draft.old c.now }
    ensures { Does result draft.old draft.new (row.assign_name x.now e.now c.now) }
{
    let n = definition(draft, x)?;
    draft.edge(c.binds(), n, c.rank())?;
    let v = exprs(draft, c.looks(), e)?;
    draft.link_if(n, v)
}

/// An assignment to an attribute of self, whose attributes these are.
#[tactic(auto, using(crate::proofs::Sound::standing))]
fn assign_attribute(
    draft: &mut Draft,
    c: &Frame,
    owner: (&Word, u32),
    x: &Word,
    e: &Exprs,
) -> Made<()>
    requires c { IsInside draft.old c.now }
    requires owner { owner.1 < length draft.old.nodes }
    ensures { Does result draft.old draft.new
        (row.assign_attribute owner.entry.0.now owner.entry.1 x.now e.now c.now) }
{
    let (s, attributes) = owner;
    let n = definition(draft, x)?;
    draft.link(attributes, n)?;
    name(draft, c.looks(), s)?;
    let v = exprs(draft, c.looks(), e)?;
    draft.link_if(n, v)
}

/// An assignment to another member.
#[tactic(auto, using(crate::proofs::Sound::standing))]
fn assign_member(draft: &mut Draft, c: &Frame, t: &Primary, x: &Word, e: &Exprs) -> Made<()>
    requires c { IsInside draft.old c.now }
    ensures { Does result draft.old draft.new (row.assign_member t.now x.now e.now c.now) }
{
    let (_, k) = member(draft, x)?;
    let going = onward(draft, c.looks(), k, t.posts.items())?;
    let v = atom(draft, c.looks(), &t.atom)?;
    draft.link_if(going, v)?;
    exprs(draft, c.looks(), e)?;
    Ok(())
}

/// An assignment.
#[tactic(auto, using(crate::proofs::Sound::standing))]
pub fn assign(draft: &mut Draft, c: &Frame, target: &Target, e: &Exprs) -> Made<()>
    requires c { IsInside draft.old c.now }
    ensures { Does result draft.old draft.new (row.assign target.now e.now c.now) }
{
    match target {
        Target::Name(x) => assign_name(draft, c, x, e),
        Target::Member(t, x) => match c.self_in(t) {
            Some(owner) => assign_attribute(draft, c, owner, x, e),
            None => assign_member(draft, c, t, x, e),
        },
    }
}

/// Expressions alone.
pub fn evaluate(draft: &mut Draft, c: &Frame, es: &Exprs) -> Made<()>
    requires c { IsInside draft.old c.now }
    ensures { Does result draft.old draft.new (row.evaluate es.now c.now) }
{
    exprs(draft, c.looks(), es)?;
    Ok(())
}

/// A return, alone or of expressions.
pub fn return_row(draft: &mut Draft, c: &Frame, e: &Option<Exprs>) -> Made<()>
    requires c { IsInside draft.old c.now }
    ensures { Does result draft.old draft.new (row.return_row e.now c.now) }
{
    let Some(e) = e else {
        return Ok(());
    };
    let v = exprs(draft, c.looks(), e)?;
    match c.returns() {
        Some(r) => draft.link_if(r, v),
        None => Ok(()),
    }
}
