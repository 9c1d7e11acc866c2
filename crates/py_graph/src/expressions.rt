//! The rows of expressions. A visited expression has a node as its value, or none.

ghost use Rattle.std.specs.{Prelude.{map, reverse}, Prelude.{◌<◌, length}};
ghost use Rattle.py_graph.specs.{Inside.{IsNode, IsNodeIf, ArePair}, Gives.{Does, Makes}};
ghost use Rattle.py_graph.specs.Expressions as row;

use crate::draft::{Draft, Made};
use crate::nodes::{pop_number, push_dot, reference};
use py_subset::{Atom, Expr, Exprs, Joined, Operand, Postfix, Primary, Word};

/// A plain name, looked up in a scope.
pub fn name(draft: &mut Draft, l: u32, x: &Word) -> Made<Option<u32>>
    requires l { l < length draft.old.nodes }
    ensures { Makes IsNodeIf result draft.old draft.new (row.name x.now l) }
{
    let n = reference(draft, x)?;
    draft.link(n, l)?;
    Ok(Some(n))
}

/// The postfix of a member.
pub fn member(draft: &mut Draft, x: &Word) -> Made<(u32, u32)>
    ensures { Makes ArePair result draft.old draft.new (row.member x.now 0) }
{
    let n = reference(draft, x)?;
    let t = push_dot(draft)?;
    draft.link(n, t)?;
    Ok((n, t))
}

/// Expressions with commas between.
#[cycle(visit)]
pub fn exprs(draft: &mut Draft, l: u32, es: &Exprs) -> Made<Option<u32>>
    requires l { l < length draft.old.nodes }
    ensures { Makes IsNodeIf result draft.old draft.new (row.exprs es.now l) }
{
    match es.items.items() {
        [one] if !es.last_comma => expr(draft, l, one),
        items => parts(draft, l, items),
    }
}

/// Expressions in text order, with no value.
#[cycle(visit)]
fn parts(draft: &mut Draft, l: u32, es: &[Expr]) -> Made<Option<u32>>
    requires l { l < length draft.old.nodes }
    ensures { Makes IsNodeIf result draft.old draft.new (row.parts (map row.expr es.now) l) }
{
    for e in es {
        expr(draft, l, e)?;
    }
    Ok(None)
}

/// One expression.
#[cycle(visit)]
pub fn expr(draft: &mut Draft, l: u32, e: &Expr) -> Made<Option<u32>>
    requires l { l < length draft.old.nodes }
    ensures { Makes IsNodeIf result draft.old draft.new (row.expr e.now l) }
{
    let v = operand(draft, l, &e.first)?;
    if e.rest.is_empty() {
        return Ok(v);
    }
    operands(draft, l, e.rest.items())
}

/// Further operands in text order, with no value.
#[cycle(visit)]
fn operands(draft: &mut Draft, l: u32, es: &[Joined]) -> Made<Option<u32>>
    requires l { l < length draft.old.nodes }
    ensures { Makes IsNodeIf result draft.old draft.new (row.parts (map row.joined es.now) l) }
{
    for e in es {
        operand(draft, l, &e.operand)?;
    }
    Ok(None)
}

/// An operand. Behind a sign it has no value.
#[cycle(visit)]
fn operand(draft: &mut Draft, l: u32, e: &Operand) -> Made<Option<u32>>
    requires l { l < length draft.old.nodes }
    ensures { Makes IsNodeIf result draft.old draft.new (row.operand e.now l) }
{
    let v = primary(draft, l, &e.primary)?;
    if e.signs.is_empty() {
        return Ok(v);
    }
    Ok(None)
}

/// An atom with its postfixes.
#[cycle(visit)]
fn primary(draft: &mut Draft, l: u32, e: &Primary) -> Made<Option<u32>>
    requires l { l < length draft.old.nodes }
    ensures { Makes IsNodeIf result draft.old draft.new (row.primary e.now l) }
{
    match e.posts.items() {
        [] => atom(draft, l, &e.atom),
        [before @ .., last] => {
            let (n, t) = postfix(draft, l, last)?;
            let going = onward(draft, l, t, before)?;
            let v = atom(draft, l, &e.atom)?;
            draft.link_if(going, v)?;
            Ok(Some(n))
        }
    }
}

/// The postfixes from the last to the first, behind a node that goes on: the node that goes on then.
#[cycle(visit)]
pub fn onward(draft: &mut Draft, l: u32, t: u32, posts: &[Postfix]) -> Made<u32>
    requires l { l < length draft.old.nodes }
    requires t { t < length draft.old.nodes }
    ensures { Makes IsNode result draft.old draft.new
        (row.onward t (reverse (map row.postfix posts.now)) l) }
{
    let mut going = t;
    for i in 0..posts.len() {
        // From the last to the first: `a.b.c` asks for `c` in what `a.b` is.
        let post = &posts[posts.len() - 1 - i];
        let (n, next) = postfix(draft, l, post)?;
        draft.link(going, n)?;
        going = next;
    }
    Ok(going)
}

/// A postfix: its first node, and the node that goes on.
#[cycle(visit)]
fn postfix(draft: &mut Draft, l: u32, e: &Postfix) -> Made<(u32, u32)>
    requires l { l < length draft.old.nodes }
    ensures { Makes ArePair result draft.old draft.new (row.postfix e.now l) }
{
    match e {
        Postfix::Member(x) => member(draft, x),
        Postfix::Call(es) => call(draft, l, es.items()),
    }
}

/// The postfix of a call.
#[cycle(visit)]
fn call(draft: &mut Draft, l: u32, es: &[Expr]) -> Made<(u32, u32)>
    requires l { l < length draft.old.nodes }
    ensures { Makes ArePair result draft.old draft.new (row.call (map row.expr es.now) l) }
{
    let (n, s) = draft.call_nodes()?;
    arguments(draft, l, s, es)?;
    Ok((n, n))
}

/// The arguments of a call, each behind its place.
#[cycle(visit)]
fn arguments(draft: &mut Draft, l: u32, s: u32, es: &[Expr]) -> Made<()>
    requires l { l < length draft.old.nodes }
    requires s { s < length draft.old.nodes }
    ensures { Does result draft.old draft.new (row.arguments s 0 (map row.expr es.now) l) }
{
    for (j, e) in es.iter().enumerate() {
        let k = pop_number(draft, j)?;
        draft.link(s, k)?;
        let v = expr(draft, l, e)?;
        draft.link_if(k, v)?;
    }
    Ok(())
}

/// An atom.
#[cycle(visit)]
pub fn atom(draft: &mut Draft, l: u32, e: &Atom) -> Made<Option<u32>>
    requires l { l < length draft.old.nodes }
    ensures { Makes IsNodeIf result draft.old draft.new (row.atom e.now l) }
{
    match e {
        Atom::Name(x) => name(draft, l, x),
        Atom::Round(Some(es)) => exprs(draft, l, es),
        Atom::Square(Some(es)) => {
            // A list is no node, but what stands in it is visited.
            exprs(draft, l, es)?;
            Ok(None)
        }
        Atom::Round(None) | Atom::Square(None) => Ok(None),
        Atom::Number | Atom::Text | Atom::TrueWord | Atom::FalseWord | Atom::NoneWord => Ok(None),
    }
}
