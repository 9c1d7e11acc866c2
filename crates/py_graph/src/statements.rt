//! The rows of statements with blocks.

ghost use Rattle.std.specs.{Prelude.{map}, Prelude.{◌<◌, length}};
ghost use Rattle.py_graph.specs.{Inside.{ArePair, IsInside}, Gives.{Does, Makes}};
ghost use Rattle.py_graph.specs.Blocks as blocks;
ghost use Rattle.py_graph.specs.Classes as classes;
ghost use Rattle.py_graph.specs.Expressions as visit;
ghost use Rattle.py_graph.specs.Functions as functions;
ghost use Rattle.py_graph.specs.Statements as row;

use crate::draft::{Draft, Made};
use crate::expressions::{expr, exprs};
use crate::frame::Frame;
use crate::imports::{from_all, from_items, import_items};
use crate::nodes::{definition, drops, pop_call, pop_dot, push_dot, scope};
use crate::parameters::all_parameters;
use crate::simple::{assign, evaluate, return_row};
use py_subset::{Arm, Expr, Exprs, Stmt, Word};

/// The base classes of a class with these members, looked up where the class stands.
#[tactic(auto, using(crate::proofs::Sound::standing))]
fn bases(draft: &mut Draft, l: u32, members: u32, es: &[Expr]) -> Made<()>
    requires l { l < length draft.old.nodes }
    requires members { members < length draft.old.nodes }
    ensures { Does result draft.old draft.new (classes.bases members (map visit.expr es.now) l) }
{
    for e in es {
        let t = push_dot(draft)?;
        draft.link(members, t)?;
        let v = expr(draft, l, e)?;
        draft.link_if(t, v)?;
    }
    Ok(())
}

/// The nodes of a function: the scope of its block, and its returns.
fn function_nodes(draft: &mut Draft, c: &Frame, name: &Word) -> Made<(u32, u32)>
    requires c { IsInside draft.old c.now }
    ensures { Makes ArePair result draft.old draft.new (functions.nodes name.now c.now) }
{
    let f = definition(draft, name)?;
    let k = pop_call(draft)?;
    let r = scope(draft)?;
    let s = scope(draft)?;
    let d = drops(draft)?;
    draft.edge(c.binds(), f, c.rank())?;
    draft.link(f, k)?;
    draft.link(k, r)?;
    // A name that the block doesn't bind leaves by the drop, which forgets the arguments of the call.
    draft.link(s, d)?;
    draft.link(d, c.outer())?;
    Ok((s, r))
}

/// The nodes of a class: its members and attributes, the scope for the plain names of its block, and
/// the scope that takes the block's bindings.
fn class_nodes(draft: &mut Draft, c: &Frame, name: &Word) -> Made<((u32, u32), (u32, u32))>
    requires c { IsInside draft.old c.now }
    ensures { Makes (λ g m. ArePair g m.0 × ArePair g m.1) result draft.old draft.new
        (classes.nodes name.now c.now) }
{
    let n = definition(draft, name)?;
    let k = pop_call(draft)?;
    let d = drops(draft)?;
    let t = pop_dot(draft)?;
    let m = scope(draft)?;
    let a = scope(draft)?;
    let l = scope(draft)?;
    let b = scope(draft)?;
    draft.edge(c.binds(), n, c.rank())?;
    draft.link(n, k)?;
    draft.link(k, d)?;
    draft.link(d, t)?;
    draft.link(n, t)?;
    draft.link(t, m)?;
    // Among members an attribute that is assigned shadows what the block binds; of plain names what the block binds
    // shadows what stands outside.
    draft.edge(m, a, 2)?;
    draft.edge(m, b, 1)?;
    draft.edge(l, b, 1)?;
    draft.link(l, c.outer())?;
    Ok(((m, a), (l, b)))
}

/// The statements of the block of a module, function or class.
#[tactic(auto, using(crate::proofs::Sound::standing))]
#[cycle(stmts)]
pub fn block(draft: &mut Draft, c: &Frame, body: &[Stmt]) -> Made<()>
    requires c { IsInside draft.old c.now }
    ensures { Does result draft.old draft.new (blocks.block 1 (map row.stmt body.now) c.now) }
{
    for (j, s) in body.iter().enumerate() {
        let here = c.at_place(j + 1);
        stmt(draft, &here, s)?;
    }
    Ok(())
}

/// A block that keeps the whole context, as those of `if`, `while` and `for` do, since Python gives them no scope.
#[tactic(auto, using(crate::proofs::Sound::standing))]
#[cycle(stmts)]
fn suite(draft: &mut Draft, c: &Frame, body: &[Stmt]) -> Made<()>
    requires c { IsInside draft.old c.now }
    ensures { Does result draft.old draft.new (blocks.suite (map row.stmt body.now) c.now) }
{
    for s in body {
        stmt(draft, c, s)?;
    }
    Ok(())
}

/// Conditions and their blocks, in text order: any of them may be the one that runs.
#[tactic(auto, using(crate::proofs::Sound::standing))]
#[cycle(stmts)]
fn all_arms(draft: &mut Draft, c: &Frame, arms: &[Arm]) -> Made<()>
    requires c { IsInside draft.old c.now }
    ensures { Does result draft.old draft.new (blocks.suite (map row.arm arms.now) c.now) }
{
    for a in arms {
        expr(draft, c.looks(), &a.condition)?;
        suite(draft, c, a.body.items())?;
    }
    Ok(())
}

/// A function.
#[tactic(auto, using(crate::proofs::Sound::standing))]
#[cycle(stmts)]
fn function(
    draft: &mut Draft,
    c: &Frame,
    name: &Word,
    parameters: &[Word],
    body: &[Stmt],
) -> Made<()>
    requires c { IsInside draft.old c.now }
    ensures { Does result draft.old draft.new
        (functions.function name.now parameters.now (map row.stmt body.now) c.now) }
{
    let (s, r) = function_nodes(draft, c, name)?;
    all_parameters(draft, c.class(), s, parameters)?;
    let inside = Frame::in_function(s, r, c.class(), parameters);
    block(draft, &inside, body)
}

/// What a `for` does before its blocks: it binds its name, and visits its items.
fn for_head(draft: &mut Draft, c: &Frame, x: &Word, items: &Exprs) -> Made<()>
    requires c { IsInside draft.old c.now }
    ensures { Does result draft.old draft.new (row.for_head x.now items.now c.now) }
{
    let n = definition(draft, x)?;
    draft.edge(c.binds(), n, c.rank())?;
    exprs(draft, c.looks(), items)?;
    Ok(())
}

/// A statement.
#[tactic(auto, using(crate::proofs::Sound::standing))]
#[cycle(stmts)]
fn stmt(draft: &mut Draft, c: &Frame, s: &Stmt) -> Made<()>
    requires c { IsInside draft.old c.now }
    ensures { Does result draft.old draft.new (row.stmt s.now c.now) }
{
    match s {
        Stmt::Import(items) => import_items(draft, c, items.items()),
        Stmt::From(d, items) => from_items(draft, c, d.items(), items.items()),
        Stmt::FromAll(d) => from_all(draft, c, d.items()),
        Stmt::Assign(target, e) => assign(draft, c, target, e),
        Stmt::Evaluate(es) => evaluate(draft, c, es),
        Stmt::Return(e) => return_row(draft, c, e),
        Stmt::Pass | Stmt::Break | Stmt::Continue => Ok(()),
        Stmt::If { arms, otherwise } => {
            all_arms(draft, c, arms.items())?;
            suite(draft, c, otherwise.items())
        }
        Stmt::While {
            condition,
            body,
            otherwise,
        } => {
            expr(draft, c.looks(), condition)?;
            suite(draft, c, body.items())?;
            suite(draft, c, otherwise.items())
        }
        Stmt::For {
            name,
            items,
            body,
            otherwise,
        } => {
            for_head(draft, c, name, items)?;
            suite(draft, c, body.items())?;
            suite(draft, c, otherwise.items())
        }
        Stmt::Def {
            name,
            parameters,
            body,
        } => function(draft, c, name, parameters.items(), body.items()),
        Stmt::Class { name, bases, body } => { class(draft, c, name, body.items(), bases.items()) }
    }
}

/// A class.
#[tactic(auto, using(crate::proofs::Sound::standing))]
#[cycle(stmts)]
fn class(draft: &mut Draft, c: &Frame, name: &Word, body: &[Stmt], supers: &[Expr]) -> Made<()>
    requires c { IsInside draft.old c.now }
    ensures { Does result draft.old draft.new
        (classes.class name.now (map visit.expr supers.now) (map row.stmt body.now) c.now) }
{
    let (own, (l, b)) = class_nodes(draft, c, name)?;
    // Where the class stands, and not in its block: Python evaluates them before it.
    bases(draft, c.looks(), own.0, supers)?;
    let inside = c.in_class(b, l, own);
    block(draft, &inside, body)
}
