//! The parameters of functions.

ghost use Rattle.py_graph.specs.{Inside.{ArePairIf}, Gives.{Does}};
ghost use Rattle.py_graph.specs.Functions as row;
ghost use Rattle.std.specs.Prelude.{◌<◌, length};

use crate::draft::{Draft, Made};
use crate::nodes::{definition, drops, pop_dot, push_number};
use graph_nodes::Place;
use py_subset::Word;

/// The first parameter of a method, in the scope of its block. It leads to the class's members.
fn self_parameter(draft: &mut Draft, s: u32, members: u32, x: &Word) -> Made<()>
    requires s { s < length draft.old.nodes }
    requires members { members < length draft.old.nodes }
    ensures { Does result draft.old draft.new (row.self_parameter s members x.now) }
{
    let n = definition(draft, x)?;
    let e = drops(draft)?;
    let k = pop_dot(draft)?;
    // Any binding of the block shadows a parameter: theirs have a precedence from 2 on.
    draft.edge(s, n, 1)?;
    draft.link(n, e)?;
    draft.link(e, k)?;
    draft.link(k, members)
}

/// A parameter, which leads to the argument at a place.
#[tactic(auto, using(crate::proofs::Sound::standing))]
fn parameter(draft: &mut Draft, s: u32, j: usize, x: &Word) -> Made<()>
    requires s { s < length draft.old.nodes }
    ensures { Does result draft.old draft.new (row.parameter s j x.now) }
{
    let n = definition(draft, x)?;
    let k = push_number(draft, j)?;
    // Any binding of the block shadows a parameter: theirs have a precedence from 2 on.
    draft.edge(s, n, 1)?;
    draft.link(n, k)?;
    draft.join(Place::At(k), Place::Jump, 0)
}

/// Parameters whose places count from 0.
#[tactic(auto, using(crate::proofs::Sound::standing))]
fn parameters(draft: &mut Draft, s: u32, xs: &[Word]) -> Made<()>
    requires s { s < length draft.old.nodes }
    ensures { Does result draft.old draft.new (row.parameters s 0 xs.now) }
{
    for (j, x) in xs.iter().enumerate() {
        parameter(draft, s, j, x)?;
    }
    Ok(())
}

/// The parameters of a function in the block of this class, or of none.
#[tactic(auto, using(crate::proofs::Sound::standing))]
pub fn all_parameters(draft: &mut Draft, class: Option<(u32, u32)>, s: u32, xs: &[Word]) -> Made<()>
    requires s { s < length draft.old.nodes }
    requires class { ArePairIf draft.old class }
    ensures { Does result draft.old draft.new (row.all_parameters class s xs.now) }
{
    match (class, xs) {
        (None, xs) => parameters(draft, s, xs),
        (Some(_), []) => Ok(()),
        (Some((members, _)), [first, rest @ ..]) => {
            self_parameter(draft, s, members, first)?;
            parameters(draft, s, rest)
        }
    }
}
