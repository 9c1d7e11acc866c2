//! Names that nodes have already, found by their text.

ghost use Rattle.std.specs.Prelude.{◌≡◌, IfOk, IfSome};

use graph_nodes::{Name, Node, NodeKind};
use std::alloc::{AllocError, Global};

/// In how many slots places of nodes are noted.
const SLOTS: usize = 1_024;

/// Where names stand among the nodes. The slot of a text has the place that the next node had when a name of that
/// slot was last made. A name that is found there is taken only where it has the text.
#[derive(Drop)]
pub struct Seen {
    places: [usize; SLOTS],
}

impl Seen {
    /// No place noted.
    pub fn new() -> Seen {
        Seen { places: [0; SLOTS] }
    }

    /// A name of this text for the node that comes behind these. It is the name of one of them, held once more,
    /// where that one is still noted, and else a new one. It takes time that follows the length of the text; the
    /// one error is want of memory.
    pub fn name(&mut self, alloc: Global, nodes: &[Node], text: &str) -> Result<Name, AllocError>
        ensures { IfOk result (λ name. name ≡ text.now) }
    {
        let slot = slot_of(text);
        if let Some(name) = found(&self.places, nodes, slot, text) {
            return name.share();
        }
        if let Some(place) = self.places.get_mut(slot) {
            *place = nodes.len();
        }
        Name::of(alloc, text)
    }
}

/// The slot of a text: the first ten bits of its hash by FNV-1a.
fn slot_of(text: &str) -> usize {
    let mut hash: u32 = 2_166_136_261;
    for b in text.as_bytes() {
        hash = (hash ^ u32::from(*b)).wrapping_mul(16_777_619);
    }
    (hash >> 22) as usize
}

/// The name of the node that is noted in the slot, where it has this text.
fn found<'a>(places: &[usize], nodes: &'a [Node], slot: usize, text: &str) -> Option<&'a Name>
    ensures { IfSome result (λ name. name.now ≡ text.now) }
{
    let place = *places.get(slot)?;
    let name = symbol(nodes.get(place)?)?;
    if name.as_bytes() == text.as_bytes() {
        Some(name)
    } else {
        None
    }
}

/// The symbol of a node, where it has one.
fn symbol(node: &Node) -> Option<&Name> {
    match &node.kind {
        NodeKind::Push { symbol, .. }
        | NodeKind::PushScoped { symbol, .. }
        | NodeKind::Pop { symbol, .. }
        | NodeKind::PopScoped { symbol, .. } => Some(symbol),
        NodeKind::Scope { .. } | NodeKind::Drops => None,
    }
}
