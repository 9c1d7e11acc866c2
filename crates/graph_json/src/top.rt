ghost use Rattle.std.specs.Prelude.{◌≡◌, ◌^◌, ◌<◌, length, map, option_map, IfSome};
ghost use Rattle.serde_json.specs.View.{view};
ghost use Rattle.graph_json.specs.{Pieces.{list_in, HasShortLists}, Top.{lists_in}};

use json_values::{Form, has_only, items};
use serde_json::Value;

/// The members of a graph file; `format` is one where nodes have names.
#[derive(Clone, Copy)]
struct TopForm {
    named: bool,
}

impl Form for TopForm {
    ghost use Rattle.graph_json.specs.Top.{may_stand};

    ghost allows = { λ form name. may_stand form.named name };

    fn may_have(&self, name: &str) -> bool {
        name == "nodes" || name == "edges" || (self.named && name == "format")
    }
}

/// The items of the array that is the member of that name.
fn list<'a>(v: &'a Value, name: &str) -> Option<&'a [Value]>
    ensures { option_map (λ items. map view items.now) result ≡ list_in name.now (view v.now) }
{
    items(v.get(name)?)
}

/// The values of the nodes and of the edges. No member may stand beside theirs, so that a misspelt one is told and not
/// passed over.
#[tactic(auto, unfolding(crate::specs::Top::lists_in))]
pub(crate) fn lists(v: &Value, named: bool) -> Option<(&[Value], &[Value])>
    requires { HasShortLists (view v.now) }
    ensures lists { option_map (λ p. (map view p.0.now, map view p.1.now)) result
        ≡ lists_in named (view v.now) }
    ensures short { IfSome result (λ p. (length p.0.now < 2 ^ 32) × (length p.1.now < 2 ^ 32)) }
{
    let nodes = list(v, "nodes")?;
    let edges = list(v, "edges")?;
    if has_only(v, &TopForm { named }) {
        Some((nodes, edges))
    } else {
        None
    }
}
