ghost use Rattle.std.specs.Prelude.{◌≡◌, codes, IfOk};
ghost use Rattle.serde_json.specs.View.{view};
ghost use Rattle.partial_path.specs.Limits.{IsInRange};
ghost use Rattle.nav_proto.specs.{Edits.{edits_of}, Forms.{names_of}, Answers.{LineGives}, Members.{field}, Requests.{rule_in, node_point, place_point, point_of, bounds_of, query_names, query_in, callers_names}};

use crate::edits::edits_in;
use crate::fields::{bound_field, number_field, path_field, prefix_field, user_field};
use crate::members::{Form, only};
use crate::pieces::wrong;
use crate::{Bounds, Edits, Point, ProtoFault};
use serde_json::Value;
use std::alloc::Global;
use version_tree::{PathText, UserText};

/// The member `edits`, whose documents aren't copied.
#[tactic(auto, using(crate::proofs::Named::named))]
pub(crate) fn edits_field(alloc: Global, v: Value) -> Result<Edits, ProtoFault>
    ensures { LineGives result (field (codes "edits") edits_of (view v)) }
{
    let mut v = v;
    let Some(found) = v.get_mut("edits") else {
        return Err(wrong(alloc, "edits"));
    };
    match edits_in(alloc, found.take())? {
        Some(edits) => Ok(edits),
        None => Err(wrong(alloc, "edits")),
    }
}

/// The bounds of a query: 1 to 512 edges and 1 to 96 symbols, by default 128 and 48.
#[tactic(auto, unfolding(crate::specs::Requests::bounds_of))]
fn bounds(alloc: Global, v: &Value) -> Result<Bounds, ProtoFault>
    ensures gives { LineGives result (bounds_of (view v.now)) }
    ensures bounded { IfOk result IsInRange }
{
    let edges = bound_field(alloc, v, "edges", 512, 128)?;
    let depth = bound_field(alloc, v, "depth", 96, 48)?;
    Ok(Bounds { edges, depth })
}

#[tactic(auto, unfolding(crate::specs::Requests::node_point))]
fn node(alloc: Global, v: &Value) -> Result<Point, ProtoFault>
    ensures { LineGives result (node_point (view v.now)) }
{
    Ok(Point::Node(number_field(alloc, v, "node")?))
}

#[tactic(auto, unfolding(crate::specs::Requests::place_point))]
fn place(alloc: Global, v: &Value) -> Result<Point, ProtoFault>
    ensures { LineGives result (place_point (view v.now)) }
{
    let line = number_field(alloc, v, "line")?;
    let column = number_field(alloc, v, "column")?;
    Ok(Point::LineColumn(line, column))
}

/// Where a query stands: at a node where one is named, else on a line at a column in bytes. `line` and `column` beside a
/// node are members that the form doesn't have.
pub(crate) fn point(alloc: Global, v: &Value) -> Result<Point, ProtoFault>
    ensures { LineGives result (point_of (view v.now)) }
{
    match v.get("node") {
        Some(_) => node(alloc, v),
        None => place(alloc, v),
    }
}

fn query_form(v: &Value) -> Form
    ensures { names_of result ≡ query_names (view v.now) }
{
    match v.get("node") {
        Some(_) => Form::NodeQuery,
        None => Form::PlaceQuery,
    }
}

/// Which members `callers` may have: those of a query but its bounds.
pub(crate) fn callers_form(v: &Value) -> Form
    ensures { names_of result ≡ callers_names (view v.now) }
{
    match v.get("node") {
        Some(_) => Form::NodeCallers,
        None => Form::PlaceCallers,
    }
}

/// The members of a query, in the order in which their faults are told.
#[tactic(auto, unfolding(crate::specs::Requests::query_in))]
pub(crate) fn query(alloc: Global, v: &Value) -> Result<(PathText, (Point, Bounds)), ProtoFault>
    ensures gives { LineGives result (query_in (view v.now)) }
    ensures bounded { IfOk result (λ q. IsInRange q.1.1) }
{
    let path = path_field(alloc, v)?;
    let at = point(alloc, v)?;
    let bounds = bounds(alloc, v)?;
    only(alloc, v, query_form(v))?;
    Ok((path, (at, bounds)))
}

/// The members of a grant or a deny, in the order in which their faults are told.
#[tactic(auto, unfolding(crate::specs::Requests::rule_in))]
pub(crate) fn rule(alloc: Global, v: &Value) -> Result<(UserText, PathText), ProtoFault>
    ensures { LineGives result (rule_in (view v.now)) }
{
    let user = user_field(alloc, v)?;
    let prefix = prefix_field(alloc, v)?;
    only(alloc, v, Form::Rule)?;
    Ok((user, prefix))
}
