ghost use Rattle.std.specs.Prelude.{◌≡◌, option_map};
ghost use Rattle.serde_json.specs.View.{view};
ghost use Rattle.json_values.specs.Members.{is_among, other_in};
ghost use Rattle.nav_proto.specs.{Forms.{names_of}, Answers.{LineGives}, Members.{with_only}};

use crate::ProtoFault;
use crate::pieces::wrong;
use json_values::other_member;
use serde_json::Value;
use std::alloc::Global;

/// A form of request or edit, for the names that its members may have.
#[derive(Clone, Copy)]
pub(crate) enum Form {
    Bare,
    User,
    Commit,
    Rule,
    NodeQuery,
    PlaceQuery,
    NodeCallers,
    PlaceCallers,
    Put,
    Remove,
    NodeLine,
}

impl json_values::Form for Form {
    ghost use Rattle.json_values.specs.Members.{is_among};
    ghost use Rattle.nav_proto.specs.Forms.{names_of};

    ghost allows = { λ form name. is_among (names_of form) name };

    fn may_have(&self, name: &str) -> bool {
        match self {
            Form::Bare => name == "do",
            Form::User => name == "do" || name == "user",
            Form::Commit => name == "do" || name == "base" || name == "edits",
            Form::Rule => name == "do" || name == "user" || name == "prefix",
            Form::NodeQuery => {
                name == "do"
                    || name == "path"
                    || name == "node"
                    || name == "edges"
                    || name == "depth"
            }
            Form::PlaceQuery => {
                name == "do"
                    || name == "path"
                    || name == "line"
                    || name == "column"
                    || name == "edges"
                    || name == "depth"
            }
            Form::NodeCallers => name == "do" || name == "path" || name == "node",
            Form::PlaceCallers => {
                name == "do" || name == "path" || name == "line" || name == "column"
            }
            Form::Put => name == "put" || name == "text",
            Form::Remove => name == "remove",
            Form::NodeLine => name == "node",
        }
    }
}

/// The least name by bytes among the members of the object that the form doesn't have.
pub(crate) fn other(v: &Value, form: Form) -> Option<&str>
    ensures { option_map (λ k. k.now) result ≡ other_in (is_among (names_of form)) (view v.now) }
{
    other_member(v, &form)
}

/// Refuses an object with a member that the form doesn't have. The least such name is told, so that the reply doesn't
/// hang on the order in which the line has them.
#[tactic(auto, using(crate::proofs::Named::named))]
pub(crate) fn only(alloc: Global, v: &Value, form: Form) -> Result<(), ProtoFault>
    ensures { LineGives result (with_only (names_of form) (view v.now) tt) }
{
    match other(v, form) {
        Some(name) => Err(wrong(alloc, name)),
        None => Ok(()),
    }
}
