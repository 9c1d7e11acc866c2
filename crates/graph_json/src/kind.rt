ghost use Rattle.std.specs.{Prelude.{◌≡◌, codes}, Option.{option_copied}};
ghost use Rattle.graph_json.specs.Printed.{kind_text, symbol_of};

use graph_nodes::NodeKind;

/// The word for a node's kind, as graph files have it.
pub(crate) fn word(kind: &NodeKind) -> &'static str
    ensures { result.now ≡ kind_text kind.now }
{
    match kind {
        NodeKind::Scope { .. } => "scope",
        NodeKind::Push { .. } => "push",
        NodeKind::PushScoped { .. } => "push_scoped",
        NodeKind::Pop { .. } => "pop",
        NodeKind::PopScoped { .. } => "pop_scoped",
        NodeKind::Drops => "drop",
    }
}

/// The symbol of a node that has one. Its bytes are tested for UTF-8 once more, since a name keeps them as bytes.
pub(crate) fn symbol(kind: &NodeKind) -> Option<&str>
    ensures { option_copied result ≡ symbol_of kind.now }
{
    match kind {
        NodeKind::Push { symbol, .. }
        | NodeKind::PushScoped { symbol, .. }
        | NodeKind::Pop { symbol, .. }
        | NodeKind::PopScoped { symbol, .. } => Some(symbol.as_str()),
        NodeKind::Scope { .. } | NodeKind::Drops => None,
    }
}
