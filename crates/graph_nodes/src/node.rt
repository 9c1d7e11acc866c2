use std::alloc::{AllocError, Global};
use std::marker::Model;
use std::sync::Arc;

/// A place of a graph that an edge leaves or enters.
#[derive(Clone, Copy, Debug, PartialEq, Eq)]
pub enum Place {
    /// The root, which all files share.
    Root,
    /// The place that goes on at the scope in front of the scope stack; all files share it.
    Jump,
    /// A node of the file, by its position from 0.
    At(u32),
}

/// A part of a text: lines from 0, columns in bytes from 0.
#[derive(Clone, Copy, Debug, PartialEq, Eq)]
pub struct Span {
    pub from_line: u32,
    pub from_column: u32,
    pub to_line: u32,
    pub to_column: u32,
}

/// An edge of a file's graph. A path by an edge of higher precedence shadows one by an edge of lower.
#[derive(Clone, Copy, Debug, PartialEq, Eq)]
pub struct Edge {
    pub source: Place,
    pub sink: Place,
    pub precedence: u16,
}

/// A symbol's text, shared by all that hold it. A contract sees its bytes, which are UTF-8.
#[derive(Debug, Drop)]
pub struct Name {
    bytes: Arc<Vec<u8>, Global>,
}

impl Model for Name {
    ghost use Rattle.std.specs.{Prelude.{ℕ, List}, Arc.{arc_value}, Str.{IsUtf8}};

    ghost Value = { List ℕ };

    ghost view = { λ n. (arc_value n.bytes).items };

    ghost invariant = { λ n. IsUtf8 (arc_value n.bytes).items };
}

impl Name {
    ghost use Rattle.std.specs.{Prelude.{◌≡◌, IfOk}, Arc.{arc_value}, Str.{IsUtf8}};

    /// A name of this text, which is copied; the one error is want of memory.
    pub fn of(alloc: Global, text: &str) -> Result<Name, AllocError>
        ensures { IfOk result (λ name. name ≡ text.now) }
    {
        Ok(Name {
            bytes: Arc::new(alloc, Vec::from_slice(alloc, text.as_bytes())?)?,
        })
    }

    /// The name as text, at the cost of its length, since its bytes are read. `as_bytes` takes constant
    /// time.
    pub fn as_str(&self) -> &str
        ensures value { result.now ≡ self.now }
        ensures utf8 { IsUtf8 self.now }
    {
        str::from_utf8(self.as_bytes()).unwrap()
    }

    /// The name's bytes.
    pub fn as_bytes(&self) -> &[u8]
        ensures value { result.now ≡ self.now }
        ensures utf8 { IsUtf8 self.now }
    {
        self.bytes.as_slice()
    }

    /// The same name once more, whose bytes are shared and not copied. It takes no memory; the one error
    /// is want of room to count one holder more.
    pub fn share(&self) -> Result<Name, AllocError>
        ensures { IfOk result (λ name. name ≡ self.now) }
    {
        Ok(Name {
            bytes: Arc::try_clone(&self.bytes)?,
        })
    }

    /// The bytes themselves, held once more and not copied. The one error is want of room to count one
    /// holder more.
    pub fn shared(&self) -> Result<Arc<Vec<u8>, Global>, AllocError>
        ensures { IfOk result (λ bytes. (arc_value bytes).items ≡ self.now) }
    {
        Arc::try_clone(&self.bytes)
    }
}

/// What a node does to the stacks when it is entered.
#[derive(Debug, Drop)]
pub enum NodeKind {
    /// Leaves the stacks as they are. Where it is exported, a push_scoped node may attach it.
    Scope {
        exported: bool,
    },
    /// Puts the plain symbol on the symbol stack.
    Push {
        symbol: Name,
        reference: bool,
    },
    /// Puts the symbol on the symbol stack with attached scopes: the exported scope at position
    /// `scope`, followed by the scope stack.
    PushScoped {
        symbol: Name,
        scope: u32,
        reference: bool,
    },
    /// Takes the plain symbol off the symbol stack.
    Pop {
        symbol: Name,
        definition: bool,
    },
    /// Takes the symbol off the symbol stack; its attached scopes become the scope stack.
    PopScoped {
        symbol: Name,
        definition: bool,
    },
    /// Empties the scope stack.
    Drops,
}

impl NodeKind {
    ghost use Rattle.std.specs.Prelude.{◌≡◌};
    ghost use Rattle.graph_nodes.specs.Graph.{is_exported_kind, is_reference_kind, is_definition_kind};

    /// Whether a node of this kind is an exported scope, which a push_scoped node may attach and where paths are cut.
    pub fn is_exported(&self) -> bool
        ensures { result ≡ is_exported_kind self.now }
    {
        match self {
            NodeKind::Scope { exported } => *exported,
            NodeKind::Push { .. }
            | NodeKind::PushScoped { .. }
            | NodeKind::Pop { .. }
            | NodeKind::PopScoped { .. }
            | NodeKind::Drops => false,
        }
    }

    /// Whether a node of this kind is a reference, where a search may start.
    pub fn is_reference(&self) -> bool
        ensures { result ≡ is_reference_kind self.now }
    {
        match self {
            NodeKind::Push { reference, .. } | NodeKind::PushScoped { reference, .. } => *reference,
            NodeKind::Scope { .. }
            | NodeKind::Pop { .. }
            | NodeKind::PopScoped { .. }
            | NodeKind::Drops => false,
        }
    }

    /// Whether a node of this kind is a definition, which a search may find.
    pub fn is_definition(&self) -> bool
        ensures { result ≡ is_definition_kind self.now }
    {
        match self {
            NodeKind::Pop { definition, .. } | NodeKind::PopScoped { definition, .. } =>
                *definition,
            NodeKind::Scope { .. }
            | NodeKind::Push { .. }
            | NodeKind::PushScoped { .. }
            | NodeKind::Drops => false,
        }
    }
}

/// A node of a file's graph, with the part of the file that it stands for where it has one.
#[derive(Debug, Drop)]
pub struct Node {
    pub kind: NodeKind,
    pub span: Option<Span>,
}
