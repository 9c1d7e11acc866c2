use crate::PathText;
use graph_nodes::Span;
use std::marker::Model;

/// A node that answers a query: the path of its file, its position among that file's nodes from 0,
/// and the part of the file that it stands for where it has one.
#[derive(Debug, Drop)]
pub struct Row {
    pub path: PathText,
    pub node: u32,
    pub span: Option<Span>,
}

/// The rows of an answer, in their order. A contract sees them as a list.
#[derive(Debug, Drop)]
pub struct Rows {
    items: Vec<Row>,
}

impl Model for Rows {
    ghost use Rattle.std.specs.Prelude.{List};
    ghost use Rattle.version_tree.specs.declared.row.Row.{Row};

    ghost Value = { List Row };

    ghost view = { λ r. r.items.items };
}

impl Rows {
    ghost use Rattle.std.specs.Prelude.{◌≡◌};

    /// The rows of this vector.
    pub fn of(items: Vec<Row>) -> Rows
        ensures { result ≡ items.items }
    {
        Rows { items }
    }

    /// The rows.
    pub fn items(&self) -> &[Row]
        ensures { result.now ≡ self.now }
    {
        self.items.as_slice()
    }

    /// The vector of the rows.
    pub fn into_items(self) -> Vec<Row>
        ensures { result.items ≡ self }
    {
        self.items
    }
}

/// An answer to a query: its rows, and whether a run was left out for its length or depth.
#[derive(Debug, Drop)]
pub struct Answer {
    pub limit: bool,
    pub rows: Rows,
}
