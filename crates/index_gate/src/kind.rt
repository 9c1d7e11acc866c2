ghost use Rattle.std.specs.Prelude.{◌≡◌};
ghost use Rattle.index_gate.specs.Graphs.{kind_of};

/// What a document is, as its path tells.
#[derive(Clone, Copy, Debug, PartialEq, Eq)]
pub enum DocumentKind {
    /// A graph file, of either format.
    GraphFile,
    /// A module of the Python subset.
    PythonModule,
}

/// The kind of the file at this path, if its ending tells one.
#[tactic(auto, using(std::proofs::lemmas::Str::Pattern::ends_text))]
pub(crate) fn kind_of(path: &str) -> Option<DocumentKind>
    ensures { result ≡ kind_of path.now }
{
    if path.ends_with(".sg.json") {
        Some(DocumentKind::GraphFile)
    } else if path.ends_with(".py") {
        Some(DocumentKind::PythonModule)
    } else {
        None
    }
}
