ghost use Rattle.std.specs.Prelude.{◌≡◌, ◌++◌, List, []};
ghost use Rattle.path_store.specs.Documents.{Doc};
ghost use Rattle.index_gate.specs.{declared.fault.FileFault.{FileFault}, Graphs.{DocumentsHaveOneGraph}, Indexed.{HasFault, HasNoFault, missing}};

use py_subset::lookahead_reads_texts;

#[tactic(auto, using(crate::proofs::Once::added_held))]
/// A law of documents that are missing: when they have been added, none of them is missing any more.
pub fn added_documents_are_held()
    ensures { (held docs : List Doc) → missing (held ++ missing held docs) docs ≡ [] }
{}

#[tactic(auto, using(crate::proofs::Once::one_fault, crate::proofs::Once::none_fault))]
/// A law of faults: a document without a fault has none, and another has no two.
pub fn a_document_has_one_fault()
    ensures one { (doc : Doc) (a b : FileFault) → HasFault doc a → HasFault doc b → a ≡ b }
    ensures none { (doc : Doc) (a : FileFault) → HasFault doc a → HasNoFault doc → ⊥ }
{}

/// A law of documents: the graph of a document, or its first fault, is the one that the formats, the grammar
/// of Python and the rule of the first fault say.
pub fn a_document_has_one_graph()
    ensures { DocumentsHaveOneGraph }
{
    lookahead_reads_texts();
}
