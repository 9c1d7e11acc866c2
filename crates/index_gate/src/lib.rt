//! Indexes documents: the partial paths of each, found once and kept for all that ask again.
#![tactic(auto)]

mod ahead;
mod documents;
mod fault;
mod indexing;
mod kind;
mod laws;
mod working;

pub use documents::read_document;
pub use fault::{FileFault, IndexFault, MAX_BYTES, ReadFault};
pub use indexing::index_all;
pub use kind::DocumentKind;
pub use laws::{a_document_has_one_fault, a_document_has_one_graph, added_documents_are_held};
