//! What an editor is told of definitions and references: the places that it names, and the rows of answers as parts of
//! documents.
#![tactic(auto)]

mod laws;
mod outcomes;
mod paths;
mod querying;
mod referring;

pub use laws::places_have_one_outcome;
pub use outcomes::Project;
pub use paths::path_under;
pub use querying::{Place, place_of, tell_definitions};
pub use referring::{ReferencesOf, tell_references};
