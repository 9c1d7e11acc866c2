ghost use Rattle.lsp_answers.specs.Laws.{PlacesHaveOneOutcome};

/// A law: of a place in a document an editor is told one outcome. The files that it may see, the root of the project, the
/// open texts and the place determine it.
pub fn places_have_one_outcome()
    ensures { PlacesHaveOneOutcome }
{}
