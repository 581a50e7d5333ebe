//! What follows of the record that tells a change. The function states laws and does nothing.

ghost use Rattle.kept_versions.specs.Changes.{NumbersAdvance, PublicationSteps};

/// The record of a change that fits a standing makes the next one of it.
pub fn publication_steps()
    ensures steps { PublicationSteps }
    ensures numbers { NumbersAdvance }
{}
