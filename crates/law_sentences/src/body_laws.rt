//! The bodies of a specification that breaks no rule lack nothing.
ghost use Rattle.law_sentences.specs.WholeBodies.{BodiesLackNothing, SpecificationsLackNothing};
ghost use Rattle.law_sentences.specs.WholeBodies.{SentencesLackNothing};

/// Parts that break no rule lack nothing.
#[tactic(auto, using(crate::proofs::WholeBodies::parts_whole))]
pub fn bodies_lack_nothing()
    ensures { BodiesLackNothing }
{}

/// A specification that breaks no rule lacks nothing, where its outline is whole.
pub fn specifications_lack_nothing()
    ensures { SpecificationsLackNothing }
{}

/// A sentence that breaks no rule lacks nothing, where each of its declarations is full.
pub fn sentences_lack_nothing()
    ensures { SentencesLackNothing }
{}
