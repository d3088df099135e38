//! What holds of each sentence, and of its runs.
ghost use Rattle.law_runs.specs.InsideLaws.{SentencesBeginWithInit, SentencesStandInside};
ghost use Rattle.law_runs.specs.InsideLaws.{SentencesStayOrderly, SentencesLeadToYounger};
ghost use Rattle.law_runs.specs.InsideLaws.{SentencesDescend};

/// The initialize part of a sentence is one `init`.
pub fn sentences_begin_with_init()
    ensures { SentencesBeginWithInit }
{}

/// Each `attach` of a sentence names a child by the name of an `all` around it, or by none of an
/// `all`.
pub fn sentences_stand_inside()
    ensures { SentencesStandInside }
{}

/// Each situation of a run of a sentence is orderly, with one root; its connections lead both ways,
/// and climbs end.
pub fn sentences_stay_orderly()
    ensures { SentencesStayOrderly }
{}

/// In each situation of a run of a sentence attachments lead to younger instances, so descents
/// along them end.
pub fn sentences_lead_to_younger()
    ensures younger { SentencesLeadToYounger }
    ensures ends { SentencesDescend }
{}
