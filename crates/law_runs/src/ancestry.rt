//! What holds of attachments in each situation of a run.
ghost use Rattle.law_runs.specs.YoungerLaws.{BlocksLeadToYounger, FiringsLeadToYounger};
ghost use Rattle.law_runs.specs.YoungerLaws.{RunsLeadToYounger, RunsDescend};

/// After a block attachments lead to younger instances where they did before.
#[tactic(auto, using(crate::proofs::YoungerBlocks::blocks_lead_to_younger))]
pub fn blocks_lead_to_younger()
    ensures { BlocksLeadToYounger }
{}

/// So they do after a firing.
#[tactic(auto, using(crate::proofs::YoungerRuns::firings_lead_to_younger))]
pub fn firings_lead_to_younger()
    ensures { FiringsLeadToYounger }
{}

/// In each situation of a run attachments lead to younger instances.
#[tactic(auto, using(crate::proofs::YoungerRuns::runs_lead_to_younger))]
pub fn attachments_lead_to_younger()
    ensures { RunsLeadToYounger }
{}

/// So descents along attachments end.
#[tactic(auto, using(crate::proofs::YoungerRuns::runs_descend))]
pub fn descents_end()
    ensures { RunsDescend }
{}
