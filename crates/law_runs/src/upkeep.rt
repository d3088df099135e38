//! What holds of all blocks of instances, and so in each situation of a run.
ghost use Rattle.law_runs.specs.AncestorLaws.{ParentsStayOlder, AncestorsAreOlder};
ghost use Rattle.law_runs.specs.AncestorLaws.{NoneIsItsAncestor, ThoseWhoGoDescend};
ghost use Rattle.law_runs.specs.AncestorLaws.{DescendantsGo, ReleaseEndsDescendants};
ghost use Rattle.law_runs.specs.ClimbLaws.{ClimbsEnd, DescentsEnd};
ghost use Rattle.law_runs.specs.OrderLaws.{SituationsStayOrderly, StartsAreOrderly};
ghost use Rattle.law_runs.specs.RunOrder.{OneTreeDescends, FiringsStayOrderly};
ghost use Rattle.law_runs.specs.RunOrder.{EventsStayOrderly, RunsStayOrderly};
ghost use Rattle.law_runs.specs.RunOrder.{RunsStampInTime, GoodDelaysAwaitNothing};
ghost use Rattle.law_runs.specs.RunOrder.{RunsHaveTheirStamps, ItemsWaitAtTheirPoints};
ghost use Rattle.law_runs.specs.RunOrder.{RunsAreCounted};

/// Parents are older than their children after a block where they were before.
#[tactic(auto, using(crate::proofs::ParentsOlder::parents_stay_older))]
pub fn parents_stay_older()
    ensures { ParentsStayOlder }
{}

/// Where parents are older than their children, so are ancestors, and none is its own.
pub fn ancestors_are_older()
    ensures older { AncestorsAreOlder }
    ensures other { NoneIsItsAncestor }
{}

/// With an instance that is released go those that descend from it, and no others.
#[tactic(auto, using(crate::proofs::Ancestors::who_goes_descends, crate::proofs::Ancestors::descendants_go))]
pub fn descendants_go()
    ensures gone { ThoseWhoGoDescend }
    ensures below { DescendantsGo }
{}

/// A release ends an instance and those that descend from it, and leaves the others.
#[tactic(auto, using(crate::proofs::Ancestors::release_ends_descendants))]
pub fn release_ends_descendants()
    ensures { ReleaseEndsDescendants }
{}

/// After a block of a living instance links and queues are those of living instances where they
/// were before, each parent lives, and so does the instance.
#[tactic(auto, using(crate::proofs::OrderlyBlocks::situations_stay_orderly))]
pub fn situations_stay_orderly()
    ensures { SituationsStayOrderly }
{}

/// Climbs and descents along attachments end.
#[tactic(auto, using(crate::proofs::ClimbsEnd::descents_end))]
pub fn climbs_end()
    ensures up { ClimbsEnd }
    ensures down { DescentsEnd }
{}

/// A start is orderly, and has one root.
pub fn starts_are_orderly()
    ensures { StartsAreOrderly }
{}

/// In an orderly situation with one root all instances descend from that.
pub fn one_tree_descends()
    ensures { OneTreeDescends }
{}

/// Firings leave orderly situations with one root.
#[tactic(auto, using(crate::proofs::OrderlySteps::firings_stay_orderly))]
pub fn firings_stay_orderly()
    ensures { FiringsStayOrderly }
{}

/// Events leave orderly situations with one root.
#[tactic(auto, using(crate::proofs::OrderlySteps::events_stay_orderly))]
pub fn events_stay_orderly()
    ensures { EventsStayOrderly }
{}

/// Each situation of a run is orderly, with one root; its connections lead both ways, and climbs
/// end.
#[tactic(auto, using(crate::proofs::OrderlyRuns::runs_stay_orderly))]
pub fn runs_stay_orderly()
    ensures { RunsStayOrderly }
{}

/// In each situation of a run items wait in the queues of the interaction points to which they
/// belong.
#[tactic(auto, using(crate::proofs::OwnQueues::items_wait_at_their_points))]
pub fn items_wait_at_their_points()
    ensures { ItemsWaitAtTheirPoints }
{}

/// In each situation of a run the number of items is that of those which were put, less those which
/// were taken and those which went with their instances.
#[tactic(auto, using(crate::proofs::OrderlyRuns::runs_are_counted))]
pub fn runs_are_counted()
    ensures { RunsAreCounted }
{}

/// In each situation of a run no stamp is later than the clock.
#[tactic(auto, using(crate::proofs::OrderlyRuns::runs_stamp_in_time))]
pub fn runs_stamp_in_time()
    ensures { RunsStampInTime }
{}

/// No transition with a delay awaits an interaction, where no rule is broken.
#[tactic(auto, using(crate::proofs::GoodDelays::good_delays_await_nothing))]
pub fn good_delays_await_nothing()
    ensures { GoodDelaysAwaitNothing }
{}

/// In each situation of a run stamps stand exactly where transitions with a delay are enabled.
#[tactic(auto, using(crate::proofs::OrderlyRuns::runs_have_their_stamps))]
pub fn runs_have_their_stamps()
    ensures { RunsHaveTheirStamps }
{}
