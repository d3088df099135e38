//! What holds of choices, steps and starts.
ghost use Rattle.est_meaning.specs.ClauseContexts.{ContextsAreThoseOfTheRules};
ghost use Rattle.est_meaning.specs.ClauseContexts.{ContextsHaveOneOfEach, DelaysStandAlone};
ghost use Rattle.est_meaning.specs.SelectionLaws.{OneChoiceWithoutAny, DueIsOfferedIsEnabled};
ghost use Rattle.est_meaning.specs.SelectionLaws.{EnabledPassesNoLimit, EnabledHasItsClauses};
ghost use Rattle.est_meaning.specs.SelectionLaws.{PrioritiesAreStrict, PossibleMeansSettled};
ghost use Rattle.est_meaning.specs.SelectionLaws.{OnlyDueStops, StepsAreUnique};
ghost use Rattle.est_meaning.specs.SelectionLaws.{FiringsAreOrderly, NextStateIsSet};
ghost use Rattle.est_meaning.specs.SelectionLaws.{StartsBeginInOrder};
ghost use Rattle.est_meaning.specs.SelectionLaws.{EventsAreOutside, PortsGoBothWays};
ghost use Rattle.est_meaning.specs.SelectionLaws.{EventsSettleNothing, PortsAreOfTheRoot};
ghost use Rattle.est_meaning.specs.SelectionLaws.{OnlyDeparturesCome};
ghost use Rattle.est_meaning.specs.SelectionLaws.{StampsStandWhereEnabled, StampsAreOfTheirTime};
ghost use Rattle.est_meaning.specs.SelectionLaws.{StampsOfOthersStay};

/// The clauses of a transition are those by which the rules go.
#[tactic(auto, using(crate::proofs::Contexts::contexts_are_those_of_the_rules))]
pub fn contexts_are_those_of_the_rules()
    ensures { ContextsAreThoseOfTheRules }
{}

/// A transition has one clause of a kind at most.
#[tactic(auto, using(crate::proofs::Contexts::contexts_have_one_of_each))]
pub fn contexts_have_one_of_each()
    ensures { ContextsHaveOneOfEach }
{}

/// A transition with a delay that breaks no rule has no `when` and no `any`.
#[tactic(auto, using(crate::proofs::Contexts::delays_stand_alone))]
pub fn delays_stand_alone()
    ensures { DelaysStandAlone }
{}

/// Where a transition has no `any` variables, its one choice is 1.
pub fn one_choice_without_any()
    ensures { OneChoiceWithoutAny }
{}

/// What is due is offered, and what is offered is enabled.
#[tactic(auto, using(crate::proofs::Guards::due_is_offered_is_enabled))]
pub fn due_is_offered_is_enabled()
    ensures { DueIsOfferedIsEnabled }
{}

/// Of a choice that is enabled no part of the guard passes its limit.
#[tactic(auto, using(crate::proofs::Guards::enabled_passes_none))]
pub fn enabled_passes_no_limit()
    ensures { EnabledPassesNoLimit }
{}

/// The `from` of an enabled choice holds, and what it awaits is there and is taken.
#[tactic(auto, using(crate::proofs::Taken::enabled_has_its_clauses))]
pub fn enabled_has_its_clauses()
    ensures { EnabledHasItsClauses }
{}

/// Priorities are in a strict order.
pub fn priorities_are_strict()
    ensures { PrioritiesAreStrict }
{}

/// Only in a settled situation is a firing possible.
#[tactic(auto, using(crate::proofs::Steps::possible_settled))]
pub fn possible_means_settled()
    ensures { PossibleMeansSettled }
{}

/// Only what is due stops a firing: of its own instance with a higher priority, or of one above.
#[tactic(auto, using(crate::proofs::Steps::only_due_stops))]
pub fn only_due_stops()
    ensures { OnlyDueStops }
{}

/// A firing is a step in one way at most.
#[tactic(auto, using(crate::proofs::Steps::steps_unique))]
pub fn steps_are_unique()
    ensures { StepsAreUnique }
{}

/// No time passes in a firing; the numbers of instances ascend, and none is used again;
/// connections lead both ways where they did before.
#[tactic(auto, using(crate::proofs::Steps::firings_are_orderly))]
pub fn firings_are_orderly()
    ensures { FiringsAreOrderly }
{}

/// In a start and in a firing interactions leave, and nothing arrives and no time passes.
#[tactic(auto, using(crate::proofs::Steps::only_departures))]
pub fn only_departures_come()
    ensures { OnlyDeparturesCome }
{}

/// After a firing its instance is in the state that the transition names.
#[tactic(auto, using(crate::proofs::Steps::next_state_set))]
pub fn next_state_is_set()
    ensures { NextStateIsSet }
{}

/// A system begins at the clock 0; its instances ascend in number, and connections lead both ways.
#[tactic(auto, using(crate::proofs::Steps::starts_begin_in_order))]
pub fn starts_begin_in_order()
    ensures { StartsBeginInOrder }
{}

/// An event adds its units to the clock, and changes no instance, link or stamp.
#[tactic(auto, using(crate::proofs::Outside::events_are_outside))]
pub fn events_are_outside()
    ensures { EventsAreOutside }
{}

/// A situation that is not settled is not settled by an event.
#[tactic(auto, using(crate::proofs::Unsettled::events_settle_nothing))]
pub fn events_settle_nothing()
    ensures { EventsSettleNothing }
{}

/// Ports are interaction points of the root.
#[tactic(auto, using(crate::proofs::Outside::ports_of_the_root))]
pub fn ports_are_of_the_root()
    ensures { PortsAreOfTheRoot }
{}

/// The numbers by which an interaction leaves are those by which it would arrive.
#[tactic(auto, using(crate::proofs::Outside::ports_go_both_ways))]
pub fn ports_go_both_ways()
    ensures { PortsGoBothWays }
{}

/// A stamp stands exactly where a transition with a delay is enabled.
#[tactic(auto, using(crate::proofs::Stamps::stamps_stand))]
pub fn stamps_stand_where_enabled()
    ensures { StampsStandWhereEnabled }
{}

/// A stamp after a firing is the clock, or stood before.
#[tactic(auto, using(crate::proofs::StampTimes::stamps_are_of_their_time))]
pub fn stamps_are_of_their_time()
    ensures { StampsAreOfTheirTime }
{}

/// A transition that was and stays enabled keeps its stamp, whatever else fired.
#[tactic(auto, using(crate::proofs::StampTimes::stamps_of_others_stay))]
pub fn stamps_of_others_stay()
    ensures { StampsOfOthersStay }
{}
