//! Values fit the kinds of what holds them.
ghost use Rattle.law_values.specs.HostsOfForms.{HostsAreThoseOfRules};
ghost use Rattle.law_values.specs.SetMembers.{UnitedMembersAreInEither, SpansAddTheirMembers};
ghost use Rattle.law_values.specs.SoundnessLaws.{AlikeKindsHaveOneValue, ExpressionsFit};
ghost use Rattle.law_values.specs.SoundnessLaws.{StartsFit, FiringsFit, EventsFit, RunsFit};
ghost use Rattle.law_values.specs.SoundnessLaws.{ExplainedTracesAreAllowed};

/// A value that fits a kind fits each one that is alike.
#[tactic(auto, using(crate::proofs::SameKinds::alike_fit))]
pub fn alike_kinds_have_one_value()
    ensures { AlikeKindsHaveOneValue }
{}

/// What an expression yields in a situation that fits is of its type.
#[tactic(auto, using(crate::proofs::FittingRuns::expressions_fit))]
pub fn expressions_fit()
    ensures { ExpressionsFit }
{}

/// Where an expression yields an ordinal by the rules, its host by form is the host of that.
#[tactic(auto, using(crate::proofs::HostsByForm::hosts_by_rules))]
pub fn hosts_are_those_of_rules()
    ensures { HostsAreThoseOfRules }
{}

/// A union has the members of either set, and a span adds those between its ends.
#[tactic(auto, using(crate::proofs::JoinedSets::united_members, crate::proofs::JoinedSets::span_members))]
pub fn joined_sets_have_their_members()
    ensures either { UnitedMembersAreInEither }
    ensures spans { SpansAddTheirMembers }
{}

/// After the start, after each firing, and after what the outside does, values fit the kinds of
/// what holds them; what leaves may stand in a trace.
pub fn steps_fit()
    ensures starts { StartsFit }
    ensures firings { FiringsFit }
    ensures events { EventsFit }
{}

/// So it is in each run, and the events of a run that explains a trace are allowed where what comes
/// from outside is.
pub fn runs_fit()
    ensures situations { RunsFit }
    ensures traces { ExplainedTracesAreAllowed }
{}
