//! What holds of all that is evaluated.
ghost use Rattle.mean_blocks.specs.KeepingLaws.{StatementsOfFunctionsAreSilent};
ghost use Rattle.mean_blocks.specs.KeepingLaws.{FunctionsAreSilent, SituationsGoOver};
ghost use Rattle.mean_blocks.specs.KeepingLaws.{PeersStayMutual};
ghost use Rattle.mean_blocks.specs.ListLaws.{ExpressionsOfRows, StatementsOfRows};
ghost use Rattle.mean_blocks.specs.PlaceWrites.{FramesHaveWhatIsWritten, FramesKeepOtherNames};
ghost use Rattle.mean_blocks.specs.PlaceWrites.{ChangedRowsAreFound, OtherRowsStay};
ghost use Rattle.mean_blocks.specs.SetOperators.{CommonMembersAreInBoth, OthersAreInTheFirst};
ghost use Rattle.mean_blocks.specs.SightLaws.{ExpressionsSeeRows, VariablesSeeRows};
ghost use Rattle.mean_blocks.specs.StartMeaning.{StartsAreOrderly};
ghost use Rattle.mean_blocks.specs.TakenValues.{VariablesBeginUndefined, FittingValuesAreTaken};
ghost use Rattle.mean_blocks.specs.TakenValues.{UndefinedValuesAreOne, TakenOrdinalsFit};

/// A function changes no situation and sends nothing.
pub fn functions_are_silent()
    ensures statements { StatementsOfFunctionsAreSilent }
    ensures blocks { FunctionsAreSilent }
{}

/// Of a situation, expressions see the rows alone.
pub fn expressions_see_rows()
    ensures values { ExpressionsSeeRows }
    ensures variables { VariablesSeeRows }
{}

/// No time passes in a block; the numbers of instances ascend, and none is used again.
#[tactic(auto, using(crate::proofs::NumbersAscend::situations_go_over))]
pub fn situations_go_over()
    ensures { SituationsGoOver }
{}

/// A variable begins with the undefined value of its kind.
#[tactic(auto, using(crate::proofs::UndefinedVariables::begins_undefined))]
pub fn variables_begin_undefined()
    ensures { VariablesBeginUndefined }
{}

/// There is one undefined value of a kind.
#[tactic(auto, using(crate::proofs::UndefinedUnique::undefined_unique))]
pub fn undefined_values_are_one()
    ensures { UndefinedValuesAreOne }
{}

/// A variable takes each value that fits its kind.
#[tactic(auto, using(crate::proofs::FittingTaken::fitting_taken))]
pub fn fitting_values_are_taken()
    ensures { FittingValuesAreTaken }
{}

/// What a variable takes of an ordinal fits its kind.
#[tactic(auto, using(crate::proofs::FittingTaken::taken_fit))]
pub fn taken_values_fit()
    ensures { TakenOrdinalsFit }
{}

/// Connections lead both ways after a block where they did before.
#[tactic(auto, using(crate::proofs::MutualPeers::peers_stay_mutual))]
pub fn peers_stay_mutual()
    ensures { PeersStayMutual }
{}

/// A system begins at the clock 0; its instances ascend in number, and connections lead both ways.
pub fn starts_are_orderly()
    ensures { StartsAreOrderly }
{}

/// An intersection has the members of both sets, a difference those of the first alone.
pub fn sets_have_their_members()
    ensures both { CommonMembersAreInBoth }
    ensures first { OthersAreInTheFirst }
{}

/// A frame has what is written, and what it had under other names.
pub fn frames_keep_other_names()
    ensures written { FramesHaveWhatIsWritten }
    ensures others { FramesKeepOtherNames }
{}

/// A row is found as it is changed, and those of other instances as they were.
pub fn other_rows_stay()
    ensures changed { ChangedRowsAreFound }
    ensures others { OtherRowsStay }
{}

/// What is evaluated of the rows of a tree is what is evaluated of their lists.
#[tactic(auto, using(crate::proofs::RowsAndLists::expressions_of_rows, crate::proofs::RowsAndLists::statements_of_rows))]
pub fn lists_are_rows()
    ensures expressions { ExpressionsOfRows }
    ensures statements { StatementsOfRows }
{}
