//! A declaration that breaks no rule has all that its sort asks for.
ghost use Rattle.law_sentences.specs.FullDeclarations.{WhatIsInForceIsFull, PlaceByPlace};
ghost use Rattle.law_sentences.specs.FullDeclarations.{MeaningsAreKnown, UsesAreSeen};
ghost use Rattle.law_sentences.specs.FullDeclarations.{ConstantsAreFull, TextsAreFull};
ghost use Rattle.law_sentences.specs.FullDeclarations.{ShortTypesAreFull, DimsAreFull};
ghost use Rattle.law_sentences.specs.FullDeclarations.{ConstantDefinitionsAreFull};
ghost use Rattle.law_sentences.specs.FullDeclarations.{ConstantDefinitionsAreFullInTime};
ghost use Rattle.law_sentences.specs.FullDeclarations.{NumberedConstantsAreFull};
ghost use Rattle.law_sentences.specs.FullDeclarations.{TypeDefinitionsAreFull};
ghost use Rattle.law_sentences.specs.FullDeclarations.{TypeDefinitionsAreFullInTime};
ghost use Rattle.law_sentences.specs.FullDeclarations.{VariableDeclarationsAreFull};
ghost use Rattle.law_sentences.specs.FullDeclarations.{ParametersAreFull, ExportsAreFull};
ghost use Rattle.law_sentences.specs.FullDeclarations.{PointsAreFull, ModuleVariablesAreFull};
ghost use Rattle.law_sentences.specs.FullDeclarations.{FormalsAreFull, FunctionsAreFull};
ghost use Rattle.law_sentences.specs.FullDeclarations.{BodiesAreFull, StateSetsAreFull};
ghost use Rattle.law_sentences.specs.FullOutlines.{OutlinesAreFull};
ghost use Rattle.law_sentences.specs.FullSentences.{SentencesAreWritten, SentencesAreFull};

/// Where the declarations to a place are full, those that are in force before it are.
pub fn what_is_in_force_is_full()
    ensures { WhatIsInForceIsFull }
{}

/// Where each constant and each type is full as soon as those in force at its last place are, all
/// that are in force are full.
pub fn place_by_place()
    ensures { PlaceByPlace }
{}

/// A use that breaks nothing means what is predeclared, or a declaration that is seen.
#[tactic(auto, using(crate::proofs::SeenUses::meaning_known))]
pub fn meanings_are_known()
    ensures { MeaningsAreKnown }
{}

/// A name whose use as a sort breaks nothing means a declaration of that sort.
#[tactic(auto, using(crate::proofs::SeenUses::use_seen))]
pub fn uses_are_seen()
    ensures { UsesAreSeen }
{}

/// A constant that breaks no rule has a value.
pub fn constants_are_full()
    ensures { ConstantsAreFull }
{}

/// The text of a type that breaks no rule has a kind.
pub fn texts_are_full()
    ensures { TextsAreFull }
{}

/// A name or a range that breaks no rule as a type has a kind.
pub fn short_types_are_full()
    ensures { ShortTypesAreFull }
{}

/// Dims that break no rule have kinds.
#[tactic(auto, using(crate::proofs::Declarations::dims_full))]
pub fn dims_are_full()
    ensures { DimsAreFull }
{}

/// A constant with the value that the outline gives it is full.
#[tactic(auto, using(crate::proofs::Declarations::constant_definition_full))]
pub fn constant_definitions_are_full()
    ensures { ConstantDefinitionsAreFull }
{}

/// The same, where those are full that are in force at its last place or before it.
#[tactic(auto, using(crate::proofs::Declarations::constant_definition_in_time))]
pub fn constant_definitions_are_full_in_time()
    ensures { ConstantDefinitionsAreFullInTime }
{}

/// A constant of an enumeration with the kind and the number that the outline gives it is full.
pub fn numbered_constants_are_full()
    ensures { NumberedConstantsAreFull }
{}

/// A type with the kind that the outline gives it is full.
#[tactic(auto, using(crate::proofs::Declarations::type_definition_full))]
pub fn type_definitions_are_full()
    ensures { TypeDefinitionsAreFull }
{}

/// The same, where those are full that are in force at its last place or before it.
#[tactic(auto, using(crate::proofs::Declarations::type_definition_in_time))]
pub fn type_definitions_are_full_in_time()
    ensures { TypeDefinitionsAreFullInTime }
{}

/// A variable with the kind that the outline gives it is full.
#[tactic(auto, using(crate::proofs::Declarations::variable_full))]
pub fn variable_declarations_are_full()
    ensures { VariableDeclarationsAreFull }
{}

/// A parameter, or a name of an `any`, with the kind that the outline gives it is full.
#[tactic(auto, using(crate::proofs::Declarations::parameter_full))]
pub fn parameters_are_full()
    ensures { ParametersAreFull }
{}

/// An export with the kind that the outline gives it is full.
#[tactic(auto, using(crate::proofs::Declarations::export_full))]
pub fn exports_are_full()
    ensures { ExportsAreFull }
{}

/// An interaction point with the subscripts and the side that the outline gives it is full.
#[tactic(auto, using(crate::proofs::Declarations::point_full))]
pub fn points_are_full()
    ensures { PointsAreFull }
{}

/// A module variable with the subscripts and the header that the outline gives it is full.
#[tactic(auto, using(crate::proofs::Declarations::module_variable_full))]
pub fn module_variables_are_full()
    ensures { ModuleVariablesAreFull }
{}

/// A formal with the kind that the outline gives it is full.
#[tactic(auto, using(crate::proofs::Declarations::formal_full))]
pub fn formals_are_full()
    ensures { FormalsAreFull }
{}

/// A function with the kind that the outline gives its result is full.
#[tactic(auto, using(crate::proofs::Declarations::function_full))]
pub fn functions_are_full()
    ensures { FunctionsAreFull }
{}

/// A state set that breaks no rule has the place of each state that it names.
#[tactic(auto, using(crate::proofs::StateSets::state_set_full))]
pub fn state_sets_are_full()
    ensures { StateSetsAreFull }
{}

/// A body with the header that the outline gives it is full.
#[tactic(auto, using(crate::proofs::Declarations::body_full))]
pub fn bodies_are_full()
    ensures { BodiesAreFull }
{}

/// Where the outline of a specification that breaks no rule has of each declaration what it says of
/// it as a whole, and the declarations are written as sentences have them, each is full.
#[tactic(auto, using(crate::proofs::Parts::outline_full))]
pub fn outlines_are_full()
    ensures { OutlinesAreFull }
{}

/// The declarations of a sentence are written as the laws above ask for.
pub fn sentences_are_written()
    ensures { SentencesAreWritten }
{}

/// Where a sentence breaks no rule, and its outline has of each declaration what it says of it as a
/// whole, each declaration is full.
pub fn sentences_are_full()
    ensures { SentencesAreFull }
{}
