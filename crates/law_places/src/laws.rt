//! What holds of the trees of sentences, and of their outlines.
ghost use Rattle.law_places.specs.ClosedSaid.{RoutinesAreClosed};
ghost use Rattle.law_places.specs.Grown.{OutlinesGrow};
ghost use Rattle.law_places.specs.Later.{MeaningsStay};
ghost use Rattle.law_places.specs.PlacesAscend.{PlacesAscend};
ghost use Rattle.law_places.specs.Said.{DeclarationsAreSaid};
ghost use Rattle.law_places.specs.Staying.{LaterIsInOrder, GrownIsLater, ConstantsStay, TextsStay};
ghost use Rattle.law_places.specs.Staying.{DimensionsStay};

/// What the specification of a sentence shows stands in order from its first token to its end.
pub fn places_ascend()
    ensures { PlacesAscend }
{}

/// The outline of a specification that stands in order is declared from its first place to its
/// last.
pub fn outlines_grow()
    ensures { OutlinesGrow }
{}

/// An outline is later than itself, and what is later than a later one is later. What has grown
/// from a place on is later for what stands before that place.
pub fn grown_is_later()
    ensures order { LaterIsInOrder }
    ensures grown { GrownIsLater }
{}

/// A name means in a later outline the declaration, the value and the type that it means in this
/// one. So do constants, the texts of types and dimensions.
pub fn meanings_stay()
    ensures names { MeaningsStay }
    ensures constants { ConstantsStay }
    ensures texts { TextsStay }
    ensures dimensions { DimensionsStay }
{}

/// What is declared in a specification that stands in order is what its whole outline says of it:
/// each constant has its value there, each type its kind, and so on.
pub fn declarations_are_said()
    ensures { DeclarationsAreSaid }
{}

/// A routine of a specification that stands in order is closed just where its whole outline says so
/// of the routine's text.
pub fn routines_are_closed()
    ensures { RoutinesAreClosed }
{}
