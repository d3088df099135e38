//! Laws of grammars in general.

ghost use Rattle.text_reader.specs.TreeLaws.{AtMostOneBadPlace, AtMostOneTree, FrontsOfTree};
ghost use Rattle.text_reader.specs.TreeLaws.{FrontsOfPartial, PlacesLieWithin, LeavesAreTokens};
ghost use Rattle.text_reader.specs.TreeLaws.{OpenersAreTold, TreesTakeTokens, TurnsTakeTokens};
ghost use Rattle.text_reader.specs.TreeLaws.{SameTrees, SameCauses, RefusalsStay};

/// A list of tokens has at most one first bad place.
pub fn one_bad_place<Token, Value, Test, Production>()
    ensures { AtMostOneBadPlace Token Value Test Production }
{}

/// A sentence has no first bad place: each of its beginnings has a partial tree.
pub fn beginnings<Token, Value, Test, Production>()
    ensures of_tree { FrontsOfTree Token Value Test Production }
    ensures of_partial { FrontsOfPartial Token Value Test Production }
{}

/// A list of tokens has at most one tree by a grammar of which one token decides each choice.
pub fn one_tree<Token, Value, Test, Production>()
    ensures { AtMostOneTree Token Value Test Production }
{}

/// The places that a tree keeps lie within it.
pub fn places_lie_within<Token, Value, Test, Production>()
    ensures { PlacesLieWithin Token Value Test Production }
{}

/// Each token that a tree keeps is one of those that it takes.
pub fn leaves_are_tokens<Token, Value, Test, Production>()
    ensures { LeavesAreTokens Token Value Test Production }
{}

/// A tree by a grammar that cannot be empty takes a token, and so does each turn of a repetition.
pub fn trees_take_tokens<Token, Value, Test, Production>()
    ensures trees { TreesTakeTokens Token Value Test Production }
    ensures turns { TurnsTakeTokens Token Value Test Production }
{}

/// A token that opens one level more than there are stands after a partial tree with these levels,
/// and ends one with one level more.
pub fn openers_are_told<Token, Value, Test, Production>()
    ensures { OpenersAreTold Token Value Test Production }
{}

/// Trees and first bad places depend on nothing but what tests and trees tell of the tokens; and a
/// token that is refused is so whatever stands after it.
pub fn same_tokens<Token, Value, Test, Production>()
    ensures trees { SameTrees Token Value Test Production }
    ensures causes { SameCauses Token Value Test Production }
    ensures stay { RefusalsStay Token Value Test Production }
{}
