//! Laws of what is made. Each function does nothing; its clause is the law.
ghost use Rattle.run_make.specs.Recipe.{MadeTracesAreExplained, OneIsMade};

/// A trace that is made is explained by the run that is made with it, which is bounded.
pub fn made_traces_are_explained()
    ensures { MadeTracesAreExplained }
{}

/// Of one specification, one seed and one number of events one thing is made.
pub fn one_is_made()
    ensures { OneIsMade }
{}
