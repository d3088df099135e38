//! Laws of verdicts. Each function does nothing; its clause is the law.
ghost use Rattle.est_search.specs.Verdict.{VerdictIsUnique};

/// No two verdicts hold.
pub fn one_verdict()
    ensures { VerdictIsUnique }
{}
