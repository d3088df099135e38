//! Laws of replays. Each function does nothing; its clause is the law.
ghost use Rattle.est_explanation.specs.Replay.{OneAnswer, ClaimsBeyondAskAll};

/// An explanation has one answer at most.
pub fn one_answer()
    ensures { OneAnswer }
{}

/// A claim above the number of the trace's events asks for all events after the last move.
pub fn claims_beyond_ask_all()
    ensures { ClaimsBeyondAskAll }
{}
