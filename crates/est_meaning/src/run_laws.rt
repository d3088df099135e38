//! Laws of runs. Each function does nothing; its clause is the law.
ghost use Rattle.est_meaning.specs.RunLaws.{RunsAreUnique, BoundedRunsBeginBounded};
ghost use Rattle.est_meaning.specs.RunLaws.{BoundedMeansFewInARow, AgreementIsOneByOne};
ghost use Rattle.est_meaning.specs.RunLaws.{YieldsAllBelow, RunOrderIsStrictTotal};
ghost use Rattle.est_meaning.specs.RunLaws.{ClockStaysBounded, RowsAreInOrder};

/// A run leads to one situation and one list of events.
pub fn runs_are_unique()
    ensures { RunsAreUnique }
{}

/// What a bounded run begins with is a bounded run.
pub fn bounded_runs_begin_bounded()
    ensures { BoundedRunsBeginBounded }
{}

/// A run is bounded just where nowhere too many moves in a row are silent firings.
pub fn bounded_runs_have_few_silent_in_a_row()
    ensures { BoundedMeansFewInARow }
{}

/// Known events agree with themselves alone, one by one: with the first of a list as many agree as
/// its front has, and joined lists agree part by part.
pub fn events_agree_one_by_one()
    ensures { AgreementIsOneByOne }
{}

/// A run yields each number below one that it yields.
pub fn yields_all_below()
    ensures { YieldsAllBelow }
{}

/// Of two different runs one comes before the other.
pub fn run_order_is_strict_total()
    ensures { RunOrderIsStrictTotal }
{}

/// No trace within its limits breaks the bound of the clock.
pub fn clock_stays_bounded()
    ensures { ClockStaysBounded }
{}

/// In each situation of a run the numbers of instances ascend, and connections lead both ways.
pub fn rows_are_in_order()
    ensures { RowsAreInOrder }
{}
