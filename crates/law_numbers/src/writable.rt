//! What is reported of a sentence that breaks no rule can be written and read. Each function does
//! nothing; its clauses are the laws.
ghost use Rattle.law_numbers.specs.ShortReports.{ReportsAreShort};
ghost use Rattle.law_numbers.specs.WritableLaws.{InstancesAreFew, TransitionsAreFew};
ghost use Rattle.law_numbers.specs.WritableLaws.{AnysHaveTheirNames, ChoicesAreFew};
ghost use Rattle.law_numbers.specs.WritableLaws.{FiringsAreWritable, RunsAreWritable};
ghost use Rattle.law_numbers.specs.WritableLaws.{VerdictsAreReadable, PortsVerdictsAreReadable};

/// No instance of a run has a number above 999,999,999.
pub fn instances_are_few()
    ensures { InstancesAreFew }
{}

/// No body of a sentence has more transitions than the sentence has tokens.
pub fn transitions_are_few()
    ensures { TransitionsAreFew }
{}

/// In the region of each `any` of a sentence stand the names that its text declares, and no others.
pub fn anys_have_their_names()
    ensures { AnysHaveTheirNames }
{}

/// No transition of a sentence that breaks no rule has more choices than the rules allow.
pub fn choices_are_few()
    ensures { ChoicesAreFew }
{}

/// What is possible after a run of a sentence that breaks no rule has numbers that an explanation
/// may have, and so have all moves of the run.
pub fn runs_are_writable()
    ensures firings { FiringsAreWritable }
    ensures moves { RunsAreWritable }
{}

/// So have verdicts on such a sentence.
pub fn verdicts_are_readable()
    ensures { VerdictsAreReadable }
{}

/// So have verdicts along one trace for each port.
pub fn ports_verdicts_are_readable()
    ensures { PortsVerdictsAreReadable }
{}

/// The report of a verdict within a budget that words can ask for is no longer than an explanation
/// may be.
pub fn reports_are_short()
    ensures { ReportsAreShort }
{}
