//! Laws of calls. Each function does nothing; its clause is the law.
ghost use Rattle.law_calls.specs.CallLaws.{OneRequest, OneResult};
ghost use Rattle.law_calls.specs.Completeness.{CheckIsComplete, PrintIsComplete};
ghost use Rattle.law_calls.specs.Completeness.{ReplayIsComplete, SearchIsComplete};
ghost use Rattle.law_calls.specs.Completeness.{SelfRunIsComplete};

/// Words ask for one thing at most.
pub fn one_request()
    ensures { OneRequest }
{}

/// What a call reports, and with which status, is determined by its words and the bytes that it is
/// told of its files. It says nothing of a call that ends without a report, nor of a search along
/// one trace for each port (`ports::ports_results_agree`).
pub fn one_result()
    ensures { OneResult }
{}

/// Of a good specification a check tells its numbers, unless memory runs out.
pub fn check_is_complete()
    ensures { CheckIsComplete }
{}

/// Of a good specification the call that prints it writes its printed text, unless memory runs out.
pub fn print_is_complete()
    ensures { PrintIsComplete }
{}

/// Of good texts whose start is ready a search tells a verdict, unless memory runs out; and where
/// its limits suffice, this is whether a run explains the trace.
pub fn search_is_complete()
    ensures { SearchIsComplete }
{}

/// Of good texts a replay tells its answer, unless memory runs out; and where the start is ready,
/// this is whether the moves are a bounded run that yields the claim.
pub fn replay_is_complete()
    ensures { ReplayIsComplete }
{}

/// Of a good specification the call that makes a trace tells what is made, unless memory runs out.
pub fn self_run_is_complete()
    ensures { SelfRunIsComplete }
{}
