//! What the words of a call of advice ask for.

use call_files::words::{Command, read_words};
use est_meaning::run::Limits;
use std::alloc::{AllocError, Global};

/// What is asked of a good specification and a good trace: nothing, why a replay of an explanation
/// rejects it, or what could stand in place of the event at which the trace is refused.
#[derive(Clone, Copy)]
pub(crate) enum Then<'w> {
    Nothing,
    Replayed {
        explanation: &'w str,
        limits: Limits,
    },
    Explained {
        limits: Limits,
    },
}

/// What advice is asked for: what is wrong with the texts of files, of which each but the first is
/// looked at where those before it are good; or warnings of a good specification.
#[derive(Clone, Copy)]
pub(crate) enum Asked<'w> {
    Refusals {
        specification: &'w str,
        trace: Option<&'w str>,
        then: Then<'w>,
    },
    Warnings {
        specification: &'w str,
    },
}

/// What words ask for: `advise` with the files of a specification, a trace and an explanation, of
/// which the last ones may be missing and after which the limits of a replay may stand; `next` with
/// the files of a specification and a trace, after which the limits of a search may stand; or
/// `warn` with the file of a specification.
pub(crate) fn asked_of(alloc: Global, words: &[String]) -> Result<Option<Asked<'_>>, AllocError> {
    let [command, specification, rest @ ..] = words else {
        return Ok(None);
    };
    match command.as_str() {
        "advise" => advised_of(alloc, specification.as_str(), rest),
        "next" => next_of(alloc, specification.as_str(), rest),
        "warn" => Ok(warnings_of(specification.as_str(), rest)),
        _ => Ok(None),
    }
}

// The limits that the words of a call would have with these, if they are some.
fn limits_of(
    alloc: Global,
    call: &[&str],
    numbers: &[String],
) -> Result<Option<Limits>, AllocError> {
    let mut words = Vec::new(alloc);
    for word in call {
        words.push(String::from_str(alloc, word)?)?;
    }
    for number in numbers {
        words.push(String::from_str(alloc, number)?)?;
    }
    match read_words(&words) {
        Ok(Command::Replay { limits }) => Ok(Some(limits)),
        Ok(Command::Explain { limits }) => Ok(Some(limits)),
        _ => Ok(None),
    }
}

// What `advise` asks for with a specification and these words.
fn advised_of<'w>(
    alloc: Global,
    specification: &'w str,
    rest: &'w [String],
) -> Result<Option<Asked<'w>>, AllocError> {
    let (trace, then) = match rest {
        [] => (None, Then::Nothing),
        [trace] => (Some(trace.as_str()), Then::Nothing),
        [trace, explanation, numbers @ ..] => {
            let call = &["replay", "-", "-", "-"];
            let Some(limits) = limits_of(alloc, call, numbers)? else {
                return Ok(None);
            };
            let explanation = explanation.as_str();
            (
                Some(trace.as_str()),
                Then::Replayed {
                    explanation,
                    limits,
                },
            )
        }
    };
    Ok(Some(Asked::Refusals {
        specification,
        trace,
        then,
    }))
}

// What `next` asks for with a specification and these words.
fn next_of<'w>(
    alloc: Global,
    specification: &'w str,
    rest: &'w [String],
) -> Result<Option<Asked<'w>>, AllocError> {
    let [trace, numbers @ ..] = rest else {
        return Ok(None);
    };
    let Some(limits) = limits_of(alloc, &["explain", "-", "-"], numbers)? else {
        return Ok(None);
    };
    Ok(Some(Asked::Refusals {
        specification,
        trace: Some(trace.as_str()),
        then: Then::Explained { limits },
    }))
}

// What `warn` asks for with a specification and these words.
fn warnings_of<'w>(specification: &'w str, rest: &'w [String]) -> Option<Asked<'w>> {
    if rest.is_empty() {
        Some(Asked::Warnings { specification })
    } else {
        None
    }
}
