//! The words that the program is called with.
ghost use Rattle.std.specs.Prelude.{◌≡◌, ℕ, IfOk, IfSome, MatchOption, OnErr, codes};
ghost use Rattle.call_files.specs.Requests.{AreLimits, AreRecipe, AreSearchLimits, AsksNothing};
ghost use Rattle.call_files.specs.Requests.{IsCommand, IsNumber, bytes_of, usual_budget};
ghost use Rattle.call_files.specs.inside.CommandWords.{AreOfSearch, BeginForFile, BeginWith};

use est_meaning::run::Limits;

/// The limits where no words say others.
pub const USUAL: Limits = Limits {
    silent: 8,
    budget: 1_000_000,
    statements: 10_000,
};

// The most silent firings in a row that words can ask for.
const MOST_SILENT: u32 = 1000;

// The most firings, or moves, to be tried that words can ask for.
const MOST_BUDGET: u32 = 4_000_000;

// The most statements of a block or guard that words can ask for.
const MOST_STATEMENTS: u32 = 1_000_000;

// The most events that words can ask to be made.
const MOST_MADE: u32 = 100_000;

/// What the words ask for.
#[derive(Clone, Copy)]
pub enum Command {
    /// To check the specification in the file that the word after `check` names.
    Check,
    /// To print the specification in the file that the word after `print` names.
    Print,
    /// To explain a trace. The words after `explain` name the files of the specification and the
    /// trace.
    Explain { limits: Limits },
    /// To replay an explanation of a trace. The words after `replay` name the files of the
    /// specification, the trace and the explanation.
    Replay { limits: Limits },
    /// To make a trace of a specification from a seed, until it has so many events, and to explain
    /// it. The word after `selfrun` names the file of the specification.
    SelfRun { seed: u64, count: u32 },
    /// To explain one trace for each port. The words after `ports` name the files of the specification
    /// and the lists.
    Ports { limits: Limits },
    /// To watch a trace while it is recorded: its events are read from the standard input. The word
    /// after `watch` names the file of the specification.
    Watch { limits: Limits },
}

/// The words ask for nothing that the program does.
#[derive(Clone, Copy, PartialEq, Eq)]
pub struct BadUsage;

/// Reads the words after the name of the program.
pub fn read_words(words: &[String]) -> Result<Command, BadUsage>
    ensures asked { IfOk result (IsCommand words.now) }
    ensures refused { OnErr result (AsksNothing words.now) }
{
    match words {
        [command, ..] if command.as_str() == "check" => read_file(words, Command::Check),
        [command, ..] if command.as_str() == "print" => read_file(words, Command::Print),
        [command, ..] if command.as_str() == "explain" => read_explain(words),
        [command, ..] if command.as_str() == "replay" => read_replay(words),
        [command, ..] if command.as_str() == "selfrun" => read_self_run(words),
        [command, ..] if command.as_str() == "ports" => read_ports(words),
        [command, ..] if command.as_str() == "watch" => read_watch(words),
        _ => Err(BadUsage),
    }
}

// Reads the words of a command that is for one file alone.
fn read_file(words: &[String], command: Command) -> Result<Command, BadUsage>
    requires { BeginForFile command words.now }
    ensures asked { IfOk result (IsCommand words.now) }
    ensures refused { OnErr result (AsksNothing words.now) }
{
    match words {
        [_, specification] if !specification.is_empty() => Ok(command),
        _ => Err(BadUsage),
    }
}

// Reads the words of a search for an explanation.
fn read_explain(words: &[String]) -> Result<Command, BadUsage>
    requires { BeginWith (codes "explain") words.now }
    ensures asked { IfOk result (IsCommand words.now) }
    ensures refused { OnErr result (AsksNothing words.now) }
{
    match read_search(words) {
        Some(limits) => Ok(Command::Explain { limits }),
        None => Err(BadUsage),
    }
}

// Reads the words of a search along one trace for each port.
fn read_ports(words: &[String]) -> Result<Command, BadUsage>
    requires { BeginWith (codes "ports") words.now }
    ensures asked { IfOk result (IsCommand words.now) }
    ensures refused { OnErr result (AsksNothing words.now) }
{
    match read_search(words) {
        Some(limits) => Ok(Command::Ports { limits }),
        None => Err(BadUsage),
    }
}

// Reads the words of a search after its first one: two files, and limits.
fn read_search(words: &[String]) -> Option<Limits>
    ensures { MatchOption result
        ((silent budget statements : ℕ) → AreOfSearch words.now silent budget statements → ⊥)
        (λ limits. AreOfSearch words.now limits.silent limits.budget limits.statements) }
{
    match words {
        [_, specification, searched, limits @ ..]
            if !specification.is_empty() && !searched.is_empty() => read_search_limits(limits),
        _ => None,
    }
}

// Reads the words of a trace that is watched: one file, and limits.
fn read_watch(words: &[String]) -> Result<Command, BadUsage>
    requires { BeginWith (codes "watch") words.now }
    ensures asked { IfOk result (IsCommand words.now) }
    ensures refused { OnErr result (AsksNothing words.now) }
{
    match words {
        [_, specification, limits @ ..] if !specification.is_empty() => {
            match read_search_limits(limits) {
                Some(limits) => Ok(Command::Watch { limits }),
                None => Err(BadUsage),
            }
        }
        _ => Err(BadUsage),
    }
}

// Reads the words of a replay.
fn read_replay(words: &[String]) -> Result<Command, BadUsage>
    requires { BeginWith (codes "replay") words.now }
    ensures asked { IfOk result (IsCommand words.now) }
    ensures refused { OnErr result (AsksNothing words.now) }
{
    match words {
        [_, specification, trace, explanation, limits @ ..]
            if !specification.is_empty() && !trace.is_empty() && !explanation.is_empty() => {
            match read_limits(limits) {
                Some(limits) => Ok(Command::Replay { limits }),
                None => Err(BadUsage),
            }
        }
        _ => Err(BadUsage),
    }
}

// Reads the words of a trace that is made.
fn read_self_run(words: &[String]) -> Result<Command, BadUsage>
    requires { BeginWith (codes "selfrun") words.now }
    ensures asked { IfOk result (IsCommand words.now) }
    ensures refused { OnErr result (AsksNothing words.now) }
{
    match words {
        [_, specification, seed, count] if !specification.is_empty() => {
            match read_recipe(seed.as_str(), count.as_str()) {
                Some((seed, count)) => Ok(Command::SelfRun { seed, count }),
                None => Err(BadUsage),
            }
        }
        _ => Err(BadUsage),
    }
}

/// The seed of a trace that is made and its least number of events, that these words give.
pub fn read_recipe(seed: &str, count: &str) -> Option<(u64, u32)>
    ensures { MatchOption result
        ((first second : ℕ) → AreRecipe seed.now count.now first second → ⊥)
        (λ recipe. AreRecipe seed.now count.now recipe.0 recipe.1) }
{
    let seed = number(seed, 0, u64::MAX)?;
    let count = small_number(count, 0, MOST_MADE)?;
    Some((seed, count))
}

// The limits of a search that these words give, and the usual ones where there are no words.
fn read_search_limits(words: &[String]) -> Option<Limits>
    ensures { MatchOption result
        ((silent budget statements : ℕ)
        → AreSearchLimits (bytes_of words.now) silent budget statements → ⊥)
        (λ limits. AreSearchLimits (bytes_of words.now)
        limits.silent limits.budget limits.statements) }
{
    match words {
        [] => Some(USUAL),
        [silent, budget, statements] => {
            let silent = small_number(silent.as_str(), 0, MOST_SILENT)?;
            let budget = small_number(budget.as_str(), 0, MOST_BUDGET)?;
            let statements = small_number(statements.as_str(), 1, MOST_STATEMENTS)?;
            Some(Limits {
                silent,
                budget,
                statements,
            })
        }
        _ => None,
    }
}

// The limits of a replay that these words give, and the usual ones where there are no words.
fn read_limits(words: &[String]) -> Option<Limits>
    ensures limits { MatchOption result
        ((silent statements : ℕ) → AreLimits (bytes_of words.now) silent statements → ⊥)
        (λ limits. AreLimits (bytes_of words.now) limits.silent limits.statements) }
    ensures budget { IfSome result (λ limits. limits.budget ≡ usual_budget) }
{
    match words {
        [] => Some(USUAL),
        [silent, statements] => {
            let silent = small_number(silent.as_str(), 0, MOST_SILENT)?;
            let statements = small_number(statements.as_str(), 1, MOST_STATEMENTS)?;
            Some(Limits {
                silent,
                budget: USUAL.budget,
                statements,
            })
        }
        _ => None,
    }
}

// The value of a decimal number of 1 to 20 digits, where it is within these bounds.
fn small_number(word: &str, low: u32, high: u32) -> Option<u32>
    ensures { MatchOption result
        ((value : ℕ) → IsNumber low high word.now value → ⊥) (IsNumber low high word.now) }
{
    match number(word, u64::from(low), u64::from(high)) {
        Some(value) => Some(value as u32),
        None => None,
    }
}

// The same, of bounds that may be larger.
fn number(word: &str, low: u64, high: u64) -> Option<u64>
    ensures { MatchOption result
        ((value : ℕ) → IsNumber low high word.now value → ⊥) (IsNumber low high word.now) }
{
    if word.len() > 20 || word.starts_with('+') {
        return None;
    }
    let value = word.parse().ok()?;
    if low <= value && value <= high {
        Some(value)
    } else {
        None
    }
}
