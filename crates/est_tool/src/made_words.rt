//! The words that ask for a trace.
ghost use Rattle.std.specs.Prelude.{MatchOption, codes};
ghost use Rattle.call_files.specs.Requests.{bytes_of};
ghost use Rattle.call_files.specs.inside.CommandWords.{BeginWith};
ghost use Rattle.est_tool.specs.TraceWords.{AsksForNoTrace, AsksForTrace};

use call_files::words::read_recipe;

/// A trace that words ask for: the file of its specification, its seed, and how many events it has
/// at least.
#[derive(Clone, Copy)]
pub struct Asked<'w> {
    pub specification: &'w str,
    pub seed: u64,
    pub count: u32,
}

/// Reads the words after the name of the program.
pub fn read_words(words: &[String]) -> Option<Asked<'_>>
    ensures { MatchOption result (AsksForNoTrace words.now)
        (λ asked. AsksForTrace (bytes_of words.now)
        asked.specification.now asked.seed asked.count) }
{
    match words {
        [command, ..] if command.as_str() == "trace" => read_trace(words),
        _ => None,
    }
}

// Reads the words of a trace.
fn read_trace(words: &[String]) -> Option<Asked<'_>>
    requires { BeginWith (codes "trace") words.now }
    ensures { MatchOption result (AsksForNoTrace words.now)
        (λ asked. AsksForTrace (bytes_of words.now)
        asked.specification.now asked.seed asked.count) }
{
    match words {
        [_, specification, seed, count] if !specification.is_empty() => {
            match read_recipe(seed.as_str(), count.as_str()) {
                Some((seed, count)) => Some(Asked {
                    specification: specification.as_str(),
                    seed,
                    count,
                }),
                None => None,
            }
        }
        _ => None,
    }
}
