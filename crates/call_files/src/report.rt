//! The lines of refusals.
ghost use Rattle.std.specs.Prelude.{◌≡◌, IfOk, string_bytes};
ghost use Rattle.call_files.specs.ReportLines.{line_of};
ghost use Rattle.call_files.specs.RefusalLines.{refusal_line, rule_text, too_long_line};

use crate::file::File;
use crate::status::Status;
use est_syntax::rule::Rule;
use std::alloc::{AllocError, Global};

/// What a call reports.
#[derive(Drop)]
pub struct Report {
    pub status: Status,
    pub text: Vec<u8>,
}

/// The number and the text of a rule.
pub fn rule_text(rule: Rule) -> &'static str
    ensures { result.now ≡ rule_text rule }
{
    match rule {
        Rule::UnknownName => "rule 1: unknown name",
        Rule::DeclaredTwice => "rule 2: declared twice",
        Rule::NotSeenHere => "rule 3: not seen here",
        Rule::WrongSort => "rule 4: wrong sort",
        Rule::NumberTooLarge => "rule 5: number too large",
        Rule::WrongBounds => "rule 6: wrong bounds",
        Rule::TooLarge => "rule 7: too large",
        Rule::WrongKind => "rule 8: wrong kind",
        Rule::WrongNumber => "rule 9: wrong number",
        Rule::NotWritable => "rule 10: not writable",
        Rule::NotInFunction => "rule 11: not in a function",
        Rule::WrongDirection => "rule 12: wrong direction",
        Rule::DelayNotAlone => "rule 13: delay not alone",
        Rule::NoFirstState => "rule 14: no first state",
        Rule::WrongAttribute => "rule 15: wrong attribute",
        Rule::WrongBody => "rule 16: wrong body",
        Rule::WrongLink => "rule 17: wrong link",
        Rule::CaseTwice => "rule 18: case twice",
    }
}

/// The report of a file that is refused at a line and a column.
pub fn refusal_report(
    alloc: Global,
    file: File,
    line: u32,
    column: u32,
    why: &str,
) -> Result<String, AllocError>
    ensures { IfOk result (λ report. string_bytes report ≡ refusal_line file line column why.now) }
{
    let word = file.word();
    format!(in alloc; "{word}:{line}:{column}: {why}\n")
}

/// The report that is this line.
pub fn line_report(alloc: Global, why: &str) -> Result<String, AllocError>
    ensures { IfOk result (λ report. string_bytes report ≡ line_of why.now) }
{
    format!(in alloc; "{why}\n")
}

/// The report of a file that is longer than its limit.
pub fn too_long_report(alloc: Global, file: File) -> Result<String, AllocError>
    ensures { IfOk result (λ report. string_bytes report ≡ too_long_line file) }
{
    let word = file.word();
    format!(in alloc; "{word}: too long\n")
}
