//! What a call takes and gives. The outside: files that are read, and one output that is written; a
//! fault of either is counted, so that a caller can prove that an answer of failure has its cause
//! outside. The words of a call and its statuses; its files, each read whole and within its limit,
//! or refused; and its reports.
#![tactic(auto)]

mod calls;
pub mod check_report;
mod counting;
mod diagnostic;
pub mod explanation;
pub mod file;
pub mod lists;
mod memory;
mod memory_file;
mod memory_sink;
mod places;
pub mod port_report;
mod readable;
mod reading;
mod report;
pub mod search_report;
pub mod self_run_report;
mod shelf;
pub mod specification;
pub mod status;
mod stop;
mod system;
pub mod trace;
mod trail;
mod whole;
pub mod words;
mod writing;

pub use est_explanation;
pub use est_lexer;
pub use est_trace;
pub use est_trace::est_check;
pub use memory::MemShelf;
pub use memory_sink::MemSink;
pub use report::{Report, line_report, refusal_report, too_long_report};
pub use shelf::{Failed, Shelf};
pub use stop::Stop;
pub use system::{FileShelf, OutSink};
pub use whole::{ReadError, read_whole, write_whole};
pub use writing::Sink;
