//! Checked specifications: sentences of the grammar that break no rule; and the rules that blocks,
//! transitions and bodies break, beside those of declarations (ISO 9074, constraints; ISO 7185).
#![tactic(auto)]

pub mod blocks;
mod checked;
pub mod clauses;
mod error;
mod judging;
mod read;
mod rules;
mod specification_error;
pub mod specification_laws;

pub use checked::Checked;
pub use error::CheckError;
pub use judging::check;
pub use read::read_specification;
pub use rule_ports::counts::Counts;
pub use specification_error::SpecificationError;
