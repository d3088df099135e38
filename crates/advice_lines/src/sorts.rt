//! The words for what names are.

use rule_scope::declaration::{Member, Section, Sort};
use rule_scope::predeclared::PredeclaredName;

// What a variable of a section is called.
fn variable_word(section: Section) -> &'static str {
    match section {
        Section::Body => "a variable",
        Section::Block => "a variable",
        Section::Parameter => "a parameter of a module header",
        Section::Header => "an exported variable",
        Section::Value => "a parameter",
        Section::Place => "a var parameter",
        Section::Interaction => "a parameter of an interaction",
        Section::Any => "a variable of an any",
        Section::All => "the name of an all",
    }
}

/// What a declaration of a sort is called, by its section.
pub fn sort_word(sort: Sort, section: Section) -> &'static str {
    match sort {
        Sort::Constant => "a constant",
        Sort::TypeName => "a type",
        Sort::Channel => "a channel",
        Sort::Header => "a module header",
        Sort::Body => "a module body",
        Sort::Variable => variable_word(section),
        Sort::ModuleVariable => "a module variable",
        Sort::Point => "an interaction point",
        Sort::State => "a state",
        Sort::StateSet => "a state set",
        Sort::Procedure => "a procedure",
        Sort::Function => "a function",
    }
}

/// What a name of a channel or a record is called.
pub fn member_word(member: Member) -> &'static str {
    match member {
        Member::Role(_) => "a role of a channel",
        Member::Interaction(_) => "an interaction of a channel",
        Member::Field => "a field of a record",
    }
}

/// The sort of a predeclared name.
pub fn predeclared_sort(known: PredeclaredName) -> Sort {
    match known {
        PredeclaredName::Integer => Sort::TypeName,
        PredeclaredName::Boolean => Sort::TypeName,
        PredeclaredName::Char => Sort::TypeName,
        PredeclaredName::False => Sort::Constant,
        PredeclaredName::True => Sort::Constant,
        PredeclaredName::Maxint => Sort::Constant,
        _ => Sort::Function,
    }
}

/// What a predeclared name is called.
pub fn predeclared_word(known: PredeclaredName) -> &'static str {
    match predeclared_sort(known) {
        Sort::TypeName => "a predeclared type",
        Sort::Constant => "a predeclared constant",
        _ => "a predeclared function",
    }
}
