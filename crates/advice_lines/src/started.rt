//! The module that a specification starts with, and what regions have.

use est_syntax::specification::Spec;
use est_syntax::statement::Statement;
use rule_scope::declaration::Sort;
use rule_scope::outline::Outline;

/// The header of the module that a specification starts with.
pub fn header_of(outline: &Outline, spec: &Spec) -> Option<u32> {
    let Statement::Init { target, .. } = &spec.first else {
        return None;
    };
    let variable = outline.declaration_of(Sort::ModuleVariable, &target.name)?;
    outline.entry(variable)?.header
}

/// How many names a region has.
pub fn count_in(outline: &Outline, region: u32) -> usize {
    match outline.names(region) {
        None => 0,
        Some(names) => names.len(),
    }
}
