//! Interaction points that nothing joins, and module variables that nothing makes a module of.

use crate::warning::{Slip, Warning};
use advice_lines::started::{count_in, header_of};
use est_lexer::tokens::Tokens;
use est_syntax::expression::{Access, EndPoint};
use est_syntax::name::Used;
use est_syntax::specification::Spec;
use est_syntax::statement::Statement;
use rule_scope::declaration::{Meant, Section, Sort};
use rule_scope::outline::Outline;
use std::alloc::{AllocError, Global};

/// What statements do with what is declared at a place: whether an interaction point is an end of a
/// link, or a module variable is named in one, and whether an `init` makes a module of it. Of a
/// header `made` says that its interaction points were looked at.
#[derive(Clone, Copy)]
pub(crate) struct Named {
    linked: bool,
    made: bool,
}

/// What is found in statements: warnings, and what they name, by the places of declarations.
#[derive(Drop)]
pub(crate) struct Found {
    pub warnings: Vec<Warning>,
    named: Vec<Named>,
}

impl Found {
    /// Nothing, of a text of so many tokens.
    pub fn new(alloc: Global, count: usize) -> Result<Found, AllocError> {
        let none = Named {
            linked: false,
            made: false,
        };
        let named = vec![in alloc; none; count]?;
        Ok(Found {
            warnings: Vec::new(alloc),
            named,
        })
    }

    /// The warnings.
    pub fn into_warnings(self) -> Vec<Warning> {
        let Found { warnings, named } = self;
        drop(named);
        warnings
    }

    // Whether a link names what is declared at a place.
    fn is_linked(&self, place: u32) -> bool {
        match self.named.get(place as usize) {
            None => false,
            Some(named) => named.linked,
        }
    }

    // Whether a module is made of the variable that is declared at a place.
    fn is_made(&self, place: u32) -> bool {
        match self.named.get(place as usize) {
            None => false,
            Some(named) => named.made,
        }
    }

    // Notes that a link names what is declared at a place.
    fn link(&mut self, place: u32) {
        if let Some(named) = self.named.get_mut(place as usize) {
            named.linked = true;
        }
    }

    // Notes that a module is made of the variable that is declared at a place.
    fn make(&mut self, place: u32) {
        if let Some(named) = self.named.get_mut(place as usize) {
            named.made = true;
        }
    }
}

// Where what a name means is declared, if it is seen.
fn declared_by(outline: &Outline, used: &Used) -> Option<u32> {
    match outline.meaning(used) {
        Meant::Seen(place) => Some(place),
        _ => None,
    }
}

// The place of an interaction point of the module that a variable stands for.
fn point_of(outline: &Outline, variable: u32, point: &Used) -> Option<u32> {
    let header = outline.entry(variable)?.header?;
    let standing = outline.standing(header, &point.name)?;
    Some(standing.place)
}

/// Notes what a name alone links: an interaction point.
pub(crate) fn mark_own(outline: &Outline, own: &Access, found: &mut Found) {
    if let Some(place) = declared_by(outline, &own.name) {
        found.link(place);
    }
}

/// Notes a module variable that is named in a link, and the interaction point of its module.
pub(crate) fn mark_child(outline: &Outline, child: &Access, point: &Access, found: &mut Found) {
    let Some(variable) = declared_by(outline, &child.name) else {
        return;
    };
    found.link(variable);
    if let Some(place) = point_of(outline, variable, &point.name) {
        found.link(place);
    }
}

/// Notes what an end of a connection names.
pub(crate) fn mark_end(outline: &Outline, end: &EndPoint, found: &mut Found) {
    match &end.second {
        None => mark_own(outline, &end.first, found),
        Some(point) => mark_child(outline, &end.first, point, found),
    }
}

/// Notes that a module is made of a variable.
pub(crate) fn mark_made(outline: &Outline, target: &Access, found: &mut Found) {
    if let Some(place) = declared_by(outline, &target.name) {
        found.make(place);
    }
}

// Takes the interaction points of the module that a specification starts with as linked: they are
// its ports.
fn mark_ports(outline: &Outline, spec: &Spec, found: &mut Found) {
    let Some(header) = header_of(outline, spec) else {
        return;
    };
    for number in 0..count_in(outline, header) {
        if let Some(place) = outline.nth(header, number) {
            found.link(place);
        }
    }
}

// Whether an interaction point is declared at a place.
fn is_point(outline: &Outline, place: u32) -> bool {
    match outline.entry(place) {
        None => false,
        Some(entry) => entry.declared.sort == Sort::Point,
    }
}

// Adds an interaction point that no link names, once.
fn push_point(outline: &Outline, place: u32, found: &mut Found) -> Result<(), AllocError> {
    if !is_point(outline, place) || found.is_linked(place) {
        return Ok(());
    }
    found.link(place);
    found.warnings.push(Warning {
        place,
        slip: Slip::NotJoined,
    })?;
    Ok(())
}

// Adds those of a header, each header once.
fn push_points(
    outline: &Outline,
    header: Option<u32>,
    found: &mut Found,
) -> Result<(), AllocError> {
    let Some(header) = header else {
        return Ok(());
    };
    if found.is_made(header) {
        return Ok(());
    }
    found.make(header);
    for number in 0..count_in(outline, header) {
        if let Some(place) = outline.nth(header, number) {
            push_point(outline, place, found)?;
        }
    }
    Ok(())
}

// Adds what is odd in a module variable, or in the interaction points of the module that is made of
// it.
fn push_variable(
    outline: &Outline,
    header: Option<u32>,
    place: u32,
    found: &mut Found,
) -> Result<(), AllocError> {
    if found.is_made(place) {
        return push_points(outline, header, found);
    }
    if found.is_linked(place) {
        found.warnings.push(Warning {
            place,
            slip: Slip::NotMade,
        })?;
    }
    Ok(())
}

// Adds what is odd in what is declared at a place, and used or not.
fn push_at(
    outline: &Outline,
    place: u32,
    is_used: bool,
    found: &mut Found,
) -> Result<(), AllocError> {
    let Some(entry) = outline.entry(place) else {
        return Ok(());
    };
    match (entry.declared.sort, entry.section) {
        (Sort::Point, Section::Body) => if is_used {
            push_point(outline, place, found)
        } else {
            Ok(())
        },
        (Sort::ModuleVariable, Section::Body) => {
            push_variable(outline, entry.header, place, found)
        }
        _ => Ok(()),
    }
}

/// Adds the interaction points of modules that are made, ports aside, and those of bodies that are
/// used, which no link names; and the module variables that links name and of which no `init` makes
/// a module.
pub(crate) fn push_unjoined(
    tokens: &Tokens,
    outline: &Outline,
    spec: &Spec,
    used: &[bool],
    found: &mut Found,
) -> Result<(), AllocError> {
    mark_ports(outline, spec, found);
    if let Statement::Init { target, .. } = &spec.first {
        mark_made(outline, target, found);
    }
    for place in 0..tokens.count() {
        let is_used = used.get(place as usize).copied().unwrap_or(false);
        push_at(outline, place, is_used, found)?;
    }
    Ok(())
}
