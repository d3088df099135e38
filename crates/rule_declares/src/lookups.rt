//! What is looked up of a declaration: its header, its side (ISO 9074, module variables, interaction
//! points and init-statement).
ghost use Rattle.std.specs.Prelude.{◌≡◌};
ghost use Rattle.rule_kinds.specs.rule_scope.Outline.{entry_at};
ghost use Rattle.rule_declares.specs.LookUps.{header_in, header_at, started_header};
ghost use Rattle.rule_declares.specs.LookUps.{side_at, point_side, may_pass};

use est_syntax::channel::Role;
use est_syntax::name::Used;
use est_syntax::ports::Direction;
use est_syntax::statement::Statement;
use rule_kinds::rule_scope::declaration::{Senders, Side, Sort};
use rule_kinds::rule_scope::outline::Outline;

/// The header of what is declared at a place, if it has one.
pub fn header_in(outline: &Outline, place: u32) -> Option<u32>
    ensures { result ≡ header_in (entry_at outline.now place) }
{
    match outline.entry(place) {
        None => None,
        Some(entry) => entry.header,
    }
}

/// The header of the module variable or body that is declared at a place.
pub fn header_at(outline: &Outline, place: Option<u32>) -> Option<u32>
    ensures { result ≡ header_at outline.now place }
{
    match place {
        None => None,
        Some(place) => header_in(outline, place),
    }
}

/// The header of the module that a specification starts, by the place of its name.
pub fn started_header(outline: &Outline, first: &Statement) -> Option<u32>
    ensures { result ≡ started_header outline.now first.now }
{
    match first {
        Statement::Init { target, .. } => {
            header_at(
                outline,
                outline.declaration_of(Sort::ModuleVariable, &target.name),
            )
        }
        _ => None,
    }
}

/// The channel and the role of the interaction point that is declared at a place.
pub fn side_at(outline: &Outline, place: Option<u32>) -> Option<Side>
    ensures { result ≡ side_at outline.now place }
{
    match place {
        None => None,
        Some(place) => match outline.entry(place) {
            None => None,
            Some(entry) => entry.side,
        },
    }
}

/// The channel and the role of the interaction point that a name means.
pub fn point_side(outline: &Outline, at: &Used) -> Option<Side>
    ensures { result ≡ point_side outline.now at.now }
{
    side_at(outline, outline.declaration_of(Sort::Point, at))
}

/// Whether a role of a channel sends or receives an interaction that these roles may send.
pub fn may_pass(direction: Direction, role: Role, senders: Senders) -> bool
    ensures { result ≡ may_pass direction role senders }
{
    match (direction, role) {
        (Direction::Sends, Role::First) => senders.first,
        (Direction::Sends, Role::Second) => senders.second,
        (Direction::Receives, Role::First) => senders.second,
        (Direction::Receives, Role::Second) => senders.first,
    }
}
