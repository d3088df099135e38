//! Interaction points and what passes them (ISO 9074, output and when-clause).
#![tactic(auto, using(rule_scope::proofs::LeastLaws::least_append))]

ghost use Rattle.std.specs.Prelude.{flat_map};
ghost use Rattle.std.specs.Prelude.{◌≡◌};
ghost use Rattle.rule_scope.specs.LeastSoFar.{least_with};
ghost use Rattle.rule_scope.specs.Outline.{member_at};
ghost use Rattle.rule_statements.specs.Signals.{direction_faults};
ghost use Rattle.rule_declares.specs.LookUps.{side_at, point_side, may_pass};
ghost use Rattle.rule_statements.specs.Signals.{standing_faults, signal_by_faults, signal_faults};
ghost use Rattle.rule_statements.specs.Signals.{signal_in, signal_standing, signal_of};
ghost use Rattle.rule_statements.specs.Signals.{sending_faults};

use est_syntax::channel::Role;
use est_syntax::expression::Access;
use est_syntax::name::Used;
use est_syntax::ports::Direction;
use est_syntax::rule::Rule;
use est_syntax::statement::Sending;
use rule_declares::lookups::{may_pass, point_side};
use rule_expressions::accesses::check_access;
use rule_expressions::expressions::check_taken;
use rule_expressions::receivers::Receiver;
use rule_scope::declaration::{Member, Senders, Side, Sort, Standing};
use rule_scope::least::Least;
use rule_scope::outline::Outline;

// Notes a name of a channel that is no interaction, or one that does not pass this way.
fn check_direction(
    outline: &Outline,
    direction: Direction,
    role: Role,
    declared: u32,
    place: u32,
    least: &mut Least,
)
    ensures { least.new.at ≡ least_with least.old.at
        (direction_faults direction role (member_at outline.now declared) place) }
{
    match outline.member(declared) {
        Some(Member::Interaction(senders)) => if !may_pass(direction, role, senders) {
            least.note(place, Rule::WrongDirection);
        },
        _ => least.note(place, Rule::WrongSort),
    }
}

// The same of a name that stands in the channel, or in no such place.
fn check_standing(
    outline: &Outline,
    direction: Direction,
    role: Role,
    standing: Option<Standing>,
    place: u32,
    least: &mut Least,
)
    ensures { least.new.at ≡ least_with least.old.at
        (standing_faults outline.now direction role standing place) }
{
    match standing {
        None => least.note(place, Rule::UnknownName),
        Some(standing) => {
            check_direction(outline, direction, role, standing.place, place, least);
        },
    }
}

// The name of an interaction, which is looked up in the channel of a point.
fn check_side(
    outline: &Outline,
    direction: Direction,
    side: Option<Side>,
    signal: &Used,
    least: &mut Least,
)
    ensures { least.new.at ≡ least_with least.old.at
        (signal_by_faults outline.now direction side signal.now) }
{
    if let Some(side) = side {
        let standing = outline.standing(side.channel, &signal.name);
        check_standing(outline, direction, side.role, standing, signal.place, least);
    }
}

/// An interaction point, and the name of an interaction that is sent or awaited there.
pub fn check_signal(
    outline: &Outline,
    direction: Direction,
    at: &Access,
    signal: &Used,
    least: &mut Least,
)
    ensures { least.new.at ≡ least_with least.old.at
        (signal_faults outline.now direction at.now signal.now) }
{
    check_access(outline, Sort::Point, at, least);
    check_side(
        outline,
        direction,
        point_side(outline, &at.name),
        signal,
        least,
    );
}

// What takes the arguments of an interaction, where this is one.
fn signal_in(outline: &Outline, place: u32) -> Option<Receiver>
    ensures { result ≡ signal_in (member_at outline.now place) place }
{
    match outline.member(place) {
        Some(Member::Interaction(_)) => Some(Receiver::Parameters(place)),
        _ => None,
    }
}

// The same of a name that stands in a channel, or in no such place.
fn signal_standing(outline: &Outline, standing: Option<Standing>) -> Option<Receiver>
    ensures { result ≡ signal_standing outline.now standing }
{
    match standing {
        None => None,
        Some(standing) => signal_in(outline, standing.place),
    }
}

// What takes the arguments of the interaction that a name means at a point.
fn signal_of(outline: &Outline, side: Option<Side>, signal: &Used) -> Option<Receiver>
    ensures { result ≡ signal_of outline.now side signal.now }
{
    match side {
        None => None,
        Some(side) => signal_standing(outline, outline.standing(side.channel, &signal.name)),
    }
}

// An interaction that is sent.
fn check_sending(outline: &Outline, sending: &Sending, least: &mut Least)
    ensures { least.new.at ≡ least_with least.old.at (sending_faults outline.now sending.now) }
{
    check_signal(
        outline,
        Direction::Sends,
        &sending.at,
        &sending.signal,
        least,
    );
    let receiver = signal_of(
        outline,
        point_side(outline, &sending.at.name),
        &sending.signal,
    );
    check_taken(
        outline,
        receiver,
        sending.signal.place,
        sending.arguments.as_slice(),
        least,
    );
}

/// Interactions that are sent.
pub fn check_sendings(outline: &Outline, sendings: &[Sending], least: &mut Least)
    ensures { least.new.at ≡ least_with least.old.at (flat_map (sending_faults outline.now) sendings.now) }
{
    for sending in sendings {
        check_sending(outline, sending, least);
    }
}
