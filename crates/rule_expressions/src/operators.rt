//! What operators take and yield (ISO 7185, 6.7.2).
#![tactic(auto, using(rule_scope::proofs::LeastLaws::least_append))]

ghost use Rattle.std.specs.Prelude.{◌≡◌, Some};
ghost use Rattle.rule_scope.specs.LeastSoFar.{least_with};
ghost use Rattle.est_values.specs.Types.{yields, yielded, are_hosts_one};
ghost use Rattle.rule_expressions.specs.Operators.{is_ordinal, is_of, is_set, is_taken, wants};
ghost use Rattle.rule_expressions.specs.Operators.{kept};
ghost use Rattle.rule_expressions.specs.Operators.{gives, is_given, left_of, do_agree, may_be_in};
ghost use Rattle.rule_expressions.specs.Operators.{do_match, united, is_relation, result_of};
ghost use Rattle.rule_expressions.specs.Operators.{matched, operated, disagrees, right_faults};
ghost use Rattle.rule_expressions.specs.Operators.{signed, sign_faults, with_host, with_member};
ghost use Rattle.rule_expressions.specs.Operators.{member_disagrees, spanned, span_faults};

use est_syntax::constant::Sign;
use est_syntax::expression::Operator;
use est_syntax::rule::Rule;
use est_values::types::{Host, ValueType, are_hosts_one, is_assignable};
use rule_scope::least::Least;

/// What a place takes.
#[derive(Clone, Copy)]
pub enum Wanted {
    Integer,
    Boolean,
    Ordinal,
    IntegerOrSet,
    OrdinalOrSet,
}

// Whether a type is an ordinal.
fn is_ordinal(kind: ValueType<'_>) -> bool
    ensures { result ≡ is_ordinal (yields kind.entry) }
{
    match kind {
        ValueType::Ordinal(_) => true,
        _ => false,
    }
}

// Whether a type is an ordinal of a host.
fn is_of(host: Host, kind: ValueType<'_>) -> bool
    ensures { result ≡ is_of host (yields kind.entry) }
{
    match kind {
        ValueType::Ordinal(other) => host.is(other),
        _ => false,
    }
}

// Whether a type is a set.
fn is_set(kind: ValueType<'_>) -> bool
    ensures { result ≡ is_set (yields kind.entry) }
{
    match kind {
        ValueType::Set(_) => true,
        _ => false,
    }
}

/// Whether a place takes a type.
pub fn is_taken(wanted: Wanted, kind: ValueType<'_>) -> bool
    ensures { result ≡ is_taken wanted (yields kind.entry) }
{
    match wanted {
        Wanted::Integer => is_of(Host::Integer, kind),
        Wanted::Boolean => is_of(Host::Boolean, kind),
        Wanted::Ordinal => is_ordinal(kind),
        Wanted::IntegerOrSet => is_of(Host::Integer, kind) || is_set(kind),
        Wanted::OrdinalOrSet => is_ordinal(kind) || is_set(kind),
    }
}

/// Notes a part whose place wants another type, where the part has a type.
pub fn wants(wanted: Wanted, kind: Option<ValueType<'_>>, place: u32, least: &mut Least)
    ensures { least.new.at ≡ least_with least.old.at (wants wanted (yielded kind.entry) place) }
{
    match kind {
        None => (),
        Some(kind) => if !is_taken(wanted, kind) {
            least.note(place, Rule::WrongKind);
        },
    }
}

/// What a part yields at a place, where it has such a type.
pub fn kept<'k>(wanted: Wanted, kind: Option<ValueType<'k>>) -> Option<ValueType<'k>>
    ensures { yielded result ≡ kept wanted (yielded kind.entry) }
{
    match kind {
        None => None,
        Some(held) => if is_taken(wanted, held) {
            Some(held)
        } else {
            None
        },
    }
}

/// Notes a value that is given to a variable of another type, where both are known.
pub fn gives(
    target: Option<ValueType<'_>>,
    value: Option<ValueType<'_>>,
    place: u32,
    least: &mut Least,
)
    ensures { least.new.at
        ≡ least_with least.old.at (gives (yielded target.entry) (yielded value.entry) place) }
{
    match (target, value) {
        (Some(target), Some(value)) => if !is_assignable(target, value) {
            least.note(place, Rule::WrongKind);
        },
        _ => (),
    }
}

/// Whether a value may be given to a variable.
pub fn is_given(target: Option<ValueType<'_>>, value: Option<ValueType<'_>>) -> bool
    ensures { result ≡ is_given (yielded target.entry) (yielded value.entry) }
{
    match (target, value) {
        (Some(target), Some(value)) => is_assignable(target, value),
        _ => false,
    }
}

/// What the left operand of an operator is.
pub fn left_of(operator: Operator) -> Wanted
    ensures { result ≡ left_of operator }
{
    match operator {
        Operator::Equal => Wanted::OrdinalOrSet,
        Operator::Unequal => Wanted::OrdinalOrSet,
        Operator::Below => Wanted::Ordinal,
        Operator::AtMost => Wanted::OrdinalOrSet,
        Operator::Above => Wanted::Ordinal,
        Operator::AtLeast => Wanted::OrdinalOrSet,
        Operator::Within => Wanted::Ordinal,
        Operator::Plus => Wanted::IntegerOrSet,
        Operator::Minus => Wanted::IntegerOrSet,
        Operator::Or => Wanted::Boolean,
        Operator::Times => Wanted::IntegerOrSet,
        Operator::Div => Wanted::Integer,
        Operator::Mod => Wanted::Integer,
        Operator::And => Wanted::Boolean,
    }
}

// Whether two operands are ordinals of one host, or sets over one host.
fn do_agree(left: ValueType<'_>, right: ValueType<'_>) -> bool
    ensures { result ≡ do_agree (yields left.entry) (yields right.entry) }
{
    match (left, right) {
        (ValueType::Ordinal(one), ValueType::Ordinal(other)) => one.is(other),
        (ValueType::Set(one), ValueType::Set(other)) => are_hosts_one(one, other),
        _ => false,
    }
}

// Whether an ordinal may be a member of a set.
fn may_be_in(left: ValueType<'_>, right: ValueType<'_>) -> bool
    ensures { result ≡ may_be_in (yields left.entry) (yields right.entry) }
{
    match (left, right) {
        (ValueType::Ordinal(member), ValueType::Set(host)) => are_hosts_one(Some(member), host),
        _ => false,
    }
}

// Whether the right operand of an operator goes with the left one.
fn do_match(operator: Operator, left: ValueType<'_>, right: ValueType<'_>) -> bool
    ensures { result ≡ do_match operator (yields left.entry) (yields right.entry) }
{
    match operator {
        Operator::Within => may_be_in(left, right),
        _ => do_agree(left, right),
    }
}

// Two sets make one over the host of either.
fn united<'k>(left: ValueType<'k>, right: ValueType<'k>) -> ValueType<'k>
    ensures { yields result ≡ united (yields left.entry) (yields right.entry) }
{
    match left {
        ValueType::Set(None) => right,
        _ => left,
    }
}

// Whether an operator compares its operands.
fn is_relation(operator: Operator) -> bool
    ensures { result ≡ is_relation operator }
{
    match operator {
        Operator::Equal => true,
        Operator::Unequal => true,
        Operator::Below => true,
        Operator::AtMost => true,
        Operator::Above => true,
        Operator::AtLeast => true,
        Operator::Within => true,
        _ => false,
    }
}

// What an operator yields of operands that go together.
fn result_of<'k>(operator: Operator, left: ValueType<'k>, right: ValueType<'k>) -> ValueType<'k>
    ensures { yields result ≡ result_of operator (yields left.entry) (yields right.entry) }
{
    if is_relation(operator) {
        ValueType::Ordinal(Host::Boolean)
    } else {
        united(left, right)
    }
}

// What an operator yields of a left operand that it takes: nothing, with a right one at this place
// that does not go with it, which is noted.
fn matched<'k>(
    operator: Operator,
    left: ValueType<'k>,
    right: ValueType<'k>,
    place: u32,
    least: &mut Least,
) -> Option<ValueType<'k>>
    ensures kind { yielded result ≡ matched operator (yields left.entry) (yields right.entry) }
    ensures faults { least.new.at ≡ least_with least.old.at
        (disagrees operator (yields left.entry) (yields right.entry) place) }
{
    if do_match(operator, left, right) {
        Some(result_of(operator, left, right))
    } else {
        least.note(place, Rule::WrongKind);
        None
    }
}

/// What an operator yields, where its left operand is taken and both go together. Notes a right
/// operand, at its place, that does not go with the left one.
pub fn operate<'k>(
    operator: Operator,
    left: Option<ValueType<'k>>,
    right: Option<ValueType<'k>>,
    place: u32,
    least: &mut Least,
) -> Option<ValueType<'k>>
    ensures kind { yielded result ≡ operated operator (yielded left.entry) (yielded right.entry) }
    ensures faults { least.new.at ≡ least_with least.old.at
        (right_faults operator (yielded left.entry) (yielded right.entry) place) }
{
    match (left, right) {
        (Some(left), Some(right)) => if is_taken(left_of(operator), left) {
            matched(operator, left, right, place, least)
        } else {
            None
        },
        _ => None,
    }
}

/// What the first operand of a sum yields after its sign, if there is one.
pub fn signed<'k>(sign: Option<Sign>, kind: Option<ValueType<'k>>) -> Option<ValueType<'k>>
    ensures { yielded result ≡ signed sign (yielded kind.entry) }
{
    match sign {
        None => kind,
        Some(_) => kept(Wanted::Integer, kind),
    }
}

/// Notes a sign before what is no integer.
pub fn check_sign(sign: Option<Sign>, kind: Option<ValueType<'_>>, place: u32, least: &mut Least)
    ensures { least.new.at ≡ least_with least.old.at (sign_faults sign (yielded kind.entry) place) }
{
    match sign {
        None => (),
        Some(_) => wants(Wanted::Integer, kind, place, least),
    }
}

// A set of members of a host, with one of this host.
fn with_host<'k>(members: Option<Host>, host: Host) -> Option<ValueType<'k>>
    ensures { yielded result ≡ with_host members host }
{
    if are_hosts_one(Some(host), members) {
        Some(ValueType::Set(Some(host)))
    } else {
        None
    }
}

/// A set with one more member.
pub fn with_member<'k>(
    set: Option<ValueType<'k>>,
    member: Option<ValueType<'k>>,
) -> Option<ValueType<'k>>
    ensures { yielded result ≡ with_member (yielded set.entry) (yielded member.entry) }
{
    match (set, member) {
        (Some(ValueType::Set(members)), Some(ValueType::Ordinal(host))) => with_host(members, host),
        _ => None,
    }
}

/// Notes a member of a set, at its place, of another host than those before it.
pub fn check_host(
    set: Option<ValueType<'_>>,
    member: Option<ValueType<'_>>,
    place: u32,
    least: &mut Least,
)
    ensures { least.new.at ≡ least_with least.old.at
        (member_disagrees (yielded set.entry) (yielded member.entry) place) }
{
    match (set, member) {
        (Some(ValueType::Set(members)), Some(ValueType::Ordinal(host))) => if !are_hosts_one(
            Some(host),
            members,
        ) {
            least.note(place, Rule::WrongKind);
        },
        _ => (),
    }
}

// The ordinals from one of a type to another at this place, which is noted where its host is
// another.
fn span_between<'k>(
    low: ValueType<'k>,
    high: ValueType<'k>,
    place: u32,
    least: &mut Least,
) -> Option<ValueType<'k>>
    ensures kind { yielded result ≡ spanned (Some (yields low.entry)) (Some (yields high.entry)) }
    ensures faults { least.new.at ≡ least_with least.old.at
        (span_faults (Some (yields low.entry)) (Some (yields high.entry)) place) }
{
    if !is_ordinal(low) {
        return None;
    }
    if do_agree(low, high) {
        Some(low)
    } else {
        least.note(place, Rule::WrongKind);
        None
    }
}

/// What members from one to another at this place yield, which have one host. Notes one of another
/// host.
pub fn span<'k>(
    low: Option<ValueType<'k>>,
    high: Option<ValueType<'k>>,
    place: u32,
    least: &mut Least,
) -> Option<ValueType<'k>>
    ensures kind { yielded result ≡ spanned (yielded low.entry) (yielded high.entry) }
    ensures faults { least.new.at ≡ least_with least.old.at
        (span_faults (yielded low.entry) (yielded high.entry) place) }
{
    match (low, high) {
        (Some(low), Some(high)) => span_between(low, high, place, least),
        _ => None,
    }
}
