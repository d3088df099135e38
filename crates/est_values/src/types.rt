//! What expressions yield, and what may be assigned to a variable (ISO 7185, 6.4.6 and 6.7.1).

ghost use Rattle.std.specs.Prelude.{◌≡◌};
ghost use Rattle.est_values.specs.Types.{yields, is_host, host_in, host_of, type_by, type_of};
ghost use Rattle.est_values.specs.Types.{are_hosts_one, is_assignable};

use crate::alike::is_alike;
use est_syntax::kind::Kind;

/// An ordinal type that is no part of another. An enumeration is known by the place of its
/// declaration, and has so many constants.
#[derive(Clone, Copy)]
pub enum Host {
    Integer,
    Boolean,
    Char,
    Enumeration { declared: u32, count: usize },
}

/// What an expression yields: an ordinal of a host, a set of members of a host, or of any for
/// `[ ]`, or an array or a record.
#[derive(Clone, Copy)]
pub enum ValueType<'k> {
    Ordinal(Host),
    Set(Option<Host>),
    Group(&'k Kind),
}

impl Host {
    /// Whether two hosts are one.
    pub fn is(self, other: Host) -> bool
        ensures { result ≡ is_host self other }
    {
        match (self, other) {
            (Host::Integer, Host::Integer) => true,
            (Host::Boolean, Host::Boolean) => true,
            (Host::Char, Host::Char) => true,
            (
                Host::Enumeration { declared, count: _ },
                Host::Enumeration {
                    declared: other,
                    count: _,
                },
            ) => declared == other,
            _ => false,
        }
    }
}

/// The host that a kind is.
pub fn host_in(kind: &Kind) -> Option<Host>
    ensures { result ≡ host_in kind.now }
{
    match kind {
        Kind::Integer => Some(Host::Integer),
        Kind::Boolean => Some(Host::Boolean),
        Kind::Char => Some(Host::Char),
        Kind::Enumeration { declared, names } => Some(Host::Enumeration {
            declared: *declared,
            count: names.get().len(),
        }),
        _ => None,
    }
}

/// The host of a kind or of what it is a part of.
pub fn host_of(kind: &Kind) -> Option<Host>
    ensures { result ≡ host_of kind.now }
{
    match kind {
        Kind::Part { host, .. } => host_in(host.get()),
        _ => host_in(kind),
    }
}

// What a variable of a kind yields that is no set.
fn single_type(kind: &Kind) -> ValueType<'_>
    ensures { yields result ≡ type_by (host_of kind.now) kind.now }
{
    match host_of(kind) {
        Some(host) => ValueType::Ordinal(host),
        None => ValueType::Group(kind),
    }
}

/// What a variable of a kind yields.
pub fn type_of(kind: &Kind) -> ValueType<'_>
    ensures { yields result ≡ type_of kind.now }
{
    match kind {
        Kind::SetOf(base) => ValueType::Set(host_of(base.get())),
        _ => single_type(kind),
    }
}

/// Whether two sets have members of one host.
pub fn are_hosts_one(one: Option<Host>, other: Option<Host>) -> bool
    ensures { result ≡ are_hosts_one one other }
{
    match (one, other) {
        (Some(one), Some(other)) => one.is(other),
        _ => true,
    }
}

/// Whether a value of one type may be assigned to a variable of another.
pub fn is_assignable(target: ValueType<'_>, source: ValueType<'_>) -> bool
    ensures { result ≡ is_assignable (yields target.entry) (yields source.entry) }
{
    match (target, source) {
        (ValueType::Ordinal(host), ValueType::Ordinal(other)) => host.is(other),
        (ValueType::Set(host), ValueType::Set(other)) => are_hosts_one(host, other),
        (ValueType::Group(kind), ValueType::Group(other)) => is_alike(kind, other),
        _ => false,
    }
}
