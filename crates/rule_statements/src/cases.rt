//! The constants of a `case` (ISO 7185, 6.8.3.5).
#![tactic(auto, using(rule_scope::proofs::LeastLaws::least_append))]

ghost use Rattle.std.specs.Prelude.{◌≡◌, [], OnOk};
ghost use Rattle.std.specs.Map.{lookup};
ghost use Rattle.std.specs.Ordering.{int_eq};
ghost use Rattle.indexmap.specs.IndexMap.{insert_entry};
ghost use Rattle.rule_scope.specs.LeastSoFar.{least_with};
ghost use Rattle.est_values.specs.Types.{yielded};
ghost use Rattle.rule_statements.specs.Cases.{chosen_host, is_kind_of, ordinal_of, host_faults};
ghost use Rattle.rule_statements.specs.Cases.{with_ordinal, again_faults, with_constant};
ghost use Rattle.rule_statements.specs.Cases.{choice_faults, with_constants, choices_faults};

use est_syntax::constant::Constant;
use est_syntax::rule::Rule;
use est_values::types::{Host, ValueType, host_in};
use indexmap::IndexMap;
use rule_declares::rule_kinds::constants::{check_constant, constant_place};
use rule_declares::rule_kinds::value::Valued;
use rule_scope::least::Least;
use rule_scope::outline::Outline;
use std::alloc::{AllocError, Global};
use std::marker::Model;

/// The ordinals of constants, with their places.
pub struct Chosen {
    under: IndexMap<i32, u32>,
}

// In words, so that where constants are let go of there is one call.
impl Drop for Chosen {
    fn drop(self) {
        let Chosen { under } = self;
        drop(under);
    }
}

impl Model for Chosen {
    ghost use Rattle.std.specs.Prelude.{List, ℕ, ℤ};

    ghost Value = { List (ℤ × ℕ) };

    ghost view = { λ t. t.under.entries };
}

impl Chosen {
    /// No constants.
    pub fn new(alloc: Global) -> Chosen
        ensures { result ≡ [] }
    {
        Chosen {
            under: IndexMap::new(alloc),
        }
    }

    // The place of the constant that has this ordinal, if one does.
    fn at(&self, ordinal: i32) -> Option<u32>
        ensures { result ≡ lookup (int_eq ordinal) self.now }
    {
        self.under.get(&ordinal).copied()
    }

    // One more constant.
    fn add(&mut self, ordinal: i32, place: u32) -> Result<(), AllocError>
        ensures { OnOk result (self.new ≡ insert_entry int_eq self.old ordinal place) }
    {
        self.under.insert(ordinal, place)?;
        Ok(())
    }
}

/// The host of what is chosen by.
pub fn chosen_host(kind: Option<ValueType<'_>>) -> Option<Host>
    ensures { result ≡ chosen_host (yielded kind.entry) }
{
    match kind {
        Some(ValueType::Ordinal(host)) => Some(host),
        _ => None,
    }
}

// Whether a constant is of this host.
fn is_kind_of(host: Host, other: Option<Host>) -> bool
    ensures { result ≡ is_kind_of host other }
{
    match other {
        None => false,
        Some(other) => host.is(other),
    }
}

// The ordinal of a constant of the host.
fn ordinal_of(host: Option<Host>, value: &Option<Valued>) -> Option<i32>
    ensures { result ≡ ordinal_of host value.now }
{
    match (host, value) {
        (Some(host), Some(value)) => if is_kind_of(host, host_in(&value.host)) {
            Some(value.ordinal)
        } else {
            None
        },
        _ => None,
    }
}

// Notes a constant of another host.
fn check_host(host: Option<Host>, value: &Option<Valued>, place: u32, least: &mut Least)
    ensures { least.new.at ≡ least_with least.old.at (host_faults host value.now place) }
{
    match (host, value) {
        (Some(host), Some(value)) => if !is_kind_of(host, host_in(&value.host)) {
            least.note(place, Rule::WrongKind);
        },
        _ => (),
    }
}

// Adds an ordinal that is not there.
fn add_ordinal(ordinal: Option<i32>, place: u32, chosen: &mut Chosen) -> Result<(), AllocError>
    ensures { OnOk result (chosen.new ≡ with_ordinal ordinal place chosen.old) }
{
    let Some(ordinal) = ordinal else {
        return Ok(());
    };
    match chosen.at(ordinal) {
        None => chosen.add(ordinal, place),
        Some(_) => Ok(()),
    }
}

// Notes an ordinal that is there already.
fn check_again(ordinal: Option<i32>, chosen: &Chosen, place: u32, least: &mut Least)
    ensures { least.new.at ≡ least_with least.old.at (again_faults ordinal chosen.now place) }
{
    if let Some(ordinal) = ordinal {
        if chosen.at(ordinal).is_some() {
            least.note(place, Rule::CaseTwice);
        }
    }
}

// A constant of a `case`, after those before it.
fn check_choice(
    outline: &Outline,
    host: Option<Host>,
    constant: &Constant,
    chosen: &mut Chosen,
    least: &mut Least,
) -> Result<(), AllocError>
    ensures chosen { OnOk result
        (chosen.new ≡ with_constant outline.now host chosen.old constant.now) }
    ensures faults { OnOk result (least.new.at
        ≡ least_with least.old.at (choice_faults outline.now host chosen.old constant.now)) }
{
    let value = check_constant(outline, constant, least)?;
    let place = constant_place(constant);
    check_host(host, &value, place, least);
    let ordinal = ordinal_of(host, &value);
    drop(value);
    check_again(ordinal, chosen, place, least);
    add_ordinal(ordinal, place, chosen)
}

/// Constants of a `case`, after those before them.
pub fn check_choices(
    outline: &Outline,
    host: Option<Host>,
    constants: &[Constant],
    chosen: &mut Chosen,
    least: &mut Least,
) -> Result<(), AllocError>
    ensures chosen { OnOk result
        (chosen.new ≡ with_constants outline.now host chosen.old constants.now) }
    ensures faults { OnOk result (least.new.at
        ≡ least_with least.old.at (choices_faults outline.now host chosen.old constants.now)) }
{
    for constant in constants {
        check_choice(outline, host, constant, chosen, least)?;
    }
    Ok(())
}
