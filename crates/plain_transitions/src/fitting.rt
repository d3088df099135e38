//! The numbers of transitions by the states that they fit.

ghost use Rattle.std.specs.Prelude.{◌<◌, ◌^◌, length, IfOk, OnOk};
ghost use Rattle.plain_transitions.specs.inside.StateNumbers.{ArePut, IsPut, AreByStates};

use crate::lists::Lists;
use crate::written::Written;
use est_syntax::est_items::Items;
use std::alloc::{AllocError, Global};

/// The ascending numbers of the transitions that fit each state, and of those that name a state.
pub(crate) struct Fitting {
    pub(crate) each: Items<u32>,
    pub(crate) named: Lists,
}

// In words, so that where it is let go of there is one call.
impl Drop for Fitting {
    fn drop(self) {
        let Fitting { each, named } = self;
        drop(each);
        drop(named);
    }
}

// Puts a number under states.
fn put_states(number: u32, states: &[u32], named: &mut Lists) -> Result<(), AllocError>
    ensures { OnOk result (ArePut number states.now named.old named.new) }
{
    for state in states {
        named.put(*state, number)?;
    }
    Ok(())
}

// Puts the number of a transition that names these states, if it names some.
fn put(number: u32, states: &Option<Items<u32>>, fitting: &mut Fitting) -> Result<(), AllocError>
    ensures { OnOk result (IsPut number states.now fitting.old fitting.new) }
{
    match states {
        None => fitting.each.push(number),
        Some(states) => put_states(number, states.as_slice(), &mut fitting.named),
    }
}

/// The numbers of transitions by the states that they fit.
pub(crate) fn fitting_of(alloc: Global, written: &[Written<'_>]) -> Result<Fitting, AllocError>
    requires { length written.now < 2 ^ 32 }
    ensures { IfOk result (AreByStates written.now (length written.now)) }
{
    let mut fitting = Fitting {
        each: Items::new(alloc),
        named: Lists::new(alloc),
    };
    for (index, transition) in written.iter().enumerate() {
        put(index as u32 + 1, &transition.states, &mut fitting)?;
    }
    Ok(fitting)
}
