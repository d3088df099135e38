//! What loops count.
ghost use Rattle.std.specs.Prelude.{◌≡◌, ◌<◌, ◌+ℤ◌, pos};
ghost use Rattle.plain_texts.specs.plain_declared.ShownNames.{head_of};
ghost use Rattle.mean_blocks.specs.rule_scope.Outline.{entry_at};
ghost use Rattle.mean_blocks.specs.LoopEffects.{distance};
ghost use Rattle.mean_blocks.specs.NamesInRuns.{head_in, header_at};
ghost use Rattle.est_values.specs.FittingValues.{first_ordinal, ordinal_count};
ghost use Rattle.mean_blocks.specs.declared.frame.Slot.TheVariants as slot;
ghost use Rattle.est_values.specs.declared.value.Value.TheVariants.{Ordinal};
ghost use Rattle.plain_operands.specs.TurnsOfLoops.{turn_at};

use crate::site::Site;
use est_syntax::kind::Kind;
use est_values::ordinals::{counted, first_ordinal, last_ordinal};
use est_values::value::Value;
use mean_blocks::frame::Slot;
use plain_texts::plain_declared::declared::header_at;
use plain_texts::plain_declared::heads::{Head, head_in};

/// How many turns there are between two bounds, up or down.
pub fn distance(down: bool, first: i32, last: i32) -> u64
    ensures { result ≡ distance down first last }
{
    if down {
        counted(last, first)
    } else {
        counted(first, last)
    }
}

// The ordinal of a turn of a `for`, by its number counted from 0.
fn turn_ordinal(down: bool, first: i32, last: i32, number: u64) -> i32
    requires { number < distance down first last }
    ensures { result ≡ turn_at down first number }
{
    if down {
        (first as i64 - number as i64) as i32
    } else {
        (first as i64 + number as i64) as i32
    }
}

/// The value of the variable of a `for` in a turn, by its number counted from 0.
pub fn turn_value(down: bool, first: i32, last: i32, number: u64) -> Value
    requires { number < distance down first last }
    ensures { result ≡ Ordinal (turn_at down first number) }
{
    Value::Ordinal(turn_ordinal(down, first, last, number))
}

/// What the name of an `all` stands for in a turn: the ordinal of a kind that has this number,
/// counted from 0.
pub fn nth_slot(kind: &Kind, number: u64) -> Slot
    requires { number < ordinal_count kind.now }
    ensures { result ≡ slot.Value (Ordinal (first_ordinal kind.now +ℤ pos number)) }
{
    let last = last_ordinal(kind);
    Slot::Value(Value::Ordinal(turn_ordinal(false, first_ordinal(kind), last, number)))
}

/// What the name of an `all` is.
pub fn head_of_all<'t>(site: &Site<'_, 't>, place: u32) -> Head<'t>
    ensures { head_of result ≡ head_in place (entry_at site.now.text.now.outline place) }
{
    head_in(site.text.outline(), place)
}

/// The header of the module variable that is declared at a place.
pub fn header_of(site: &Site, place: u32) -> Option<u32>
    ensures { result ≡ header_at site.now.text.now.outline place }
{
    header_at(site.text.outline(), place)
}
