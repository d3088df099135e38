//! What was seen of values.
ghost use Rattle.std.specs.Prelude.{◌≡◌, ◌↔◌, IsTrue};
ghost use Rattle.est_seen.specs.SeenValues.{Matches, MatchEach};

use est_syntax::est_items::Items;
use est_syntax::kind::Ordinals;
use est_values::value::{Value, Values};

/// What was seen of a value: nothing, or the value, or something of each of its components.
#[derive(Drop)]
pub enum Seen {
    /// Any value.
    Any,
    Undefined,
    Ordinal(i32),
    /// The members of a set, in ascending order.
    Set(Ordinals),
    /// What was seen of the components of an array, or of the fields of a record, in order.
    Group(Seens),
}

/// What was seen of values in order.
pub type Seens = Items<Seen>;

impl Seen {
    /// Whether a value matches what is seen.
    #[cycle(matches)]
    pub fn matches(&self, value: &Value) -> bool
        ensures { IsTrue result ↔ Matches self.now value.now }
    {
        match (self, value) {
            (Seen::Any, _) => true,
            (Seen::Undefined, Value::Undefined) => true,
            (Seen::Ordinal(x), Value::Ordinal(y)) => x == y,
            (Seen::Set(x), Value::Set(y)) => x.as_slice() == y.get().as_slice(),
            (Seen::Group(seen), Value::Group(values)) => match_each(seen, values),
            _ => false,
        }
    }
}

/// Whether values match what is seen of as many, one for one.
#[cycle(matches)]
pub fn match_each(seen: &Seens, values: &Values) -> bool
    ensures { IsTrue result ↔ MatchEach seen.now values.now }
{
    let seen = seen.as_slice();
    if seen.len() != values.len() {
        return false;
    }
    for i in 0..seen.len() {
        match values.get(i) {
            None => return false,
            Some(value) => {
                if !seen[i].matches(value) {
                    return false;
                }
            }
        }
    }
    true
}
