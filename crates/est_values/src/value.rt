//! Values, which share what they have in common.
ghost use Rattle.std.specs.Prelude.{◌≡◌, ◌↔◌, IsTrue};

use crate::Chunks;
use est_syntax::est_items::{Shared, Twin};
use est_syntax::kind::Ordinals;
use std::alloc::{AllocError, Global};

/// Values in order, in chunks that several lists can share.
pub type Values = Chunks<Value>;

/// A value of a variable, or the lack of one (ISO 7185, 6.5).
#[derive(Drop)]
pub enum Value {
    Undefined,
    Ordinal(i32),
    /// The members of a set, in ascending order.
    Set(Shared<Ordinals>),
    /// The components of an array, or the fields of a record, in order.
    Group(Values),
}

impl Twin for Value {
    fn twin(&self, alloc: Global) -> Result<Value, AllocError> {
        match self {
            Value::Undefined => Ok(Value::Undefined),
            Value::Ordinal(ordinal) => Ok(Value::Ordinal(*ordinal)),
            Value::Set(members) => {
                let members = members.share()?;
                Ok(Value::Set(members))
            }
            Value::Group(parts) => {
                let parts = parts.share()?;
                Ok(Value::Group(parts))
            }
        }
    }
}

impl Value {
    /// Whether two values are one.
    #[cycle(same)]
    pub fn is(&self, other: &Value) -> bool
        ensures { IsTrue result ↔ (self.now ≡ other.now) }
    {
        match (self, other) {
            (Value::Undefined, Value::Undefined) => true,
            (Value::Ordinal(x), Value::Ordinal(y)) => x == y,
            (Value::Set(x), Value::Set(y)) => x.get().as_slice() == y.get().as_slice(),
            (Value::Group(x), Value::Group(y)) => are_same(x, y),
            _ => false,
        }
    }
}

/// Whether two lists of values are one.
#[cycle(same)]
pub fn are_same(one: &Values, other: &Values) -> bool
    ensures { IsTrue result ↔ (one.now ≡ other.now) }
{
    if one.len() != other.len() {
        return false;
    }
    for i in 0..one.len() {
        match (one.get(i), other.get(i)) {
            (Some(x), Some(y)) => {
                if !x.is(y) {
                    return false;
                }
            }
            _ => return false,
        }
    }
    true
}
